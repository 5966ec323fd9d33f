//! Which lines a call touches.

ghost use Rattle.engine_laws.specs.Touched.{CallsTouchTheirLines};

/// Every call leaves the lines of the places that its rules do not name.
pub fn calls_touch_their_lines()
    ensures { CallsTouchTheirLines }
{}
