//! Copies into a buffer.

ghost use Rattle.std.specs.Prelude.{◌≡◌};
ghost use Rattle.message.specs.Meaning.{overlaid};

/// Lays items at the front of a buffer, as many as it can hold; past them it stays as it is.
pub fn lay<T: Copy>(items: &[T], buffer: &mut [T])
    ensures { buffer.new ≡ overlaid items.now buffer.old }
{
    let count = items.len().min(buffer.len());
    buffer[..count].copy_from_slice(&items[..count]);
}
