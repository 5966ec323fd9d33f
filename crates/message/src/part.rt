//! Parts of a body.

ghost use Rattle.std.specs.Prelude.{◌≡◌, take, drop};
ghost use Rattle.message.specs.Meaning.{part_in};

/// Where a text or an array lies in a body.
#[derive(Clone, Copy, Debug, PartialEq, Eq)]
pub struct Part {
    pub start: usize,
    pub len: usize,
}

/// The bytes of a part, cut where the body ends.
pub fn bytes_of(body: &[u8], part: Part) -> &[u8]
    ensures { result.now ≡ part_in body.now part }
{
    front_of(rest_of(body, part.start), part.len)
}

/// At most so many items, from the first on.
pub(crate) fn front_of<T>(items: &[T], most: usize) -> &[T]
    ensures { result.now ≡ take most items.now }
{
    &items[..most.min(items.len())]
}

// The items from an index on.
fn rest_of(whole: &[u8], start: usize) -> &[u8]
    ensures { result.now ≡ drop start whole.now }
{
    &whole[start.min(whole.len())..]
}
