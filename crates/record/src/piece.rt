// Where a piece of a sheet ends.
ghost use Rattle.std.specs.Prelude.{◌≡◌, ◌+◌, cond, get_or, Some, None};
ghost use Rattle.model.specs.Text.{minus};
ghost use Rattle.record.specs.Place.{Ends, FirstSeparator, separates};

use crate::cursor::Cursor;

// What is read in place, and where its piece ends.
#[derive(Clone, Copy)]
pub struct Piece<T> {
    pub value: T,
    pub end: usize,
}

// Whether a piece ends at this byte.
pub fn separates(b: u8) -> bool
    ensures { result ≡ separates b }
{
    matches!(b, b'\t' | b'\n')
}

// How many bytes stand before the first separator.
fn piece_len(s: &[u8]) -> Option<usize>
    ensures { FirstSeparator s.now result }
{
    s.iter().position(|b| separates(*b))
}

// The end of the piece that begins here.
pub fn piece_end(c: Cursor<'_>) -> usize
    ensures { Ends c.entry.bytes.now c.entry.at result }
{
    match piece_len(&c.bytes[c.at..]) {
        Some(n) => c.at + n,
        // never, since a line has its line feed
        None => c.at,
    }
}

// The end of the piece that begins with a dash here, if that is all of it.
pub(crate) fn dash_end(c: Cursor<'_>) -> Option<usize>
    requires { get_or c.bytes.now c.at 0 ≡ minus }
    ensures { result ≡ cond (separates (get_or c.entry.bytes.now (c.entry.at + 1) 0)) (Some (c.entry.at + 1)) None }
{
    let end = c.at + 1;
    separates(c.bytes[end]).then_some(end)
}
