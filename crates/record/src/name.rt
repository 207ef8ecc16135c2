// Names of a sheet, and what may be named.
ghost use Rattle.std.specs.Prelude.{◌≡◌};
ghost use Rattle.record.specs.Name.{is_plain, letter, CharAt};
ghost use Rattle.record.specs.Place.{separates};
ghost use Rattle.record.specs.InPlace.{NameAt, AliasReadAt};

use crate::cursor::Cursor;
use crate::piece::{Piece, dash_end, separates};

// Whether a byte may stand behind a backslash.
fn escaped(b: u8) -> bool
    ensures { result ≡ is_plain (letter b) }
{
    matches!(b, b'\\' | b'n' | b't')
}

// How many bytes the character here has: two for one of the three escapes. None for a backslash with no letter of theirs.
fn char_len(c: Cursor<'_>) -> Option<usize>
    ensures { CharAt c.entry.bytes.now c.entry.at result }
{
    if c.bytes[c.at] != b'\\' {
        return Some(1);
    }
    if escaped(c.bytes[c.at + 1]) {
        Some(2)
    } else {
        None
    }
}

// The name here: any bytes up to the end of the piece, with the three escapes and no other.
pub fn text_at(c: Cursor<'_>) -> Option<usize>
    ensures { NameAt c.entry.bytes.now c.entry.at result }
{
    let mut i = c.at;
    // A `while`, since a character has one byte or two: how far a step goes shows itself in it.
    while !separates(c.bytes[i]) {
        let n = char_len(Cursor {
            bytes: c.bytes,
            at: i,
        })?;
        i += n;
    }
    Some(i)
}

// A dash, or an equals sign and a name: where the name begins.
pub fn alias_at(c: Cursor<'_>) -> Option<Piece<Option<usize>>>
    ensures { AliasReadAt c.entry.bytes.now c.entry.at result }
{
    match c.bytes[c.at] {
        b'-' => {
            let end = dash_end(c)?;
            Some(Piece { value: None, end })
        }
        b'=' => {
            let at = c.at + 1;
            let end = text_at(Cursor { bytes: c.bytes, at })?;
            Some(Piece {
                value: Some(at),
                end,
            })
        }
        _ => None,
    }
}
