// The two words of a field of one piece, which begins at a place of a line.
ghost use Rattle.std.specs.Prelude.{◌≡◌, [], ◌∷◌, ◌+◌, ◌/◌, ◌%◌, ◌<◌, Some};
ghost use Rattle.std.specs.Fn.{FnReturnsAt};
ghost use Rattle.model.specs.Text.{Bytes};
ghost use Rattle.model.specs.Field.{Form};
ghost use Rattle.words.specs.Words.{two32};
ghost use Rattle.line.specs.FieldRead.{WordsOf, WordsAt, Own, words_value};

use crate::place::Place;
use record::cursor::Cursor;
use record::hex::hex;
use record::int::signed;
use record::name::{alias_at, text_at};
use record::number::{decimal_at, decimal_or_absent_at};
use record::piece::{Piece, piece_end};

// A field's two words.
#[derive(Clone, Copy)]
pub struct Words {
    pub first: u32,
    pub second: u32,
}

// The words of a field that is absent.
const ABSENT: Words = Words {
    first: 0,
    second: 0,
};

// A number of at most `limit`.
pub fn number(c: Cursor<'_>, limit: u32) -> Option<Piece<Words>>
    ensures { WordsAt (Form.num limit) c.entry.bytes.now c.entry.at result }
{
    let n = decimal_at(c, limit)?;
    let value = Words {
        first: n.value,
        second: 0,
    };
    Some(Piece { value, end: n.end })
}

// A variable's id, or a dash.
pub fn variable(c: Cursor<'_>) -> Option<Piece<Words>>
    ensures { WordsAt Form.var_or_absent c.entry.bytes.now c.entry.at result }
{
    let id = decimal_or_absent_at(c, u32::MAX)?;
    let end = id.end;
    match id.value {
        Some(n) => {
            let value = Words {
                first: 1,
                second: n,
            };
            Some(Piece { value, end })
        }
        None => Some(Piece { value: ABSENT, end }),
    }
}

// A number of 64 bits in two halves, and a number added to the high one. By `%` and `/`, since a cast has to keep its value: `n as u32` for the low half is refused.
fn halves(n: u64, top: u32) -> Words
    requires { n / two32 + top < two32 }
    ensures { result ≡ record { first = n % two32; second = n / two32 + top } }
{
    let low = n % words::TWO_32;
    let high = n / words::TWO_32;
    Words {
        first: low as u32,
        second: high as u32 + top,
    }
}

// The bits of a float, from its piece.
fn float_words(s: &[u8]) -> Option<Words>
    ensures { (sheet : Bytes) → WordsOf Form.float sheet (s.now ∷ []) result }
{
    let n = hex(s)?;
    Some(halves(n, 0))
}

// A signed number's words: those of its size, or of one less with the top bit for a negative one.
fn signed_words(v: i64) -> Words
    ensures { (sheet : Bytes) → words_value Form.int sheet (Some result) ≡ Some v }
{
    if v < 0 {
        return halves(v.unsigned_abs() - 1, words::TOP_BIT);
    }
    halves(v.unsigned_abs(), 0)
}

// A signed number, from its piece.
fn int_words(s: &[u8]) -> Option<Words>
    ensures { (sheet : Bytes) → WordsOf Form.int sheet (s.now ∷ []) result }
{
    let v = signed(s)?;
    Some(signed_words(v))
}

// A field whose piece is read on its own.
fn own<F: Fn(&[u8]) -> Option<Words>>(c: Cursor<'_>, read: F) -> Option<Piece<Words>>
    requires { F.IsAlwaysCallable read }
    ensures { Own c.entry.bytes.now c.entry.at (λ s w. FnReturnsAt F.Fn read s w) result }
{
    let end = piece_end(c);
    let value = read(&c.bytes[c.at..end])?;
    Some(Piece { value, end })
}

// A signed number.
pub fn int(c: Cursor<'_>) -> Option<Piece<Words>>
    ensures { WordsAt Form.int c.entry.bytes.now c.entry.at result }
{
    own(c, int_words)
}

// The bits of a float.
pub fn float(c: Cursor<'_>) -> Option<Piece<Words>>
    ensures { WordsAt Form.float c.entry.bytes.now c.entry.at result }
{
    own(c, float_words)
}

// A name, held as its place.
pub fn text(p: Place<'_>) -> Option<Piece<Words>>
    ensures { WordsAt Form.text p.entry.cursor.bytes.now p.entry.cursor.at result }
{
    let at = p.cursor.at;
    let end = text_at(p.cursor)?;
    let value = Words {
        first: at as u32,
        second: end as u32,
    };
    Some(Piece { value, end })
}

// A dash, or an equals sign and a name.
pub fn alias(p: Place<'_>) -> Option<Piece<Words>>
    ensures { WordsAt Form.alias p.entry.cursor.bytes.now p.entry.cursor.at result }
{
    let name = alias_at(p.cursor)?;
    let end = name.end;
    match name.value {
        None => Some(Piece { value: ABSENT, end }),
        Some(at) => {
            let value = Words {
                first: at as u32,
                second: end as u32,
            };
            Some(Piece { value, end })
        }
    }
}
