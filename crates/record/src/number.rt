// Numbers of a sheet.
ghost use Rattle.std.specs.Prelude.{◌≡◌, [], ◌∷◌, ◌≤◌};
ghost use Rattle.model.specs.Field.{read, Form};
ghost use Rattle.model.specs.Text.{same, dash};
ghost use Rattle.record.specs.Number.{digit_value, digits_on};
ghost use Rattle.record.specs.InPlace.{DigitsAt, NumberAt, OptNumberAt};

use crate::cursor::Cursor;
use crate::piece::{Piece, dash_end, separates};

// The value of a digit. Apart from that of a float (hex.rt), which has letters, other definitions for its digits and no limit.
fn digit(b: u8) -> Option<u64>
    ensures { result ≡ digit_value b }
{
    match b {
        b'0'..=b'9' => Some(u64::from(b - b'0')),
        _ => None,
    }
}

// The value of a run of digits, at most `limit`.
fn gather(s: &[u8], limit: u64) -> Option<u64>
    ensures { result ≡ digits_on limit 0 s.now }
{
    let mut v: u64 = 0;
    for b in s {
        let d = digit(*b)?;
        let tens = v.checked_mul(10)?;
        v = tens.checked_add(d)?;
        if limit < v {
            return None;
        }
    }
    Some(v)
}

// A decimal number with no spare zero, at most `limit`.
pub fn decimal(s: &[u8], limit: u64) -> Option<u64>
    ensures { result ≡ read (Form.num limit) (s.now ∷ []) }
{
    match s {
        [] => None,
        [_] => gather(s, limit),
        [b'0', ..] => None,
        _ => gather(s, limit),
    }
}

// The dash, for what is absent.
pub fn is_dash(s: &[u8]) -> bool
    ensures { result ≡ same s.now dash }
{
    s == b"-".as_slice()
}

// A decimal number as above, or a dash.
pub fn decimal_or_absent(s: &[u8], limit: u64) -> Option<Option<u64>>
    ensures { result ≡ read (Form.num_or_absent limit) (s.now ∷ []) }
{
    if is_dash(s) {
        return Some(None);
    }
    let n = decimal(s, limit)?;
    Some(Some(n))
}

// The digits from here on that follow the number `first`, up to the end of their piece. The number with them is at most `limit`, which is small enough that one digit more does not overflow.
fn gather_at(c: Cursor<'_>, first: u32, limit: u32) -> Option<Piece<u32>>
    requires { first ≤ limit }
    ensures { DigitsAt limit first c.entry.bytes.now c.entry.at result }
{
    let most = u64::from(limit);
    let mut v = u64::from(first);
    for (k, b) in c.bytes[c.at..].iter().enumerate() {
        let Some(d) = digit(*b) else {
            if separates(*b) {
                let end = c.at + k;
                return Some(Piece {
                    value: v as u32,
                    end,
                });
            }
            return None;
        };
        v = v * 10 + d;
        if most < v {
            return None;
        }
    }
    // never, since a line has its line feed
    None
}

// The decimal number here, with no spare zero and at most `limit`. Apart from `decimal`, which knows where its piece ends: by `piece_end` and then `decimal` it proves too, and costs 14 instructions a record more, 1.9 in a hundred of a lowering, since each digit is gone over twice and tested against a multiplication that does not fit.
pub fn decimal_at(c: Cursor<'_>, limit: u32) -> Option<Piece<u32>>
    ensures { NumberAt limit c.entry.bytes.now c.entry.at result }
{
    let d = digit(c.bytes[c.at])? as u32;
    let behind = c.at + 1;
    if d == 0 {
        if separates(c.bytes[behind]) {
            return Some(Piece {
                value: 0,
                end: behind,
            });
        }
        return None;
    }
    if limit < d {
        return None;
    }
    gather_at(
        Cursor {
            bytes: c.bytes,
            at: behind,
        },
        d,
        limit,
    )
}

// The decimal number here as above, or a dash. Apart from `decimal_or_absent` as `decimal_at` is from `decimal`.
pub fn decimal_or_absent_at(c: Cursor<'_>, limit: u32) -> Option<Piece<Option<u32>>>
    ensures { OptNumberAt limit c.entry.bytes.now c.entry.at result }
{
    if c.bytes[c.at] == b'-' {
        let end = dash_end(c)?;
        return Some(Piece { value: None, end });
    }
    let n = decimal_at(c, limit)?;
    Some(Piece {
        value: Some(n.value),
        end: n.end,
    })
}
