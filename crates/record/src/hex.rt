// The bits of a float, in hexadecimal digits.
ghost use Rattle.std.specs.Prelude.{◌≡◌, [], ◌∷◌};
ghost use Rattle.model.specs.Field.{read, Form};
ghost use Rattle.record.specs.Hex.{digit as digit_of};

// A float has so many digits.
const HEX_DIGITS: usize = 16;

// A digit stands for so many times the one behind it.
const HEX_BASE: u64 = 16;

// A letter's byte is so far above its value.
const LETTER_BASE: u8 = 87;

// The value of a lower-case digit.
fn digit(b: u8) -> Option<u64>
    ensures { result ≡ digit_of b }
{
    match b {
        b'0'..=b'9' => Some(u64::from(b - b'0')),
        b'a'..=b'f' => Some(u64::from(b - LETTER_BASE)),
        _ => None,
    }
}

// Sixteen lower-case hexadecimal digits.
pub fn hex(s: &[u8]) -> Option<u64>
    ensures { result ≡ read Form.float (s.now ∷ []) }
{
    if s.len() != HEX_DIGITS {
        return None;
    }
    let mut v: u64 = 0;
    for b in s {
        let d = digit(*b)?;
        v = v * HEX_BASE + d;
    }
    Some(v)
}
