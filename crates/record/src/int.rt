// Signed numbers of a sheet.
ghost use Rattle.std.specs.Prelude.{◌≡◌, [], ◌∷◌};
ghost use Rattle.model.specs.Text.{minus};
ghost use Rattle.model.specs.Field.{read, Form};

use crate::number::decimal;

// What follows a minus sign; zero has none.
fn minus(s: &[u8]) -> Option<i64>
    ensures { result ≡ read Form.int ((minus ∷ s.now) ∷ []) }
{
    let n = decimal(s, u64::MAX)?;
    if n == 0 {
        return None;
    }
    0i64.checked_sub_unsigned(n)
}

// A signed number of 64 bits.
pub fn signed(s: &[u8]) -> Option<i64>
    ensures { result ≡ read Form.int (s.now ∷ []) }
{
    match s {
        [] => None,
        [b'-', rest @ ..] => minus(rest),
        _ => {
            let n = decimal(s, u64::MAX)?;
            i64::try_from(n).ok()
        }
    }
}
