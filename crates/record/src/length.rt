// The length of a pattern's relationship: one hop, or a range of hops.
ghost use Rattle.std.specs.Prelude.{◌≡◌, [], ◌∷◌};
ghost use Rattle.model.specs.Field.{read, u64, Form};
ghost use Rattle.record.specs.Answer.{is_read};

use crate::number::{decimal_or_absent, is_dash};

// A bound of the range, or a dash.
fn bound(s: &[u8]) -> bool
    ensures { result ≡ is_read (read (Form.num_or_absent u64) (s.now ∷ [])) }
{
    decimal_or_absent(s, u64::MAX).is_some()
}

// `one` with two dashes, or `var` with two bounds.
pub fn length(a: &[u8], b: &[u8], c: &[u8]) -> bool
    ensures { result ≡ is_read (read Form.length (a.now ∷ b.now ∷ c.now ∷ [])) }
{
    if a == b"one".as_slice() {
        return is_dash(b) && is_dash(c);
    }
    if a == b"var".as_slice() {
        return bound(b) && bound(c);
    }
    false
}
