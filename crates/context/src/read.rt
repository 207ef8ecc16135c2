// The notes and the named variables, as the writer reads them.
ghost use Rattle.std.specs.Prelude.{◌≡◌, ◌∷◌, suc, ◌<◌, ◌≤◌, length, drop};
ghost use Rattle.model.specs.Call.{work_words};
ghost use Rattle.context.specs.Tables.{vars_of, vars_at, max_vars, second_pass, max_stored};
ghost use Rattle.context.specs.Read.{note_of};

use crate::{NAMED_WORDS, NUMBER_WORD, VARS_AT};

// A named variable, and its number.
#[derive(Clone, Copy, Debug, PartialEq, Eq)]
pub struct Named {
    pub id: u32,
    pub number: u32,
}

// What is noted at record i, in the pass whose notes begin at base.
pub fn note_of(rest: &[u32], base: usize, i: usize) -> u32
    requires { (base ≤ second_pass) × (i ≤ max_stored) × (work_words ≤ length rest.now) }
    ensures { result ≡ note_of rest.now base i }
{
    rest[base + i + 1]
}

// Named variable k: the newest of the first k + 1.
pub fn variable(rest: &[u32], k: usize) -> Named
    requires { (k < max_vars) × (work_words ≤ length rest.now) }
    ensures { vars_of (suc k) (drop vars_at rest.now) ≡ (result.id, result.number) ∷ vars_of k (drop vars_at rest.now) }
{
    let at = VARS_AT + k * NAMED_WORDS;
    Named {
        id: rest[at],
        number: rest[at + NUMBER_WORD],
    }
}
