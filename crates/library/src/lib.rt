// The calls as numbers and slices, with the answer as six words: `library_c` exports them to programs in other languages. They answer a bool, which C is handed; each tests the answer's room itself, since that has to come before its call.
#![tactic(auto)]

ghost use Rattle.std.specs.Prelude.{◌≡◌, ◌≤◌, ◌++◌, length};
ghost use Rattle.model.specs.Call.{SizeCall, lower_call};
ghost use Rattle.model.specs.Pair.{pair_call};
ghost use Rattle.statement.specs.Work.{lengths, Kept};
ghost use Rattle.values.specs.Told.{told};
ghost use Rattle.library.specs.Told.{answer_words, noted, Told, Lowers};

use statement::lowering::lower_statement;
use statement::{Work, size_statement};
use union_pair::lower_union_pair;
use values::{VALUES, Values};

// An answer has so many words.
const ANSWER_WORDS: usize = VALUES;

// The six words of an answer, at the start of a slice.
fn put_answer(answer: &mut [usize], v: Values)
    requires { answer_words ≤ length answer.old }
    ensures { answer.new ≡ noted (told v) answer.old }
{
    answer[..ANSWER_WORDS].copy_from_slice(&v.words());
}

// The sizing call. False, with nothing written, if the answer has no room for six words.
pub fn dresserhawk_size(sheet: &[u8], work: &mut Work<'_>, answer: &mut [usize]) -> bool
    ensures answer_after { Told (SizeCall (lengths work.old) sheet.now) answer.old answer.new result }
    ensures kept { Kept work.old work.new }
{
    if answer.len() < ANSWER_WORDS {
        return false;
    }
    put_answer(answer, Values::from(size_statement(sheet, work)));
    true
}

// The lowering call, with the plan in its slice. False, with nothing written, if the answer has no room for six words.
pub fn dresserhawk_lower(
    sheet: &[u8],
    work: &mut Work<'_>,
    plan: &mut [u8],
    answer: &mut [usize],
) -> bool
    ensures answer_after { Lowers (lower_call (lengths work.old) sheet.now plan.old) plan.old plan.new answer.old answer.new result }
    ensures kept { Kept work.old work.new }
{
    if answer.len() < ANSWER_WORDS {
        return false;
    }
    put_answer(answer, Values::from(lower_statement(sheet, work, plan)));
    true
}

// The lowering call with two sheets, with the plan in its slice. False, with nothing written, if the answer has no room for six words.
pub fn dresserhawk_lower_pair(
    left: &[u8],
    right: &[u8],
    all: bool,
    l: &mut Work<'_>,
    r: &mut Work<'_>,
    plan: &mut [u8],
    answer: &mut [usize],
) -> bool
    ensures answer_after { Lowers (pair_call (lengths l.old ++ lengths r.old) left.now right.now all plan.old) plan.old plan.new answer.old answer.new result }
    ensures left_kept { Kept l.old l.new }
    ensures right_kept { Kept r.old r.new }
{
    if answer.len() < ANSWER_WORDS {
        return false;
    }
    put_answer(
        answer,
        Values::from(lower_union_pair(left, right, all, l, r, plan)),
    );
    true
}
