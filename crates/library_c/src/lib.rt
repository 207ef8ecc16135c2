// The calls of `library` as C names them: the archive for programs in other languages. A slice is passed as a pointer and a length.
#![tactic(auto)]

ghost use Rattle.std.specs.Prelude.{◌≡◌, [], ◌∷◌, length};
ghost use Rattle.model.specs.Call.{SizeCall, lower_call};
ghost use Rattle.model.specs.Pair.{pair_call};
ghost use Rattle.union_pair.specs.PairCall.{works};
ghost use Rattle.library.specs.Told.{Told, Lowers};

use statement::Work;

// The sizing call. False, with nothing written, if the answer has no room for six words.
#[unsafe(no_mangle)]
pub extern "C" fn dresserhawk_size(
    sheet: &[u8],
    a: &mut [u32],
    b: &mut [u32],
    c: &mut [u32],
    d: &mut [u32],
    answer: &mut [usize],
) -> bool
    ensures { Told (SizeCall (length a.old ∷ length b.old ∷ length c.old ∷ length d.old ∷ []) sheet.now) answer.old answer.new result }
{
    let mut work = Work { a, b, c, d };
    library::dresserhawk_size(sheet, &mut work, answer)
}

// The lowering call, with the plan in its slice. False, with nothing written, if the answer has no room for six words.
#[unsafe(no_mangle)]
pub extern "C" fn dresserhawk_lower(
    sheet: &[u8],
    a: &mut [u32],
    b: &mut [u32],
    c: &mut [u32],
    d: &mut [u32],
    plan: &mut [u8],
    answer: &mut [usize],
) -> bool
    ensures { Lowers (lower_call (length a.old ∷ length b.old ∷ length c.old ∷ length d.old ∷ []) sheet.now plan.old) plan.old plan.new answer.old answer.new result }
{
    let mut work = Work { a, b, c, d };
    library::dresserhawk_lower(sheet, &mut work, plan, answer)
}

// The lowering call with two sheets, with the plan in its slice. False, with nothing written, if the answer has no room for six words.
#[unsafe(no_mangle)]
pub extern "C" fn dresserhawk_lower_pair(
    left: &[u8],
    right: &[u8],
    all: bool,
    left_a: &mut [u32],
    left_b: &mut [u32],
    left_c: &mut [u32],
    left_d: &mut [u32],
    right_a: &mut [u32],
    right_b: &mut [u32],
    right_c: &mut [u32],
    right_d: &mut [u32],
    plan: &mut [u8],
    answer: &mut [usize],
) -> bool
    ensures { Lowers (pair_call (works left_a.old left_b.old left_c.old left_d.old right_a.old right_b.old right_c.old right_d.old) left.now right.now all plan.old) plan.old plan.new answer.old answer.new result }
{
    let mut l = Work {
        a: left_a,
        b: left_b,
        c: left_c,
        d: left_d,
    };
    let mut r = Work {
        a: right_a,
        b: right_b,
        c: right_c,
        d: right_d,
    };
    library::dresserhawk_lower_pair(left, right, all, &mut l, &mut r, plan, answer)
}
