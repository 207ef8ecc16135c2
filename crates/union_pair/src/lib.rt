// The lowering call with two sheets: both are read and checked, each test on both before the next, then lowered into one plan, which is written if it fits.
#![tactic(auto)]

ghost use Rattle.std.specs.Prelude.{◌≡◌, ◌≤◌, ◌++◌, length};
ghost use Rattle.model.specs.Side.{whole_call};
ghost use Rattle.model.specs.Call.{test_plan as tests_plan, max_bytes, work_words};
ghost use Rattle.model.specs.Pair.{on_side, pair_call};
ghost use Rattle.words.specs.Lent.{SameSlices};
ghost use Rattle.lower.specs.Rep.{State};
ghost use Rattle.plan_writer.specs.Pair.{tables_in};
ghost use Rattle.statement.specs.Work.{lengths, Kept};
ghost use Rattle.union_pair.specs.PairAnswer.{pair_answer_of};
ghost use Rattle.union_pair.specs.PairCall.{PairGives, LoweredBoth, Stand, behind_bytes};

use clauses::pair::{Side as OneSide, Sides, lower_union_pair as lower_both};
use context::Tables;
use plan_sheet::source::Source;
use plan_writer::pair::{Counts, write_pair};
use sides::{SideFault, each, test_sides};
use statement::lowering::test_plan;
use statement::{Refusal, Work, test_bytes};
use words::RecordsMut;

// How the call refuses two sheets: what is wrong with a sheet comes with its side.
pub type PairRefusal = Refusal<SideFault>;

// Test 9, and then the plan of both tables.
fn write_lowered<'a>(
    left: &Source<'a>,
    right: &Source<'a>,
    sides: Sides,
    plan: &mut [u8],
) -> Result<usize, PairRefusal>
    requires { LoweredBoth (tables_in left.now) (tables_in right.now) sides }
    ensures { (s : State) → Stand (tables_in left.now) (tables_in right.now) sides s → PairGives plan.old plan.new result (on_side whole_call (tests_plan s)) }
{
    let ctx = sides.ctx;
    test_plan::<SideFault>(ctx)?;
    let n = Counts {
        first: sides.first,
        ops: ctx.ops,
        mapped: ctx.mapped,
    };
    write_pair(plan, left, right, n).ok_or(Refusal::NoRoom)
}

// Tests 3 to 10, with sheets that are not too long and work slices that are long enough. The slices of the lowering come one by one, since the first of each side is the reader's stack before; tried as in crate statement (lowering.rt).
fn lower_tested(
    left: &[u8],
    right: &[u8],
    all: bool,
    l: &mut RecordsMut<'_>,
    left_ops: &mut [u32],
    left_rest: &mut [u32],
    r: &mut RecordsMut<'_>,
    right_ops: &mut [u32],
    right_rest: &mut [u32],
    plan: &mut [u8],
) -> Result<usize, PairRefusal>
    requires short { (length left.now ≤ max_bytes) × (length right.now ≤ max_bytes) }
    requires left_long { (work_words ≤ length left_ops.old) × (work_words ≤ length left_rest.old) }
    requires right_long { (work_words ≤ length right_ops.old) × (work_words ≤ length right_rest.old) }
    ensures same { SameSlices l.old l.new × SameSlices r.old r.new }
    ensures gives { PairGives plan.old plan.new result (behind_bytes left.now right.now all) }
{
    test_sides(left, l, left_ops, right, r, right_ops)?;
    let left_words = l.shared();
    let right_words = r.shared();
    let left_tables = Tables {
        ops: left_ops,
        rest: left_rest,
    };
    let right_tables = Tables {
        ops: right_ops,
        rest: right_rest,
    };
    let mut on_left = OneSide {
        sheet: left,
        records: left_words,
        tables: left_tables,
    };
    let mut on_right = OneSide {
        sheet: right,
        records: right_words,
        tables: right_tables,
    };
    let sides = lower_both(&mut on_left, &mut on_right, all);
    let OneSide { tables, .. } = on_left;
    let Tables { ops, rest, .. } = tables;
    let from_left = Source {
        sheet: left,
        records: left_words,
        ops,
        rest,
    };
    let OneSide { tables, .. } = on_right;
    let Tables { ops, rest, .. } = tables;
    let from_right = Source {
        sheet: right,
        records: right_words,
        ops,
        rest,
    };
    write_lowered(&from_left, &from_right, sides, plan)
}

// The lowering call with two sheets: number, place, side, length and plan slice are those of the definition, for all arguments.
pub fn lower_union_pair(
    left: &[u8],
    right: &[u8],
    all: bool,
    l: &mut Work<'_>,
    r: &mut Work<'_>,
    plan: &mut [u8],
) -> Result<usize, PairRefusal>
    ensures plan_after { record { answer = pair_answer_of result; slice = plan.new } ≡ pair_call (lengths l.old ++ lengths r.old) left.now right.now all plan.old }
    ensures left_kept { Kept l.old l.new }
    ensures right_kept { Kept r.old r.new }
{
    if !l.long_enough() {
        return Err(Refusal::ShortWork);
    }
    if !r.long_enough() {
        return Err(Refusal::ShortWork);
    }
    each(test_bytes(left), test_bytes(right))?;
    lower_tested(
        left,
        right,
        all,
        &mut RecordsMut { a: l.a, b: l.b },
        l.c,
        l.d,
        &mut RecordsMut { a: r.a, b: r.b },
        r.c,
        r.d,
        plan,
    )
}
