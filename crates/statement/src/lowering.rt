// The lowering call: the sheet is read, checked and lowered, and its plan written if it fits.
ghost use Rattle.std.specs.Prelude.{◌≡◌, ◌≤◌, length};
ghost use Rattle.std.specs.Result.{IfOk};
ghost use Rattle.model.specs.Lower.{LowerCtx as State};
ghost use Rattle.model.specs.Call.{test_plan as tests_plan, work_words, lower_call};
ghost use Rattle.words.specs.Lent.{SameSlices};
ghost use Rattle.lower.specs.Side.{side};
ghost use Rattle.lower.specs.Rep.{mem, Rep, Written};
ghost use Rattle.statement.specs.Work.{lengths, Kept};
ghost use Rattle.statement.specs.Answer.{answer_of};
ghost use Rattle.statement.specs.Lowering.{Gives, behind_work};
ghost use Rattle.statement.specs.PlanTest.{full_of};
ghost use Rattle.statement.specs.Tables.{Lowered};

use crate::{Fault, Refusal, Work, test_sheet};
use context::{LowerCtx, Tables};
use plan_sheet::source::Source;
use plan_writer::write_plan;
use words::RecordsMut;

// A plan has at most so many operators.
pub const MAX_OPERATORS: usize = 2048;
// And as many variable numbers.
pub const MAX_NUMBERS: u32 = 2048;

// Test 9, of one sheet or of two.
pub fn test_plan<F>(ctx: LowerCtx) -> Result<(), Refusal<F>>
    ensures { result ≡ full_of ctx.ops ctx.numbers }
{
    if MAX_OPERATORS < ctx.ops || MAX_NUMBERS < ctx.numbers {
        return Err(Refusal::PlanFull);
    }
    Ok(())
}

// Test 9, and then the plan of the tables. The call with two sheets has these two lines too, over the writer of two tables.
fn write_lowered(s: &Source<'_>, ctx: LowerCtx, plan: &mut [u8]) -> Result<usize, Refusal<Fault>>
    requires { Lowered s.now.sheet.now s.now.records.a.now s.now.records.b.now (mem ctx s.now.ops.now s.now.rest.now) }
    ensures { (W : Written) (t : State) → Rep (side s.now.sheet.now s.now.records.a.now s.now.records.b.now 0) W t (mem ctx s.now.ops.now s.now.rest.now) → Gives plan.old plan.new result (tests_plan t) }
{
    test_plan::<Fault>(ctx)?;
    write_plan(plan, s, ctx.ops, ctx.mapped).ok_or(Refusal::NoRoom)
}

// Tests 2 to 10. The slices of the lowering come one by one, since the first is the reader's stack before; tried: the `Work` taken apart here, or by four loans, or by value, the pairs by value, and a pair made in place beside the other; the borrow checker covers none of the five, since a slice behind one reference stays lent while another is used.
fn lower_read(
    sheet: &[u8],
    records: &mut RecordsMut<'_>,
    ops: &mut [u32],
    rest: &mut [u32],
    plan: &mut [u8],
) -> Result<usize, Refusal<Fault>>
    requires { (work_words ≤ length ops.old) × (work_words ≤ length rest.old) }
    ensures same { SameSlices records.old records.new }
    ensures gives { Gives plan.old plan.new result (behind_work sheet.now) }
{
    test_sheet(sheet, records, ops)?;
    let records = records.shared();
    let mut tables = Tables { ops, rest };
    let ctx = clauses::lower(sheet, &records, &mut tables);
    let Tables { ops, rest, .. } = tables;
    let source = Source {
        sheet,
        records,
        ops,
        rest,
    };
    write_lowered(&source, ctx, plan)
}

// The lowering call: number, place, length and plan slice are those of the definition, for all arguments.
pub fn lower_statement(
    sheet: &[u8],
    work: &mut Work<'_>,
    plan: &mut [u8],
) -> Result<usize, Refusal<Fault>>
    ensures plan_after { record { answer = answer_of result; slice = plan.new } ≡ lower_call (lengths work.old) sheet.now plan.old }
    ensures length_in_bounds { IfOk result (λ n. n ≤ length plan.new) }
    ensures kept { Kept work.old work.new }
{
    if !work.long_enough() {
        return Err(Refusal::ShortWork);
    }
    lower_read(
        sheet,
        &mut RecordsMut {
            a: work.a,
            b: work.b,
        },
        work.c,
        work.d,
        plan,
    )
}
