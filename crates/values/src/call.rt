// The lowering call with its answer as values, whose length lies within the plan slice.
ghost use Rattle.std.specs.Prelude.{◌≡◌, ◌≤◌, length};
ghost use Rattle.model.specs.Call.{lower_call};
ghost use Rattle.statement.specs.Work.{lengths, Kept};
ghost use Rattle.values.specs.Told.{told};

use crate::Values;
use statement::Work;
use statement::lowering::lower_statement;

pub fn lower(sheet: &[u8], work: &mut Work<'_>, plan: &mut [u8]) -> Values
    ensures plan_after { record { answer = told result; slice = plan.new } ≡ lower_call (lengths work.old) sheet.now plan.old }
    ensures length_in_bounds { result.length ≤ length plan.new }
    ensures kept { Kept work.old work.new }
{
    Values::from(lower_statement(sheet, work, plan))
}
