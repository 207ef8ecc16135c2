// The whole plan sheet: measured first, and written only if it fits.
#![tactic(auto)]

ghost use Rattle.std.specs.Prelude.{◌≤◌};
ghost use Rattle.context.specs.Tables.{max_vars};
ghost use Rattle.plan_sheet.specs.Asked.{PlanIn};
ghost use Rattle.plan_writer.specs.Whole.{SomeTables, WroteOps, WroteVars, WrotePlan};

use crate::pair::{Counts, write_pair};
use output::Page;
use plan_line::keyword::Keyword;
use plan_line::row::put_row;
use plan_sheet::source::Source;

pub mod pair;

// The operators from number `first` on and below `end`.
fn write_ops(page: &mut Page<'_>, s: &Source<'_>, first: usize, end: usize)
    requires { PlanIn s.now first end }
    ensures { WroteOps s.now.sheet.now s.now.records.a.now s.now.records.b.now s.now.ops.now s.now.rest.now first end page.old page.new }
{
    for k in first..end {
        plan_sheet::write::write_op(page, s, k);
    }
}

// The first n named variables.
fn write_vars(page: &mut Page<'_>, s: &Source<'_>, n: usize)
    requires { n ≤ max_vars }
    ensures { WroteVars s.now.rest.now n page.old page.new }
{
    for k in 0..n {
        let v = context::read::variable(s.rest, k);
        put_row(page, Keyword::Variable, [v.number, v.id]);
    }
}

// The plan sheet of the tables of one sheet: no operator of it stands in a table to the left.
pub fn write_plan(bytes: &mut [u8], s: &Source<'_>, n: usize, mapped: usize) -> Option<usize>
    requires { SomeTables s.now.sheet.now s.now.records.a.now s.now.records.b.now s.now.ops.now s.now.rest.now n mapped }
    ensures { WrotePlan s.now.sheet.now s.now.records.a.now s.now.records.b.now s.now.ops.now s.now.rest.now n mapped bytes.old bytes.new result }
{
    let all = Counts {
        first: 0,
        ops: n,
        mapped,
    };
    write_pair(bytes, s, s, all)
}
