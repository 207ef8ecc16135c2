// The plan sheet of two sheets, each with tables of its own: measured first, and written only if it fits.
// Counts go out as u32 by `as`: the tables hold fewer, so that nothing is lost, and `try_from` would make an error that never comes.
ghost use Rattle.plan_writer.specs.Pair.{tables_in, PairAsked, WrotePairSheet, WrotePair};

use crate::{write_ops, write_vars};
use output::Page;
use plan_line::keyword::Keyword;
use plan_line::row::put_row;
use plan_sheet::source::Source;

// How many operators a plan has, the number of the first that is in the right's table, and how many named variables there are.
#[derive(Clone, Copy)]
pub struct Counts {
    pub first: usize,
    pub ops: usize,
    pub mapped: usize,
}

// The first line, the operators of the left's table and then of the right's, and the right's named variables.
fn write_sheet(page: &mut Page<'_>, left: &Source<'_>, right: &Source<'_>, n: Counts)
    requires { PairAsked (tables_in left.now) (tables_in right.now) n }
    ensures { WrotePairSheet (tables_in left.now) (tables_in right.now) n page.old page.new }
{
    put_row(page, Keyword::Plan, [n.ops as u32, n.mapped as u32]);
    write_ops(page, left, 0, n.first);
    write_ops(page, right, n.first, n.ops);
    write_vars(page, right, n.mapped);
}

// The plan sheet of both tables: how many bytes it has, if it fits.
pub fn write_pair<'a>(
    bytes: &mut [u8],
    left: &Source<'a>,
    right: &Source<'a>,
    n: Counts,
) -> Option<usize>
    requires { PairAsked (tables_in left.now) (tables_in right.now) n }
    ensures { WrotePair (tables_in left.now) (tables_in right.now) n bytes.old bytes.new result }
{
    let mut measuring = Page {
        bytes: &mut bytes[0..0],
        out: 0,
    };
    write_sheet(&mut measuring, left, right, n);
    let long = measuring.out;
    if bytes.len() < long {
        return None;
    }
    let mut page = Page { bytes, out: 0 };
    write_sheet(&mut page, left, right, n);
    Some(page.out)
}
