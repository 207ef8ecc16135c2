// Expressions, elements of patterns and operators, with the operators that they copy.
ghost use Rattle.std.specs.Prelude.{◌≡◌, ◌+◌, length};
ghost use Rattle.plan_sheet.specs.Asked.{ExprAsked, ExprWrote, ExprsAsked, ExprsWrote, ElementAsked, ElementWrote, PartAsked, PartWrote, PartsAsked, PartsWrote, ItemsAsked, ItemsWrote, PlanIn, OpWrote};

use crate::behind::{at_record, exprs_of, items_of, put_tail};
use crate::measure::{expr_bytes, measure_before};
use crate::source::Source;
use aggregate::is_aggregate;
use context::op;
use context::read::note_of;
use output::Page;
use words::{Record, field, kind};

// What is at record i: its tree is at most `left` deep, the notes of its pass begin at `base`, and it copies operators below `below`.
// The three of `context::At` and one more, and no struct that holds it: then each step to another record would write one struct inside another, `At { place: context::At { i, ..at.place }, ..at }`, and each read go through both.
#[derive(Clone, Copy)]
pub struct At {
    pub base: usize,
    pub i: usize,
    pub left: usize,
    pub below: usize,
}

// The same of n things one behind another, the first of them there.
#[derive(Clone, Copy)]
pub struct Run {
    pub at: At,
    pub n: usize,
}

// The expression at a record, behind its line if it has one.
#[cycle(writer)]
fn write_expr(page: &mut Page<'_>, s: &Source<'_>, at: At) -> usize
    requires { ExprAsked s.now at }
    ensures { ExprWrote s.now at page.old result page.new }
{
    let line = Record {
        records: &s.records,
        i: at.i,
    };
    let i = crate::head::put_before(page, s.sheet, line);
    let r = Record {
        records: &s.records,
        i,
    };
    let kind = r.kind();
    let n = note_of(s.rest, at.base, i);
    crate::head::put_expr(page, s.sheet, r, n);
    if kind::is_leaf(kind) {
        return i + 1;
    }
    if kind == kind::PAT {
        write_op(page, s, n as usize);
        let behind = s.records.skip(i);
        return behind;
    }
    let first = i + 1;
    let left = at.left - 1;
    let run = Run {
        at: At {
            i: first,
            left,
            ..at
        },
        n: r.children(),
    };
    write_exprs(page, s, run)
}

// Expressions, each behind its line if it has one.
#[cycle(writer)]
fn write_exprs(page: &mut Page<'_>, s: &Source<'_>, run: Run) -> usize
    requires { ExprsAsked s.now run }
    ensures { ExprsWrote s.now run page.old result page.new }
{
    let mut i = run.at.i;
    for _ in 0..run.n {
        i = write_expr(page, s, At { i, ..run.at });
    }
    i
}

// Expressions, each behind its line if it has one, on an empty part of the slice: counted from record to record, what is below one before those behind it.
// Apart from `write_exprs`, which calls itself for what is below one, since a call for each costs 48 instructions a record more. `due` grows, so that no `for` fits.
#[cycle(writer)]
fn measure_exprs(page: &mut Page<'_>, s: &Source<'_>, run: Run) -> usize
    requires bytes_len { length page.old.bytes.now ≡ 0 }
    requires exprs_asked { ExprsAsked s.now run }
    ensures { ExprsWrote s.now run page.old result page.new }
{
    let mut i = run.at.i;
    let mut due = run.n;
    while due != 0 {
        let line = Record {
            records: &s.records,
            i,
        };
        let at = measure_before(page, s.sheet, line);
        let r = Record {
            records: &s.records,
            i: at,
        };
        let kind = r.kind();
        let n = note_of(s.rest, run.at.base, at);
        page.measure(expr_bytes(r, n));
        if kind == kind::PAT {
            write_op(page, s, n as usize);
            i = s.records.skip(at);
            due -= 1;
        } else {
            let below = r.children();
            due = due - 1 + below;
            i = at + 1;
        }
    }
    i
}

// Expressions, each behind its line if it has one: written, or on an empty part of the slice only counted. Which of the two is asked of the slice and of no flag beside it, which would say again whether it is empty; either puts the same text.
#[cycle(writer)]
fn put_exprs(page: &mut Page<'_>, s: &Source<'_>, run: Run) -> usize
    requires { ExprsAsked s.now run }
    ensures { ExprsWrote s.now run page.old result page.new }
{
    if run.n == 0 {
        return run.at.i;
    }
    if page.bytes.len() == 0 {
        return measure_exprs(page, s, run);
    }
    write_exprs(page, s, run)
}

// The element of a pattern at a record: its line, its names and its props.
#[cycle(writer)]
fn write_element(page: &mut Page<'_>, s: &Source<'_>, at: At)
    requires { ElementAsked s.now at }
    ensures { ElementWrote s.now at page.old page.new }
{
    let r = Record {
        records: &s.records,
        i: at.i,
    };
    let below = r.below();
    crate::names::put_element(page, s.sheet, r);
    let first = crate::names::put_names(page, s.sheet, &s.records, at.i + 1, below.names);
    let left = at.left - 1;
    let run = Run {
        at: At {
            i: first,
            left,
            ..at
        },
        n: below.props,
    };
    put_exprs(page, s, run);
}

// An item's expression, if it is of the part of the items that is asked for, the aggregates or else the keys. Of an aggregate the arguments alone are expressions.
#[cycle(writer)]
fn write_part(page: &mut Page<'_>, s: &Source<'_>, at: At, aggregates: bool) -> usize
    requires { PartAsked s.now at }
    ensures { PartWrote s.now at aggregates page.old result page.new }
{
    let i = at.i;
    let r = Record {
        records: &s.records,
        i,
    };
    let is = is_aggregate(s.sheet, r);
    if is != aggregates {
        return s.records.skip(i);
    }
    if is {
        crate::item::put_agg(page, s.sheet, r);
        let first = i + 1;
        let left = at.left - 1;
        let args = Run {
            at: At {
                i: first,
                left,
                ..at
            },
            n: r.count(field::FN_ARGS),
        };
        return put_exprs(page, s, args);
    }
    write_expr(page, s, at)
}

// The keys or the aggregates among items.
#[cycle(writer)]
fn write_parts(page: &mut Page<'_>, s: &Source<'_>, run: Run, aggregates: bool)
    requires { PartsAsked s.now run }
    ensures { PartsWrote s.now run aggregates page.old page.new }
{
    let mut i = run.at.i;
    for _ in 0..run.n {
        let expr = i + 1;
        i = write_part(page, s, At { i: expr, ..run.at }, aggregates);
    }
}

// The items of a `return` that aggregates: all keys, and behind them all aggregates.
#[cycle(writer)]
fn write_items(page: &mut Page<'_>, s: &Source<'_>, run: Run)
    requires { ItemsAsked s.now run }
    ensures { ItemsWrote s.now run page.old page.new }
{
    write_parts(page, s, run, false);
    write_parts(page, s, run, true);
}

// Operator k.
#[cycle(writer)]
pub fn write_op(page: &mut Page<'_>, s: &Source<'_>, k: usize)
    requires { PlanIn s.now k (k + 1) }
    ensures { OpWrote s.now k page.old page.new }
{
    let w = op::read_op(s.ops, k);
    crate::op::put_op(page, s.sheet, &s.records, s.rest, w);
    let r = Record {
        records: &s.records,
        i: w.idx as usize,
    };
    let kind = w.kind;
    match kind {
        op::EXPAND => {
            let rel = at_record(w, w.idx as usize, k);
            write_element(page, s, rel);
            let far = at_record(w, w.y as usize, k);
            write_element(page, s, far);
        }
        op::SHORTEST_PATH => {
            let rel = at_record(w, w.x as usize, k);
            write_element(page, s, rel);
        }
        op::OPTIONAL_JOIN => write_op(page, s, w.x as usize),
        op::AGGREGATE => {
            let items = items_of(r, w, k);
            write_items(page, s, items);
        }
        _ => {
            let run = exprs_of(r, w, k);
            let next = put_exprs(page, s, run);
            put_tail(page, s.sheet, &s.records, s.rest, w, next);
        }
    }
}
