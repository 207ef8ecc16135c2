// What stands behind the first line of an operator, but for copies: where its expressions, items and elements are, its labels, its path, its yields.
ghost use Rattle.std.specs.Prelude.{◌≡◌, ◌+◌};
ghost use Rattle.words.specs.Places.{call_yields_at};
ghost use Rattle.plan_sheet.specs.Due.{NotedAsked};
ghost use Rattle.plan_sheet.specs.Asked.{many_at, first_at, exprs_of, items_of, at_record, TailIn, TailWrote, YieldsWrote, YieldsIn, op_word};

use crate::write::{At, Run};
use context::op;
use context::op::Op;
use context::read::note_of;
use output::Page;
use plan_line::copy::text;
use plan_line::keyword::Keyword;
use plan_line::row::put_named;
use words::{Record, Records, field};

// How many expressions an operator has whose record is r.
#[tactic(auto, using(std::proofs::lemmas::Bool::Decides::nat_tests), unfolding(crate::specs::Behind::many_by))]
fn many_of(r: Record<'_>, w: Op) -> usize
    ensures { result ≡ many_at r.entry w }
{
    let kind = w.kind;
    let items = r.count(field::ITEMS);
    let filter = r.count(field::WITH_FILTER);
    let args = r.count(field::CALL_ARGS);
    let x = w.x as usize;
    match kind {
        op::FILTER | op::SKIP | op::LIMIT | op::UNWIND => 1,
        op::WITH => items + filter,
        op::PROJECT => items,
        op::ORDER_BY => x,
        op::PROCEDURE_CALL => args,
        _ => 0,
    }
}

// The record that they begin at.
#[tactic(auto, using(std::proofs::lemmas::Bool::Decides::nat_tests), unfolding(crate::specs::Behind::first_by))]
fn first_of(r: Record<'_>, w: Op) -> usize
    ensures { result ≡ first_at r.entry w }
{
    let kind = w.kind;
    match kind {
        op::FILTER | op::ORDER_BY | op::SKIP | op::LIMIT | op::UNWIND => r.i,
        _ => r.i + 1,
    }
}

// What operator k has at record i.
pub fn at_record(w: Op, i: usize, k: usize) -> At
    ensures { result ≡ at_record w i k }
{
    At {
        base: w.base as usize,
        i,
        left: w.left as usize,
        below: k,
    }
}

// The expressions of operator k, whose record is r.
pub fn exprs_of(r: Record<'_>, w: Op, k: usize) -> Run
    ensures { result ≡ exprs_of r.entry w k }
{
    let first = first_of(r, w);
    Run {
        at: at_record(w, first, k),
        n: many_of(r, w),
    }
}

// The items of operator k, which aggregates and whose record is r.
pub fn items_of(r: Record<'_>, w: Op, k: usize) -> Run
    ensures { result ≡ items_of r.entry w k }
{
    let first = r.i + 1;
    Run {
        at: at_record(w, first, k),
        n: r.count(field::ITEMS),
    }
}

// The yields of a `call`, from record i on, with the numbers that are noted at them. All records and a place, since where there are none no record need stand (names.rt).
fn put_yields(page: &mut Page<'_>, sheet: &[u8], r: &Records<'_>, rest: &[u32], w: Op, i: usize)
    requires { NotedAsked rest.now w (YieldsIn sheet.now r.now (op_word r.now w call_yields_at) i) }
    ensures { YieldsWrote sheet.now r.now rest.now w.base (op_word r.now w call_yields_at) i page.old page.new }
{
    let base = w.base as usize;
    let n = r.count(w.idx as usize, field::CALL_YIELDS);
    let end = i + n;
    for at in i..end {
        let number = note_of(rest, base, at);
        let item = Record {
            records: &*r,
            i: at,
        };
        put_named(
            page,
            Keyword::Yield,
            text(sheet, item, field::YIELD_NAME),
            [number],
        );
    }
}

// What is behind the expressions of an operator, from record i on: all records and a place, as in `put_names`.
pub fn put_tail(page: &mut Page<'_>, sheet: &[u8], r: &Records<'_>, rest: &[u32], w: Op, i: usize)
    requires { NotedAsked rest.now w (TailIn sheet.now r.now rest.now w i) }
    ensures { TailWrote sheet.now r.now rest.now w i page.old page.new }
{
    let kind = w.kind;
    match kind {
        op::SOURCE => {
            let labels = r.count(w.idx as usize, field::NODE_LABELS);
            crate::names::put_names(page, sheet, r, i, labels);
        }
        op::BIND_PATH => crate::path::put_path(page, sheet, r, rest, w, i),
        op::PROCEDURE_CALL => put_yields(page, sheet, r, rest, w, i),
        _ => {}
    }
}
