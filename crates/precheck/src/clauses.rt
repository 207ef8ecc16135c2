// The check of a clause, and of clauses and arms one behind another. Kinds of records stay the numbers that the words hold: a rule of the project.
ghost use Rattle.std.specs.Prelude.{◌≡◌, ◌<◌};
ghost use Rattle.model.specs.Kind.{union_arm, clause};
ghost use Rattle.model.specs.Check.{no_span};
ghost use Rattle.words.specs.Places.{line_end_at};
ghost use Rattle.precheck.specs.Answer.{span_of};
ghost use Rattle.precheck.specs.Steps.{Exists, Walks, Run};
ghost use Rattle.precheck.specs.Stands.{At, Standing, span_word, Trailers, Projected, Called, WalkAsked, ClauseAsked};

use crate::Walk;
use crate::verdict::span_at;
use crate::walk::{Under, check_exprs, check_pattern};
use words::{Record, Records, field, kind};

// The word of a clause's record at which its span begins.
fn span_word(kind: u32) -> usize
    ensures { (result ≡ span_word kind) × (result < line_end_at) }
{
    match kind {
        kind::MATCH => field::MATCH_SPAN,
        kind::WHERE => field::WHERE_SPAN,
        kind::UNWIND => field::UNWIND_SPAN,
        kind::CALL => field::CALL_SPAN,
        kind::WRITE => field::WRITE_SPAN,
        // with, return
        _ => field::PROJECTION_SPAN,
    }
}

// Sort keys, then skip, then limit, of a clause, from record at on. How many of each is a number, as of filters below.
fn check_order_skip_limit(c: Record<'_>, at: usize, under: Under) -> Walk
    requires { ClauseAsked under.left (Exists (Trailers c.records.now.a.now c.records.now.b.now c.i under.left (span_of under.span) at)) }
    ensures { Walks result (Trailers c.entry.records.now.a.now c.entry.records.now.b.now c.entry.i under.left (span_of under.span) at) }
{
    let keys = c.count(field::KEYS);
    let skip = c.count(field::SKIP);
    let limit = c.count(field::LIMIT);
    let less = Under {
        left: under.left - 1,
        ..under
    };
    let p = check_exprs(c.records, at, keys, 1, less)?;
    let q = check_exprs(c.records, p, skip, 0, under)?;
    check_exprs(c.records, q, limit, 0, under)
}

// Items, then a filter if there is one, then the rest, of a `with` or `return`. How many filters is a number and no flag, as the record table has it: the count of a group.
fn check_projections(c: Record<'_>, filters: usize, under: Under) -> Walk
    requires { ClauseAsked under.left (Exists (Projected c.records.now.a.now c.records.now.b.now c.i filters under.left (span_of under.span))) }
    ensures { Walks result (Projected c.entry.records.now.a.now c.entry.records.now.b.now c.entry.i filters under.left (span_of under.span)) }
{
    let items = c.count(field::ITEMS);
    let less = Under {
        left: under.left - 1,
        ..under
    };
    let p = check_exprs(c.records, c.i + 1, items, 1, less)?;
    let q = check_exprs(c.records, p, filters, 0, under)?;
    check_order_skip_limit(c, q, under)
}

// The arguments of a `call`; its yields are passed over.
fn check_call(c: Record<'_>, under: Under) -> Walk
    requires { ClauseAsked under.left (Exists (Called c.records.now.a.now c.records.now.b.now c.i under.left (span_of under.span))) }
    ensures { Walks result (Called c.entry.records.now.a.now c.entry.records.now.b.now c.entry.i under.left (span_of under.span)) }
{
    let args = c.count(field::CALL_ARGS);
    let yields = c.count(field::CALL_YIELDS);
    let at = check_exprs(c.records, c.i + 1, args, 0, under)?;
    Ok(at + yields)
}

// A clause, at most left deep, under its own span. A `write` has nothing to check.
fn check_clause(c: Record<'_>, left: usize) -> Walk
    requires { WalkAsked 1 left (Standing c.records.now.a.now c.records.now.b.now clause left no_span c.i) }
    ensures { Walks result (At c.entry.records.now.a.now c.entry.records.now.b.now clause left no_span c.entry.i) }
{
    let kind = c.kind();
    // parts of a `match`, filters of a `with`
    let n = c.count(field::MATCH_PARTS);
    let at = span_word(kind);
    let span = span_at(c, at);
    let first = c.i + 1;
    let less = Under {
        left: left - 1,
        span,
    };
    match kind {
        kind::MATCH => check_pattern(c.records, first, n, less),
        kind::WHERE => check_exprs(c.records, first, 1, 0, less),
        kind::WITH => check_projections(c, n, less),
        kind::RETURN => check_projections(c, 0, less),
        kind::UNWIND => check_exprs(c.records, first, 1, 0, less),
        kind::CALL => check_call(c, less),
        // write
        _ => Ok(first),
    }
}

// n clauses from record i on.
pub fn check_clauses(r: &Records<'_>, i: usize, n: usize, left: usize) -> Walk
    requires { WalkAsked 1 left (Exists (Run (At r.now.a.now r.now.b.now clause left no_span) n i)) }
    ensures { Walks result (Run (At r.now.a.now r.now.b.now clause left no_span) n i) }
{
    let mut at = i;
    for _ in 0..n {
        at = check_clause(r.at(at), left)?;
    }
    Ok(at)
}

// n arms from record i on, the clauses of each.
pub fn check_arms(r: &Records<'_>, i: usize, n: usize, left: usize) -> Walk
    requires { WalkAsked 2 left (Exists (Run (At r.now.a.now r.now.b.now union_arm left no_span) n i)) }
    ensures { Walks result (Run (At r.now.a.now r.now.b.now union_arm left no_span) n i) }
{
    let mut at = i;
    for _ in 0..n {
        let clauses = r.count(at, field::ARM_CLAUSES);
        at = check_clauses(r, at + 1, clauses, left - 1)?;
    }
    Ok(at)
}
