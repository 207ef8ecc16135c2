// The check of an expression and that of a pattern, which call each other.
//
// Tree walks recurse, the depth left falling, and kinds of records stay the numbers that the words hold: rules of the project.
// The five loops here and in `clauses` differ in their step, and share two lines. One loop over a closure would have to ask that the step may be called wherever a stage stands and walks as that stage says, for a stage that no argument gives. A trait with ghost members would give it, as crate clauses has one for its two loops; here it is no plainer: the trait, and a unit struct and an impl for each step, are longer than the loops, and three of the five are in a cycle.
ghost use Rattle.model.specs.Kind.{expr, pattern_part, pattern_element};
ghost use Rattle.model.specs.Check.{no_span};
ghost use Rattle.precheck.specs.Answer.{span_of};
ghost use Rattle.precheck.specs.Steps.{Exists, Walks, Run};
ghost use Rattle.precheck.specs.Stands.{At, Standing, Exprs};

use crate::verdict::{expr_verdict, part_verdict, props_of};
use crate::{HirSpan, Walk};
use words::{Record, Records, field, kind};

// How deep a tree may go, and the span that is reported in it.
#[derive(Clone, Copy)]
pub struct Under {
    pub left: usize,
    pub span: HirSpan,
}

// The expression at a record.
#[cycle(expression)]
fn check_expr(r: Record<'_>, under: Under) -> Walk
    requires { Standing r.records.now.a.now r.records.now.b.now expr under.left (span_of under.span) r.i }
    ensures { Walks result (At r.entry.records.now.a.now r.entry.records.now.b.now expr under.left (span_of under.span) r.entry.i) }
{
    let kind = r.kind();
    let first = r.i + 1;
    if kind::is_leaf(kind) {
        return Ok(first);
    }
    expr_verdict(r, under.span)?;
    let n = r.children();
    let less = Under {
        left: under.left - 1,
        ..under
    };
    match kind {
        // each expression behind its name
        kind::MAP => check_exprs(r.records, first, n, 1, less),
        kind::PAT => check_pattern(r.records, first, n, less),
        // every other has expressions for children, or none
        _ => check_exprs(r.records, first, n, 0, less),
    }
}

// n expressions from record i on, each behind skip records. A struct of i and n would be made at each call and taken apart at once, so that they stay two.
#[cycle(expression)]
pub fn check_exprs(r: &Records<'_>, i: usize, n: usize, skip: usize, under: Under) -> Walk
    requires { Exists (Exprs r.now.a.now r.now.b.now skip under.left (span_of under.span) n i) }
    ensures { Walks result (Exprs r.now.a.now r.now.b.now skip under.left (span_of under.span) n i) }
{
    let mut at = i;
    for _ in 0..n {
        at = check_expr(r.at(at + skip), under)?;
    }
    Ok(at)
}

// The n parts of a pattern, from record i on: each begins with a node, and is then checked element by element.
#[cycle(expression)]
pub fn check_pattern(r: &Records<'_>, i: usize, n: usize, under: Under) -> Walk
    requires { Exists (Run (At r.now.a.now r.now.b.now pattern_part under.left (span_of under.span)) n i) }
    ensures { Walks result (Run (At r.now.a.now r.now.b.now pattern_part under.left (span_of under.span)) n i) }
{
    let mut at = i;
    for _ in 0..n {
        let part = r.at(at);
        part_verdict(part, under.span)?;
        let elements = part.count(field::PART_ELEMENTS);
        at = check_elements(r, at + 1, elements, under.left - 1)?;
    }
    Ok(at)
}

// The n elements of a part, from record i on: the props of each, under its own span.
#[cycle(expression)]
fn check_elements(r: &Records<'_>, i: usize, n: usize, left: usize) -> Walk
    requires { Exists (Run (At r.now.a.now r.now.b.now pattern_element left no_span) n i) }
    ensures { Walks result (Run (At r.now.a.now r.now.b.now pattern_element left no_span) n i) }
{
    let mut at = i;
    for _ in 0..n {
        let props = props_of(r.at(at));
        let less = Under {
            left: left - 1,
            span: props.span,
        };
        at = check_exprs(r, props.first, props.n, 0, less)?;
    }
    Ok(at)
}
