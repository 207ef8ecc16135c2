// What the check reads off a record, and what it refuses for the record alone. Kinds of records stay the numbers that the words hold: a rule of the project.
ghost use Rattle.std.specs.Prelude.{◌<◌};
ghost use Rattle.model.specs.Kind.{expr, pattern_part, pattern_element};
ghost use Rattle.words.specs.Places.{line_end_at};
ghost use Rattle.precheck.specs.Answer.{span_of};
ghost use Rattle.precheck.specs.Stands.{Spans, SomeAt, Inside, Begins, Own};

use crate::{HirSpan, PlanLowerError};
use words::{Record, field, kind};

// The span in words c and c + 1 of a record.
pub fn span_at(r: Record<'_>, c: usize) -> HirSpan
    requires { c < line_end_at }
    ensures { Spans r.entry.records.now.a.now r.entry.records.now.b.now r.entry.i c result }
{
    let start = r.word(c);
    let end = r.word(c + 1);
    HirSpan { start, end }
}

// The expression that a node or a rel may have behind its labels or types, and the span that is reported inside it.
#[derive(Clone, Copy)]
pub struct Props {
    pub first: usize,
    pub n: usize,
    pub span: HirSpan,
}

// What the check looks at in a pattern element.
pub fn props_of(r: Record<'_>) -> Props
    requires { SomeAt r.records.now.a.now r.records.now.b.now pattern_element r.i }
    ensures { Inside r.entry.records.now.a.now r.entry.records.now.b.now r.entry.i result }
{
    let below = r.below();
    // a node, or else a rel
    let at = if r.kind() == kind::NODE {
        field::NODE_SPAN
    } else {
        field::REL_SPAN
    };
    Props {
        first: below.first,
        n: below.props,
        span: span_at(r, at),
    }
}

// Whether a part begins with a node.
pub fn begins_with_node(r: Record<'_>) -> bool
    requires { SomeAt r.records.now.a.now r.records.now.b.now pattern_part r.i }
    ensures { Begins r.entry.records.now.a.now r.entry.records.now.b.now r.entry.i result }
{
    let elements = r.word(field::PART_ELEMENTS);
    elements != 0 && r.records.word(r.i + 1, field::KIND) == kind::NODE
}

// What an expression is refused for by itself.
pub fn expr_verdict(r: Record<'_>, span: HirSpan) -> Result<(), PlanLowerError>
    ensures { Own r.entry.records.now.a.now r.entry.records.now.b.now expr r.entry.i (span_of span) result }
{
    let kind = r.kind();
    // those that are refused have the last two kinds
    if kind < kind::UNRES {
        return Ok(());
    }
    let line = (r.i + 1) as u32;
    if kind == kind::UNRES {
        return Err(PlanLowerError::UnresolvedName { line, span });
    }
    let kind = r.word(field::UNDES_KIND);
    Err(PlanLowerError::UndesugaredExpr { line, span, kind })
}

// The same of a part: it has to begin with a node.
pub fn part_verdict(r: Record<'_>, span: HirSpan) -> Result<(), PlanLowerError>
    requires { SomeAt r.records.now.a.now r.records.now.b.now pattern_part r.i }
    ensures { Own r.entry.records.now.a.now r.entry.records.now.b.now pattern_part r.entry.i (span_of span) result }
{
    if begins_with_node(r) {
        return Ok(());
    }
    let line = (r.i + 1) as u32;
    Err(PlanLowerError::EmptyPatternPart { line, span })
}
