// The six values that document 01 gives an answer: as numbers, for printing and for callers in other languages.
#![tactic(auto)]

ghost use Rattle.std.specs.Prelude.{◌≡◌};
ghost use Rattle.model.specs.Refusal.{line_refusal, tree_refusal, accepted as accepts};
ghost use Rattle.precheck.specs.Answer.{span_of};
ghost use Rattle.statement.specs.Answer.{error_answer, fault_answer, answer_of};
ghost use Rattle.union_pair.specs.PairAnswer.{fault_values, pair_answer_of};
ghost use Rattle.values.specs.Told.{told, words_of, kind_on, AnswerTold};

pub mod call;
pub mod refusal;
pub mod text;

use precheck::{HirSpan, PlanLowerError};
use sheet::reader::ReadError;
use sides::SideFault;
use statement::{Fault, Refusal};

// What a side adds to the kind of a form.
const SIDE_STEP: usize = 10;

#[derive(Clone, Copy, Debug, PartialEq, Eq)]
pub struct Values {
    pub number: u32,
    pub line: u32,
    pub start: u32,
    pub end: u32,
    pub kind: usize,
    pub length: usize,
}

// An answer has so many values.
pub const VALUES: usize = 6;

impl Values {
    // The values in document 01's order.
    pub fn words(&self) -> [usize; VALUES]
        ensures { result ≡ words_of (told self.now) }
    {
        [
            self.number as usize,
            self.line as usize,
            self.start as usize,
            self.end as usize,
            self.kind,
            self.length,
        ]
    }
}

// A refusal with a line, or with 0 for none.
fn at_line(number: u32, line: u32) -> Values
    ensures { told result ≡ line_refusal number line }
{
    Values {
        number,
        line,
        start: 0,
        end: 0,
        kind: 0,
        length: 0,
    }
}

// A refusal of the check.
fn in_tree(number: u32, line: u32, span: HirSpan, kind: u32) -> Values
    ensures { told result ≡ tree_refusal number line (span_of span) kind }
{
    Values {
        number,
        line,
        start: span.start,
        end: span.end,
        kind: kind as usize,
        length: 0,
    }
}

fn error_values(e: PlanLowerError) -> Values
    ensures { told result ≡ error_answer e }
{
    match e {
        PlanLowerError::UnresolvedName { line, span } => {
            in_tree(refusal::UNRESOLVED_NAME, line, span, 0)
        }
        PlanLowerError::UndesugaredExpr { line, span, kind } => {
            in_tree(refusal::UNDESUGARED_EXPR, line, span, kind)
        }
        PlanLowerError::EmptyPatternPart { line, span } => {
            in_tree(refusal::EMPTY_PATTERN_PART, line, span, 0)
        }
    }
}

impl From<Fault> for Values {
    ghost from_gives = { λ f v. told v ≡ fault_answer f };

    fn from(fault: Fault) -> Values {
        match fault {
            Fault::LongSheet => at_line(refusal::LONG_SHEET, 0),
            Fault::Unread(ReadError::BadLine(line)) => at_line(refusal::BAD_LINE, line),
            Fault::Unread(ReadError::BigTree(line)) => at_line(refusal::BIG_TREE, line),
            Fault::Unread(ReadError::WriteClause(line)) => at_line(refusal::WRITE_CLAUSE, line),
            Fault::Refused(e) => error_values(e),
        }
    }
}

// The kind of a side's fault: it tells the side, in its tens where a form has a kind of its own.
fn side_kind(f: SideFault) -> usize
    ensures { result ≡ kind_on f.side f.fault }
{
    let side = f.side as usize;
    match f.fault {
        Fault::Refused(PlanLowerError::UndesugaredExpr { kind, .. }) => {
            SIDE_STEP * side + kind as usize
        }
        _ => side,
    }
}

impl From<SideFault> for Values {
    ghost from_gives = { λ f v. told v ≡ fault_values f };

    fn from(f: SideFault) -> Values {
        Values {
            kind: side_kind(f),
            ..Values::from(f.fault)
        }
    }
}

// An accepted sheet or pair, with a length or a figure.
fn accepted(length: usize) -> Values
    ensures { told result ≡ accepts length }
{
    Values {
        length,
        ..at_line(refusal::ACCEPTED, 0)
    }
}

// The answer of a call with one sheet, or with two: F is what may be wrong with a sheet.
// A function, and no impl of `From` for all F: tried, and that impl's own bound would have to be solved by it again.
fn answer_values<F>(answer: Result<usize, Refusal<F>>) -> Values
where
    Values: From<F>,
    ensures { AnswerTold ⟦<Values as From<F>>⟧.from_gives answer result }
{
    match answer {
        Ok(n) => accepted(n),
        Err(Refusal::ShortWork) => at_line(refusal::SHORT_WORK, 0),
        Err(Refusal::OfSheet(f)) => Values::from(f),
        Err(Refusal::PlanFull) => at_line(refusal::PLAN_FULL, 0),
        Err(Refusal::NoRoom) => at_line(refusal::NO_ROOM, 0),
    }
}

impl From<Result<usize, Refusal<Fault>>> for Values {
    ghost from_gives = { λ r v. told v ≡ answer_of r };

    fn from(answer: Result<usize, Refusal<Fault>>) -> Values {
        answer_values(answer)
    }
}

// The kind tells the side too.
impl From<Result<usize, Refusal<SideFault>>> for Values {
    ghost from_gives = { λ r v. told v ≡ pair_answer_of r };

    fn from(answer: Result<usize, Refusal<SideFault>>) -> Values {
        answer_values(answer)
    }
}
