// The check of a resolved statement that the words hold: the first record, in sheet order, that the lowering does not take. It rests on the reader's promise alone.
#![tactic(auto)]

ghost use Rattle.std.specs.Prelude.{◌≤◌};
ghost use Rattle.model.specs.Kind.{statement};
ghost use Rattle.model.specs.Check.{precheck_statement};
ghost use Rattle.model.specs.Text.{Bytes};
ghost use Rattle.model.specs.Tree.{Tree};
ghost use Rattle.words.specs.Held.{Held, HeldSome};
ghost use Rattle.precheck.specs.Answer.{Says};
ghost use Rattle.precheck.specs.Stands.{least_depth};

use clauses::{check_arms, check_clauses};
use flat::nothing_refused;
use words::{Records, field};

mod clauses;
mod flat;
mod verdict;
mod walk;

// A part of the source text.
#[derive(Clone, Copy, Debug, PartialEq, Eq)]
pub struct HirSpan {
    pub start: u32,
    pub end: u32,
}

// What the check finds that the lowering does not take, with the line of its record. It has no Display, and so have the errors of the reader and of the calls none: nothing here prints them, since a refusal goes out as six values.
#[derive(Clone, Copy, Debug, PartialEq, Eq)]
pub enum PlanLowerError {
    UnresolvedName { line: u32, span: HirSpan },
    UndesugaredExpr { line: u32, span: HirSpan, kind: u32 },
    EmptyPatternPart { line: u32, span: HirSpan },
}

// Where a walk over records goes on, or what stopped it.
type Walk = Result<usize, PlanLowerError>;

// The first record, in sheet order, that the lowering does not take, of a statement of at most a depth: clauses in order, then each arm's.
pub fn precheck_statement(r: &Records<'_>, depth: usize) -> Result<(), PlanLowerError>
    requires least_depth_le_depth { least_depth ≤ depth }
    requires held_some { (sheet : Bytes) × HeldSome sheet r.now.a.now r.now.b.now statement depth 0 }
    ensures { (sheet : Bytes) (t : Tree statement) → Held sheet r.now.a.now r.now.b.now t depth 0 → Says result (precheck_statement t) }
{
    if nothing_refused(r) {
        return Ok(());
    }
    let clauses = r.count(0, field::STMT_CLAUSES);
    let arms = r.count(0, field::STMT_ARMS);
    let less = depth - 1;
    let at = check_clauses(r, 1, clauses, less)?;
    check_arms(r, at, arms, less)?;
    Ok(())
}
