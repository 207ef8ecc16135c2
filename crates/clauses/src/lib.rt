// The lowering of a whole statement: its clauses one after another, then its union arms, over the tables of crate context.
//
// The sheet, its records and the tables are lent one by one, as the crates below take them. In one struct they would be no plainer: the tables are written, so that it would be lent to be written as a whole, and each function would have to promise that the sheet and the records in it stay what they were.
#![tactic(auto)]

ghost use Rattle.std.specs.Prelude.{◌-◌};
ghost use Rattle.model.specs.Kind.{Sort, union_arm, clause, statement};
ghost use Rattle.model.specs.Call.{max_depth};
ghost use Rattle.words.specs.Held.{HeldSome};
ghost use Rattle.context.specs.Lent.{SameTables};
ghost use Rattle.lower.specs.Rep.{in_tables};
ghost use Rattle.clauses.specs.Asked.{TurnAsked, TurnsAsked};
ghost use Rattle.clauses.specs.Turns.{Turn, LowersTurn, LowersTurns};
ghost use Rattle.clauses.specs.Steps.{clause_turn, arm_turn};
ghost use Rattle.clauses.specs.Statement.{StatementAsked, LowersFrom, LowersStatement};

use crate::pair::Operands;
use context::{LowerCtx, Tables};
use lower::Current;
use words::{Records, field, kind};

pub mod pair;
pub mod reading;

// No operators, no numbers and no variables.
const EMPTY: LowerCtx = LowerCtx {
    ops: 0,
    numbers: 0,
    mapped: 0,
};

// A kind of tree that is lowered in turn, each tree behind the operator that the one before it left: clauses, and union arms.
trait InTurn {
    ghost sort: { Sort };

    ghost turn: { Turn sort };

    // The tree that stands next, behind the operator that cur has, if it has one.
    fn lower(
        sheet: &[u8],
        r: &Records<'_>,
        tables: &mut Tables<'_>,
        cur: Current,
        left: usize,
    ) -> Current
        requires { TurnAsked sort sheet.now r.now.a.now r.now.b.now left cur.next cur.op (in_tables cur.ctx tables.old) }
        ensures lowered { LowersTurn sort turn sheet.now r.now.a.now r.now.b.now left cur.next result.next cur.op result.op (in_tables cur.ctx tables.old) (in_tables result.ctx tables.new) }
        ensures same { SameTables tables.old tables.new };
}

// So many trees behind what stands before them.
fn lower_turns<T: InTurn>(
    sheet: &[u8],
    r: &Records<'_>,
    tables: &mut Tables<'_>,
    before: Current,
    n: usize,
    left: usize,
) -> Current
    requires { TurnsAsked T.sort sheet.now r.now.a.now r.now.b.now n left before.next before.op (in_tables before.ctx tables.old) }
    ensures lowered { LowersTurns T.sort T.turn sheet.now r.now.a.now r.now.b.now n left before.next result.next before.op result.op (in_tables before.ctx tables.old) (in_tables result.ctx tables.new) }
    ensures same { SameTables tables.old tables.new }
{
    let mut cur = before;
    for _ in 0..n {
        cur = T::lower(sheet, r, tables, cur, left);
    }
    cur
}

struct Clause;

impl InTurn for Clause {
    ghost sort = { clause };

    ghost turn = { clause_turn };

    // A clause that writes leaves the operator before it.
    fn lower(
        sheet: &[u8],
        r: &Records<'_>,
        tables: &mut Tables<'_>,
        cur: Current,
        left: usize,
    ) -> Current {
        let kind = r.word(cur.next, field::KIND);
        if kind == kind::WRITE {
            let next = cur.next + 1;
            return Current { next, ..cur };
        }
        let s = reading::lower_reading_clause(sheet, r, tables, cur, left);
        Current {
            next: s.next,
            op: Some(s.op),
            ctx: s.ctx,
        }
    }
}

struct Arm;

impl InTurn for Arm {
    ghost sort = { union_arm };

    ghost turn = { arm_turn };

    // The operator before is the union's left operand: what the arm's clauses leave is the right one.
    fn lower(
        sheet: &[u8],
        r: &Records<'_>,
        tables: &mut Tables<'_>,
        cur: Current,
        left: usize,
    ) -> Current {
        let i = cur.next;
        let all = r.word(i, field::ARM_ALL) == 1;
        let n = r.count(i, field::ARM_CLAUSES);
        let less = left - 1;
        let first = Current {
            next: i + 1,
            op: None,
            ctx: cur.ctx,
        };
        let below = lower_turns::<Clause>(sheet, r, tables, first, n, less);
        let both = Operands {
            left: cur.op,
            right: below.op,
            all,
        };
        let z = pair::unite(tables.ops, below.ctx, both, i);
        Current {
            next: below.next,
            op: Some(z.op),
            ctx: z.ctx,
        }
    }
}

// The statement that r holds, of at most a depth, from any state on.
pub fn lower_from(
    sheet: &[u8],
    r: &Records<'_>,
    tables: &mut Tables<'_>,
    ctx: LowerCtx,
    depth: usize,
) -> Current
    requires { StatementAsked sheet.now r.now.a.now r.now.b.now depth (in_tables ctx tables.old) }
    ensures lowered { LowersFrom sheet.now r.now.a.now r.now.b.now depth result.next result.op (in_tables ctx tables.old) (in_tables result.ctx tables.new) }
    ensures same { SameTables tables.old tables.new }
{
    let clauses = r.count(0, field::STMT_CLAUSES);
    let arms = r.count(0, field::STMT_ARMS);
    let less = depth - 1;
    let first = Current {
        next: 1,
        op: None,
        ctx,
    };
    let head = lower_turns::<Clause>(sheet, r, tables, first, clauses, less);
    lower_turns::<Arm>(sheet, r, tables, head, arms, less)
}

// The statement that r holds, into empty tables.
pub fn lower(sheet: &[u8], r: &Records<'_>, tables: &mut Tables<'_>) -> LowerCtx
    requires { HeldSome sheet.now r.now.a.now r.now.b.now statement max_depth 0 }
    ensures lowered { LowersStatement sheet.now r.now.a.now r.now.b.now (in_tables result tables.new) }
    ensures same { SameTables tables.old tables.new }
{
    lower_from(sheet, r, tables, EMPTY, words::MAX_DEPTH).ctx
}
