// The lowering of a `with` or a `return` into the tables. r holds the records; cur is where a clause begins: its record, the operator before it, if there is one, and the state. How deep the clause's tree may be is beside it: the same for all clauses of a statement, where cur is another one each time.
#![tactic(auto)]

ghost use Rattle.std.specs.Prelude.{◌≡◌, List, ℕ, Some};
ghost use Rattle.words.specs.Places.{with_kind};
ghost use Rattle.context.specs.Tables.{CanPush};
ghost use Rattle.context.specs.Lent.{SameTables};
ghost use Rattle.lower.specs.Rep.{in_tables};
ghost use Rattle.lower.specs.Clauses.{LowersClause};
ghost use Rattle.projections.specs.Asked.{ClauseAsked, ReturnAsked};
ghost use Rattle.projections.specs.Promises.{PushedIf};

use context::op::Op;
use context::{At, Tables, op};
use lower::{Current, Reached, Root};
use words::{Records, field};

pub mod items;
pub mod passes;
pub mod trailers;

// An operator behind what is reached, if it is wanted; if not, `input`, which it would stand over, is left.
fn push_if(ops: &mut [u32], s: Reached, wanted: bool, x: Op, input: u32) -> Root
    requires { CanPush s.ctx ops.old }
    ensures { (result.next ≡ s.next) × PushedIf wanted x input result.op s.ctx result.ctx ops.old ops.new }
{
    if !wanted {
        return Root {
            next: s.next,
            op: input,
            ctx: s.ctx,
        };
    }
    s.push(ops, x)
}

// The `with` that stands next, behind the operator before it. How many filters it has is a number, as the record table has it (trailers.rt).
pub fn lower_with(r: &Records<'_>, tables: &mut Tables<'_>, cur: Current, left: usize) -> Root
    requires { ClauseAsked with_kind r.now.a.now r.now.b.now left cur.next cur.op (in_tables cur.ctx tables.old) }
    ensures lowered { (sheet : List ℕ) → LowersClause sheet r.now.a.now r.now.b.now left cur.next result.next cur.op (Some result.op) (in_tables cur.ctx tables.old) (in_tables result.ctx tables.new) }
    ensures same { SameTables tables.old tables.new }
{
    let i = cur.next;
    let items = r.count(i, field::ITEMS);
    let filter = r.count(i, field::WITH_FILTER);
    let first = i + 1;
    let less = left - 1;
    let clause = At {
        base: 0,
        i,
        left: less,
    };
    let q = lower::or_source_all(tables.ops, cur.ctx, cur.op, first);
    let below = At { i: first, ..clause };
    let s = items::lower_items(r, tables, q.ctx, below, items);
    let predicate = At {
        i: s.next,
        ..clause
    };
    let t = lower::lower_exprs(r, tables, s.ctx, predicate, filter, 0);
    let z = t.push(tables.ops, op::over(op::WITH, clause, q.op));
    trailers::lower_trailers(r, tables, i, z, less)
}

// The `return` that stands next, behind the operator before it.
pub fn lower_return(
    sheet: &[u8],
    r: &Records<'_>,
    tables: &mut Tables<'_>,
    cur: Current,
    left: usize,
) -> Root
    requires { ReturnAsked sheet.now r.now.a.now r.now.b.now left cur.next cur.op (in_tables cur.ctx tables.old) }
    ensures lowered { LowersClause sheet.now r.now.a.now r.now.b.now left cur.next result.next cur.op (Some result.op) (in_tables cur.ctx tables.old) (in_tables result.ctx tables.new) }
    ensures same { SameTables tables.old tables.new }
{
    let i = cur.next;
    let n = r.count(i, field::ITEMS);
    let distinct = r.word(i, field::RETURN_DISTINCT) == 1;
    let less = left - 1;
    let p = passes::first_pass(sheet, r, tables, cur, less, n);
    let again = Root { next: i, ..p };
    let q = passes::second_pass(r, tables, again, distinct, less, n);
    trailers::lower_trailers(r, tables, i, q, less)
}
