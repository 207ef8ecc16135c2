// The clauses that read, each behind the operator before it. Notes stand at the records' own lines. cur is where a clause begins: its record, the operator before it, if there is one, and the state. How deep the clause's tree may be is beside it: the same for all clauses of a statement, where cur is another one each time.
ghost use Rattle.std.specs.Prelude.{ℕ, ◌≡◌, List, Some};
ghost use Rattle.model.specs.Text.{Bytes};
ghost use Rattle.model.specs.Lower.{optional_join};
ghost use Rattle.words.specs.Places.{match_kind, where_kind, unwind_kind, call_kind};
ghost use Rattle.context.specs.Lent.{SameTables};
ghost use Rattle.lower.specs.Rep.{mem, in_tables};
ghost use Rattle.lower.specs.Chains.{OrSource};
ghost use Rattle.lower.specs.Clauses.{LowersClause};
ghost use Rattle.projections.specs.Asked.{ClauseAsked};
ghost use Rattle.clauses.specs.Asked.{JoinAsked, ReadingAsked, YieldsAsked};
ghost use Rattle.clauses.specs.Steps.{LowersYields};

use context::{At, Tables, op};
use lower::{Current, Reached, Root};
use words::{Records, field, kind};

// The numbers of the n yields from a record on.
pub fn lower_yields(r: &Records<'_>, rest: &mut [u32], from: Reached, n: usize) -> Reached
    requires { YieldsAsked r.now.a.now r.now.b.now n from.next from.ctx rest.old }
    ensures { (os : List ℕ) → LowersYields r.now.a.now r.now.b.now n from.next result.next (mem from.ctx os rest.old) (mem result.ctx os rest.new) }
{
    let next = from.next + n;
    let mut cur = from.ctx;
    for at in from.next..next {
        let id = r.word(at, field::YIELD_VAR);
        cur = cur.number(rest, id, at + 1).ctx;
    }
    Reached { next, ctx: cur }
}

// How the `match` at record i goes with the operator before it, once its parts have their root: an optional one joins that operator with a copy of the root, and any other leaves the root.
fn join_before(ops: &mut [u32], root: Root, current: Option<u32>, optional: bool, i: usize) -> Root
    requires { JoinAsked root current i ops.old }
    ensures { (result.next ≡ root.next) × ((rest : List ℕ) → OrSource root.op (λ s. optional_join optional current root.op s) result.op (mem root.ctx ops.old rest) (mem result.ctx ops.new rest)) }
{
    let Some(outer) = current else {
        return root;
    };
    if !optional {
        return root;
    }
    let behind = Reached {
        next: root.next,
        ctx: root.ctx,
    };
    behind.push(ops, op::optional_join(i as u32, outer, root.op))
}

// The `match` that stands next: the root of its parts, as it goes with the operator before it.
pub fn lower_match(r: &Records<'_>, tables: &mut Tables<'_>, cur: Current, left: usize) -> Root
    requires { ClauseAsked match_kind r.now.a.now r.now.b.now left cur.next cur.op (in_tables cur.ctx tables.old) }
    ensures lowered { (sheet : Bytes) → LowersClause sheet r.now.a.now r.now.b.now left cur.next result.next cur.op (Some result.op) (in_tables cur.ctx tables.old) (in_tables result.ctx tables.new) }
    ensures same { SameTables tables.old tables.new }
{
    let i = cur.next;
    let optional = r.word(i, field::MATCH_OPTIONAL) == 1;
    let n = r.count(i, field::MATCH_PARTS);
    let less = left - 1;
    let parts = At {
        base: 0,
        i,
        left: less,
    };
    let s = lower::lower_parts(r, tables, cur.ctx, parts, n);
    join_before(tables.ops, s, cur.op, optional, i)
}

// The `where` that stands next.
pub fn lower_where(r: &Records<'_>, tables: &mut Tables<'_>, cur: Current, left: usize) -> Root
    requires { ClauseAsked where_kind r.now.a.now r.now.b.now left cur.next cur.op (in_tables cur.ctx tables.old) }
    ensures lowered { (sheet : Bytes) → LowersClause sheet r.now.a.now r.now.b.now left cur.next result.next cur.op (Some result.op) (in_tables cur.ctx tables.old) (in_tables result.ctx tables.new) }
    ensures same { SameTables tables.old tables.new }
{
    let first = cur.next + 1;
    let less = left - 1;
    let below = At {
        base: 0,
        i: first,
        left: less,
    };
    let s = lower::lower_expr(r, tables, cur.ctx, below);
    let q = lower::or_source_all(tables.ops, s.ctx, cur.op, s.next);
    let behind = Reached {
        next: q.next,
        ctx: q.ctx,
    };
    behind.push(tables.ops, op::over(op::FILTER, below, q.op))
}

// The `unwind` that stands next.
pub fn lower_unwind(r: &Records<'_>, tables: &mut Tables<'_>, cur: Current, left: usize) -> Root
    requires { ClauseAsked unwind_kind r.now.a.now r.now.b.now left cur.next cur.op (in_tables cur.ctx tables.old) }
    ensures lowered { (sheet : Bytes) → LowersClause sheet r.now.a.now r.now.b.now left cur.next result.next cur.op (Some result.op) (in_tables cur.ctx tables.old) (in_tables result.ctx tables.new) }
    ensures same { SameTables tables.old tables.new }
{
    let id = r.word(cur.next, field::UNWIND_VAR);
    let first = cur.next + 1;
    let less = left - 1;
    let q = lower::or_source_all(tables.ops, cur.ctx, cur.op, first);
    let below = At {
        base: 0,
        i: first,
        left: less,
    };
    let s = lower::lower_expr(r, tables, q.ctx, below);
    let m = s.ctx.number(tables.rest, id, first);
    let behind = Reached {
        next: s.next,
        ctx: m.ctx,
    };
    behind.push(tables.ops, op::unwind(below, q.op, m.number))
}

// The `call` that stands next.
pub fn lower_call(r: &Records<'_>, tables: &mut Tables<'_>, cur: Current, left: usize) -> Root
    requires { ClauseAsked call_kind r.now.a.now r.now.b.now left cur.next cur.op (in_tables cur.ctx tables.old) }
    ensures lowered { (sheet : Bytes) → LowersClause sheet r.now.a.now r.now.b.now left cur.next result.next cur.op (Some result.op) (in_tables cur.ctx tables.old) (in_tables result.ctx tables.new) }
    ensures same { SameTables tables.old tables.new }
{
    let i = cur.next;
    let args = r.count(i, field::CALL_ARGS);
    let yields = r.count(i, field::CALL_YIELDS);
    let first = i + 1;
    let less = left - 1;
    let clause = At {
        base: 0,
        i,
        left: less,
    };
    let below = At { i: first, ..clause };
    let s = lower::lower_exprs(r, tables, cur.ctx, below, args, 0);
    let t = lower_yields(r, tables.rest, s, yields);
    t.push(tables.ops, op::procedure_call(clause, cur.op))
}

// The clause that stands next, which does not write. The kinds of records are told apart by a match on a small number, as document 01 wants it.
pub fn lower_reading_clause(
    sheet: &[u8],
    r: &Records<'_>,
    tables: &mut Tables<'_>,
    cur: Current,
    left: usize,
) -> Root
    requires { ReadingAsked sheet.now r.now.a.now r.now.b.now left cur.next cur.op (in_tables cur.ctx tables.old) }
    ensures lowered { LowersClause sheet.now r.now.a.now r.now.b.now left cur.next result.next cur.op (Some result.op) (in_tables cur.ctx tables.old) (in_tables result.ctx tables.new) }
    ensures same { SameTables tables.old tables.new }
{
    let kind = r.word(cur.next, field::KIND);
    match kind {
        kind::MATCH => lower_match(r, tables, cur, left),
        kind::WHERE => lower_where(r, tables, cur, left),
        kind::WITH => projections::lower_with(r, tables, cur, left),
        kind::RETURN => projections::lower_return(sheet, r, tables, cur, left),
        kind::UNWIND => lower_unwind(r, tables, cur, left),
        _ => lower_call(r, tables, cur, left),
    }
}
