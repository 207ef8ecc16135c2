// The two lowerings of a `return`'s items: the first for its aggregate, the second for its projection.
ghost use Rattle.std.specs.Prelude.{List, ℕ, ◌+◌, ◌<◌};
ghost use Rattle.context.specs.Tables.{second_pass};
ghost use Rattle.context.specs.Lent.{SameTables};
ghost use Rattle.lower.specs.Rep.{in_tables};
ghost use Rattle.projections.specs.Asked.{FirstAsked, SecondAsked};
ghost use Rattle.projections.specs.Promises.{LowersPass, first_l, second_l};

use crate::{items, push_if};
use context::{At, SECOND_PASS, Tables, op};
use lower::{Current, Reached, Root};
use words::Records;

// The first lowering of the n items of the `return` that stands next, behind the operator before it: an aggregate, if one of them is one. The items' trees are at most so deep.
pub fn first_pass(
    sheet: &[u8],
    r: &Records<'_>,
    tables: &mut Tables<'_>,
    cur: Current,
    left: usize,
    n: usize,
) -> Root
    requires { FirstAsked sheet.now r.now.a.now r.now.b.now n left cur.next cur.op (in_tables cur.ctx tables.old) }
    ensures lowered { LowersPass sheet.now r.now.a.now r.now.b.now n left 0 (cur.next + 1) result.next result.op (first_l n cur.op) (in_tables cur.ctx tables.old) (in_tables result.ctx tables.new) }
    ensures same { SameTables tables.old tables.new }
{
    let i = cur.next;
    let first = i + 1;
    let clause = At { base: 0, i, left };
    let q = lower::or_source_all(tables.ops, cur.ctx, cur.op, first);
    let below = At { i: first, ..clause };
    let p = items::split_projections_agg(sheet, r, tables, q.ctx, below, n);
    let keys = n - p.aggs;
    let x = op::aggregate(clause, q.op, keys as u32, p.aggs as u32);
    push_if(tables.ops, p.reached, p.aggs != 0, x, q.op)
}

// Their second lowering, and the projection over the operator before, without its duplicates if it is distinct. The clause stands next in both.
pub fn second_pass(
    r: &Records<'_>,
    tables: &mut Tables<'_>,
    cur: Root,
    distinct: bool,
    left: usize,
    n: usize,
) -> Root
    requires { SecondAsked r.now.a.now r.now.b.now n left cur.next cur.op (in_tables cur.ctx tables.old) }
    ensures lowered { ((sheet : List ℕ) → LowersPass sheet r.now.a.now r.now.b.now n left second_pass (cur.next + 1) result.next result.op (second_l n distinct cur.op) (in_tables cur.ctx tables.old) (in_tables result.ctx tables.new)) × (result.op < result.ctx.ops) }
    ensures same { SameTables tables.old tables.new }
{
    let i = cur.next;
    let first = i + 1;
    let clause = At {
        base: SECOND_PASS,
        i,
        left,
    };
    let below = At { i: first, ..clause };
    let s = items::lower_items(r, tables, cur.ctx, below, n);
    let z = s.push(tables.ops, op::over(op::PROJECT, clause, cur.op));
    let pushed = Reached {
        next: z.next,
        ctx: z.ctx,
    };
    push_if(tables.ops, pushed, distinct, op::distinct(z.op), z.op)
}
