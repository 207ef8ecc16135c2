// What trails a `with` or a `return`: order, skip, limit.
ghost use Rattle.context.specs.Lent.{SameTables};
ghost use Rattle.lower.specs.Rep.{in_tables};
ghost use Rattle.projections.specs.Asked.{TailAsked};
ghost use Rattle.projections.specs.Promises.{LowersTail};

use crate::{items, push_if};
use context::{At, Tables, op};
use lower::Root;
use words::{Records, field};

// Order, skip and limit of the clause at record i, behind its root, whose trees are at most so deep; each that has no keys or no expression leaves the operator that it would stand over. How many there are of each is a count and no flag, as the record table has it: the count of a group.
pub fn lower_trailers(
    r: &Records<'_>,
    tables: &mut Tables<'_>,
    i: usize,
    root: Root,
    left: usize,
) -> Root
    requires { TailAsked r.now.a.now r.now.b.now left i root.next root.op (in_tables root.ctx tables.old) }
    ensures lowered { LowersTail r.now.a.now r.now.b.now left root.op i root.next result.next result.op (in_tables root.ctx tables.old) (in_tables result.ctx tables.new) }
    ensures same { SameTables tables.old tables.new }
{
    let keys = r.count(i, field::KEYS);
    let skip = r.count(i, field::SKIP);
    let limit = r.count(i, field::LIMIT);
    let first = At {
        base: 0,
        i: root.next,
        left,
    };
    let s = items::lower_items(r, tables, root.ctx, first, keys);
    let x = op::order_by(first, root.op, keys as u32);
    let p = push_if(tables.ops, s, keys != 0, x, root.op);
    let second = At { i: p.next, ..first };
    let t = lower::lower_exprs(r, tables, p.ctx, second, skip, 0);
    let y = op::over(op::SKIP, second, p.op);
    let q = push_if(tables.ops, t, skip != 0, y, p.op);
    let third = At { i: q.next, ..first };
    let u = lower::lower_exprs(r, tables, q.ctx, third, limit, 0);
    let z = op::over(op::LIMIT, third, q.op);
    push_if(tables.ops, u, limit != 0, z, q.op)
}
