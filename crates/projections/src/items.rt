// The items of a clause, and its sort keys, each a record with an expression behind it.
ghost use Rattle.std.specs.Prelude.{◌-◌, ◌≤◌};
ghost use Rattle.context.specs.Lent.{SameTables};
ghost use Rattle.lower.specs.Rep.{in_tables};
ghost use Rattle.lower.specs.Pieces.{LowersExprs};
ghost use Rattle.projections.specs.Asked.{ItemsAsked, SplitAsked};
ghost use Rattle.projections.specs.Promises.{LowersSplit};

use context::{At, LowerCtx, Tables};
use lower::Reached;
use words::{Record, Records};

// What is reached behind the items, and how many of them are aggregates.
#[derive(Clone, Copy, Debug, PartialEq, Eq)]
pub struct Parted {
    pub reached: Reached,
    pub aggs: usize,
}

// n items or sort keys from a place on; the expression of each stands behind it and is one deeper.
pub fn lower_items(
    r: &Records<'_>,
    tables: &mut Tables<'_>,
    ctx: LowerCtx,
    at: At,
    n: usize,
) -> Reached
    requires { ItemsAsked r.now.a.now r.now.b.now at n (in_tables ctx tables.old) }
    ensures lowered { LowersExprs r.now.a.now r.now.b.now n 1 (at.left - 1) at.base at.i result.next (in_tables ctx tables.old) (in_tables result.ctx tables.new) }
    ensures same { SameTables tables.old tables.new }
{
    let below = At {
        left: at.left.saturating_sub(1),
        ..at
    };
    lower::lower_exprs(r, tables, ctx, below, n, 1)
}

// The first lowering of the n items of a `return` from a place on. The state is that of lowering each whole, also of an aggregate, of which the arguments alone are lowered.
pub fn split_projections_agg(
    sheet: &[u8],
    r: &Records<'_>,
    tables: &mut Tables<'_>,
    ctx: LowerCtx,
    at: At,
    n: usize,
) -> Parted
    requires { SplitAsked sheet.now r.now.a.now r.now.b.now at n (in_tables ctx tables.old) }
    ensures lowered { LowersSplit sheet.now r.now.a.now r.now.b.now n at.left at.i result.reached.next result.aggs (in_tables ctx tables.old) (in_tables result.reached.ctx tables.new) × (result.aggs ≤ n) }
    ensures same { SameTables tables.old tables.new }
{
    let mut cur = Reached { next: at.i, ctx };
    let mut aggs = 0;
    for _ in 0..n {
        let i = cur.next + 1;
        let less = at.left - 1;
        let expr = Record { records: &*r, i };
        let agg = aggregate::is_aggregate(sheet, expr);
        let item = At {
            base: 0,
            i,
            left: less,
        };
        cur = lower::lower_expr(r, tables, cur.ctx, item);
        aggs += usize::from(agg);
    }
    Parted { reached: cur, aggs }
}
