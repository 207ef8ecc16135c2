// The lowering of two statements into one plan, each over tables of its own, and their union.
ghost use Rattle.std.specs.Prelude.{ℕ, List};
ghost use Rattle.lower.specs.Rep.{mem, in_tables};
ghost use Rattle.clauses.specs.Pair.{union_of, UniteAsked, Unites, PairAsked, SameSide, LowersPair};

use crate::{EMPTY, lower_from};
use context::{LowerCtx, Tables, op};
use words::Records;

// What a union joins: an operator or none on each side, and whether it keeps all rows.
#[derive(Clone, Copy, Debug, PartialEq, Eq)]
pub struct Operands {
    pub left: Option<u32>,
    pub right: Option<u32>,
    pub all: bool,
}

// A union's number, and the state behind it.
#[derive(Clone, Copy, Debug, PartialEq, Eq)]
pub struct United {
    pub op: u32,
    pub ctx: LowerCtx,
}

// The union of two operands, a source of everything for each that is missing, left before right. It is stored with record i, which it does not print.
pub fn unite(ops: &mut [u32], ctx: LowerCtx, both: Operands, i: usize) -> United
    requires { UniteAsked both i ctx ops.old }
    ensures { (rest : List ℕ) → Unites (union_of both.left both.right both.all) result.op (mem ctx ops.old rest) (mem result.ctx ops.new rest) }
{
    let q = lower::or_source_all(ops, ctx, both.left, i);
    let s = lower::or_source_all(ops, q.ctx, both.right, i);
    let all = u32::from(both.all);
    let x = op::union(i as u32, q.op, s.op, all);
    United {
        op: s.ctx.ops as u32,
        ctx: s.ctx.push(ops, x),
    }
}

// One side of a pair: its sheet, the records that hold it, and its own tables, each for a lifetime of its own, as who makes one has them.
#[derive(Drop)]
pub struct Side<'s, 'a, 't> {
    pub sheet: &'s [u8],
    pub records: Records<'a>,
    pub tables: Tables<'t>,
}

// How many operators the left statement has, and the state of both: the right's begin there.
#[derive(Clone, Copy, Debug, PartialEq, Eq)]
pub struct Sides {
    pub first: usize,
    pub ctx: LowerCtx,
}

// The statements of both sides, the left one from empty tables on, the right one behind its operators and numbers and with no variables. The union stands in the right's table, with its first record.
pub fn lower_union_pair(
    left: &mut Side<'_, '_, '_>,
    right: &mut Side<'_, '_, '_>,
    all: bool,
) -> Sides
    requires { PairAsked left.old.sheet.now left.old.records.a.now left.old.records.b.now right.old.sheet.now right.old.records.a.now right.old.records.b.now }
    ensures lowered { LowersPair left.old.sheet.now left.old.records.a.now left.old.records.b.now left.new.tables.ops.now left.new.tables.rest.now right.old.sheet.now right.old.records.a.now right.old.records.b.now all result.first (in_tables result.ctx right.new.tables) }
    ensures same_left { SameSide left.old left.new }
    ensures same_right { SameSide right.old right.new }
{
    let l = lower_from(
        left.sheet,
        &left.records,
        &mut left.tables,
        EMPTY,
        words::MAX_DEPTH,
    );
    let start = LowerCtx { mapped: 0, ..l.ctx };
    let r = lower_from(
        right.sheet,
        &right.records,
        &mut right.tables,
        start,
        words::MAX_DEPTH,
    );
    let both = Operands {
        left: l.op,
        right: r.op,
        all,
    };
    // The tables first: the slice of a struct in a struct cannot be lent at once.
    let tables = &mut right.tables;
    let z = unite(tables.ops, r.ctx, both, 0);
    Sides {
        first: l.ctx.ops,
        ctx: z.ctx,
    }
}
