// The lowering of a statement that the words hold: operators, notes and variables into the tables. r holds the records; a place says at which record, how deep a tree may be, and where the pass's notes begin.
// The four are parameters of their own: the records are only read, the tables written, the state goes by value, as document 01 has it, and the place is another one at each call; in one struct, lent to be written, each function would have to promise that the records stay. How many stand there is beside the place where more than one may: as a struct it would be made at each call and taken apart at once.
#![tactic(auto)]

ghost use Rattle.std.specs.Prelude.{◌≡◌, ℕ, ◌+◌, ◌-◌, ◌<◌, List};
ghost use Rattle.model.specs.Kind.{expr, pattern_part, pattern_element};
ghost use Rattle.model.specs.Lower.{root_of};
ghost use Rattle.words.specs.Words.{cell, max_records, option_of};
ghost use Rattle.words.specs.Places.{element_named_at, element_var_at};
ghost use Rattle.lower.specs.Rep.{mem, in_tables, PushedBehind};
ghost use Rattle.lower.specs.Pieces.{LowersExpr, LowersExprs};
ghost use Rattle.lower.specs.Patterns.{LowersPart, LowersParts};
ghost use Rattle.lower.specs.Chains.{last_of, LowersElement, LowersElements, LowersStart, LowersRel, SourceLeft, LowersChain, ElementAt, start_chain};
ghost use Rattle.lower.specs.Asked.{TreeAsked, ExprsAsked, BehindAsked, NodeAsked, RelAsked, SpecialAsked, ChainAsked, StartAsked, ExpandAsked};
ghost use Rattle.context.specs.Tables.{max_count, CanPush};
ghost use Rattle.context.specs.Lent.{SameTables};
ghost use Rattle.context.specs.Ops.{Under};

use context::op::Op;
use context::{At, LowerCtx, Tables, op};
use words::{Record, Records, field, kind};

// A special part has exactly node, rel, node.
const SPECIAL_ELEMENTS: u32 = 3;

// The last operator of a chain, and its node's number.
#[derive(Clone, Copy, Debug, PartialEq, Eq)]
pub struct LastNode {
    pub op: u32,
    pub number: u32,
}

// What is read of an element: its variable, the record behind its names, and how many props it has there, one or none: a number and no flag, since it is the count of a group, as the record table has it, and the expressions there are lowered by their count.
#[derive(Clone, Copy, Debug, PartialEq, Eq)]
pub struct Read {
    pub bind: Option<u32>,
    pub first: usize,
    pub props: usize,
}

// A rel that waits for its far node: its record, and what is read of it.
#[derive(Clone, Copy, Debug, PartialEq, Eq)]
pub struct PendingRel {
    pub i: usize,
    pub read: Read,
}

// Elements of a part, so far: where the next one stands; the last operator, if there is one; the rel that waits, from which on nothing is lowered yet, if one does; how many numbers the path has.
#[derive(Clone, Copy, Debug, PartialEq, Eq)]
pub struct Chain {
    pub at: At,
    pub ctx: LowerCtx,
    pub last: Option<LastNode>,
    pub pending: Option<PendingRel>,
    pub kept: u32,
}

// A node behind a rel: what is read of it, the rel, and the operator before with its node's number.
#[derive(Clone, Copy, Debug, PartialEq, Eq)]
pub struct Link {
    pub node: Read,
    pub rel: PendingRel,
    pub origin: LastNode,
}

// An element of a part: two kinds of the same rank, and no Option or Result.
#[derive(Clone, Copy, Debug, PartialEq, Eq)]
pub enum Element {
    Node(Read),
    Rel(Read),
}

// The elements of a special part: what is read of its near node and of its far one, and the records of the rel and of the far node.
#[derive(Clone, Copy, Debug, PartialEq, Eq)]
pub struct NodeRelNode {
    pub near: Read,
    pub rel: usize,
    pub far: usize,
    pub to: Read,
}

// The record behind what is lowered, and the state.
#[derive(Clone, Copy, Debug, PartialEq, Eq)]
pub struct Reached {
    pub next: usize,
    pub ctx: LowerCtx,
}

// An operator too.
#[derive(Clone, Copy, Debug, PartialEq, Eq)]
pub struct Lowered<O> {
    pub next: usize,
    pub op: O,
    pub ctx: LowerCtx,
}

// A root operator, or the last operator so far, if there is one.
pub type Root = Lowered<u32>;

pub type Current = Lowered<Option<u32>>;

impl Reached {
    // One more operator, stored if the table has room, and its number.
    pub fn push(self, ops: &mut [u32], op: Op) -> Root
        requires { CanPush self.ctx ops.old }
        ensures { PushedBehind self result ops.old ops.new op }
    {
        Lowered {
            next: self.next,
            op: self.ctx.ops as u32,
            ctx: self.ctx.push(ops, op),
        }
    }
}

// The variable of a part or an element.
#[tactic(auto, unfolding(words::specs::Words::option_of))]
fn read_bind(r: Record<'_>) -> Option<u32>
    ensures { result ≡ option_of (cell r.entry.records.now.a.now r.entry.records.now.b.now r.entry.i element_named_at) (cell r.entry.records.now.a.now r.entry.records.now.b.now r.entry.i element_var_at) }
{
    let named = r.word(field::ELEMENT_NAMED);
    if named == 0 {
        return None;
    }
    let id = r.word(field::ELEMENT_VAR);
    Some(id)
}

fn read_element(r: Record<'_>) -> Element
    ensures { ElementAt r.entry.records.now.a.now r.entry.records.now.b.now r.entry.i result }
{
    let bind = read_bind(r);
    let below = r.below();
    let read = Read {
        bind,
        first: below.first,
        props: below.props,
    };
    if r.kind() == kind::NODE {
        return Element::Node(read);
    }
    Element::Rel(read)
}

// The operator before, or a source of everything, which names the next number and does not take it.
// That the operator is one that was pushed is asked and no fact of Lowered, which is one struct for a root and for an operator or none: the fact would be another for each.
pub fn or_source_all(ops: &mut [u32], ctx: LowerCtx, current: Option<u32>, next: usize) -> Root
    requires { CanPush ctx ops.old × Under current ctx.ops }
    ensures { SourceLeft current next result.next result.op ctx result.ctx ops.old ops.new }
{
    match current {
        Some(op) => Lowered { next, op, ctx },
        None => Reached { next, ctx }.push(ops, op::binding(op::SOURCE_ALL, ctx.numbers)),
    }
}

// The root of a chain so far, if it has one.
#[tactic(auto, unfolding(model::specs::Lower::root_of))]
fn root_of(last: Option<LastNode>) -> Option<u32>
    ensures { result ≡ root_of (last_of last) }
{
    last.map(|l| l.op)
}

// A pattern of no parts, at record i: a source that does take a number.
fn lower_no_parts(ops: &mut [u32], ctx: LowerCtx, i: usize) -> Root
    requires { CanPush ctx ops.old × (ctx.numbers < max_count) × (i < max_records) }
    ensures { (result.next ≡ i + 1) × ((a b : List ℕ) (d base : ℕ) (rest : List ℕ) → LowersParts a b 0 d base i result.next result.op (mem ctx ops.old rest) (mem result.ctx ops.new rest)) }
{
    let f = ctx.fresh();
    let behind = Reached {
        next: i + 1,
        ctx: f.ctx,
    };
    behind.push(ops, op::binding(op::SOURCE_NO_PARTS, f.number))
}

// The expression at a place.
#[cycle(lowering)]
pub fn lower_expr(r: &Records<'_>, tables: &mut Tables<'_>, ctx: LowerCtx, at: At) -> Reached
    requires { TreeAsked expr r.now.a.now r.now.b.now at (in_tables ctx tables.old) }
    ensures lowered { LowersExpr r.now.a.now r.now.b.now at.left at.base at.i result.next (in_tables ctx tables.old) (in_tables result.ctx tables.new) }
    ensures same { SameTables tables.old tables.new }
{
    let kind = r.word(at.i, field::KIND);
    let n = r.children(at.i);
    let kid = at.i + 1;
    let place = at.base + kid;
    let left = at.left - 1;
    let below = At { i: kid, left, ..at };
    match kind {
        kind::VAR => {
            let id = r.word(at.i, field::VAR_ID);
            let m = ctx.number(tables.rest, id, place);
            Reached {
                next: kid,
                ctx: m.ctx,
            }
        }
        kind::MAP => lower_exprs(r, tables, ctx, below, n, 1),
        kind::PAT => {
            let q = lower_parts(r, tables, ctx, At { left, ..at }, n);
            context::note(tables.rest, place, q.op);
            Reached {
                next: q.next,
                ctx: q.ctx,
            }
        }
        kind::LIST_PREDICATE => {
            let id = r.word(at.i, field::LIST_PREDICATE_VAR);
            let m = ctx.number(tables.rest, id, place);
            lower_exprs(r, tables, m.ctx, below, n, 0)
        }
        _ => lower_exprs(r, tables, ctx, below, n, 0),
    }
}

// n expressions from a place on, each so many records behind the one before it.
#[cycle(lowering)]
pub fn lower_exprs(
    r: &Records<'_>,
    tables: &mut Tables<'_>,
    ctx: LowerCtx,
    at: At,
    n: usize,
    gap: usize,
) -> Reached
    requires { ExprsAsked r.now.a.now r.now.b.now n gap at (in_tables ctx tables.old) }
    ensures lowered { LowersExprs r.now.a.now r.now.b.now n gap at.left at.base at.i result.next (in_tables ctx tables.old) (in_tables result.ctx tables.new) }
    ensures same { SameTables tables.old tables.new }
{
    let mut cur = Reached { next: at.i, ctx };
    for _ in 0..n {
        let i = cur.next + gap;
        cur = lower_expr(r, tables, cur.ctx, At { i, ..at });
    }
    cur
}

// The n parts behind the record at a place.
#[cycle(lowering)]
pub fn lower_parts(
    r: &Records<'_>,
    tables: &mut Tables<'_>,
    ctx: LowerCtx,
    at: At,
    n: usize,
) -> Root
    requires { BehindAsked pattern_part r.now.a.now r.now.b.now n at (in_tables ctx tables.old) }
    ensures lowered { LowersParts r.now.a.now r.now.b.now n at.left at.base at.i result.next result.op (in_tables ctx tables.old) (in_tables result.ctx tables.new) }
    ensures same { SameTables tables.old tables.new }
{
    if n == 0 {
        return lower_no_parts(tables.ops, ctx, at.i);
    }
    let first = at.i + 1;
    let mut cur = lower_pattern_part(r, tables, ctx, At { i: first, ..at });
    for _ in 1..n {
        let i = cur.next;
        cur = lower_pattern_part(r, tables, cur.ctx, At { i, ..at });
    }
    cur
}

// The part at a place: special only if it is a shortest part of exactly node, rel, node.
#[cycle(lowering)]
fn lower_pattern_part(r: &Records<'_>, tables: &mut Tables<'_>, ctx: LowerCtx, at: At) -> Root
    requires { TreeAsked pattern_part r.now.a.now r.now.b.now at (in_tables ctx tables.old) }
    ensures lowered { LowersPart r.now.a.now r.now.b.now at.left at.base at.i result.next result.op (in_tables ctx tables.old) (in_tables result.ctx tables.new) }
    ensures same { SameTables tables.old tables.new }
{
    let shortest = r.word(at.i, field::PART_SHORTEST);
    if shortest == 0 {
        return lower_chain(r, tables, ctx, at);
    }
    let n = r.word(at.i, field::PART_ELEMENTS);
    if n != SPECIAL_ELEMENTS {
        return lower_chain(r, tables, ctx, at);
    }
    let first = at.i + 1;
    let rel = r.skip(first);
    let Element::Node(near) = read_element(r.at(first)) else {
        return lower_chain(r, tables, ctx, at);
    };
    let far = r.skip(rel);
    let Element::Rel(between) = read_element(r.at(rel)) else {
        return lower_chain(r, tables, ctx, at);
    };
    let Element::Node(to) = read_element(r.at(far)) else {
        return lower_chain(r, tables, ctx, at);
    };
    let ends = NodeRelNode { near, rel, far, to };
    lower_shortest_path_part(r, tables, ctx, at, ends, between)
}

// The special shortest part at a place.
#[cycle(lowering)]
fn lower_shortest_path_part(
    r: &Records<'_>,
    tables: &mut Tables<'_>,
    ctx: LowerCtx,
    at: At,
    ends: NodeRelNode,
    between: Read,
) -> Root
    requires { SpecialAsked r.now.a.now r.now.b.now at ends between (in_tables ctx tables.old) }
    ensures lowered { LowersPart r.now.a.now r.now.b.now at.left at.base at.i result.next result.op (in_tables ctx tables.old) (in_tables result.ctx tables.new) }
    ensures same { SameTables tables.old tables.new }
{
    let base = at.base;
    let first = at.i + 1;
    let left = at.left - 1;
    let rel = ends.rel;
    let far = ends.far;
    let from = ctx.endpoint_var(tables.rest, ends.near.bind, base + (first + 1));
    let near = At {
        i: first,
        left,
        ..at
    };
    let q = start_node(r, tables, from.ctx, near, from.number, ends.near);
    let s = lower_rel_element(r, tables, q.ctx, At { i: rel, left, ..at }, between);
    let to = s
        .ctx
        .endpoint_var(tables.rest, ends.to.bind, base + (far + 1));
    let bind = read_bind(r.at(at.i));
    let path = to.ctx.endpoint_var(tables.rest, bind, base + first);
    let whole = At { left, ..at };
    let end = r.skip(far);
    let behind = Reached {
        next: end,
        ctx: path.ctx,
    };
    behind.push(
        tables.ops,
        op::shortest_path(whole, q.op, rel as u32, far as u32),
    )
}

// The part at a place as a chain: its elements, then the path if it is named.
#[cycle(lowering)]
fn lower_chain(r: &Records<'_>, tables: &mut Tables<'_>, ctx: LowerCtx, at: At) -> Root
    requires { TreeAsked pattern_part r.now.a.now r.now.b.now at (in_tables ctx tables.old) }
    ensures lowered { LowersChain r.now.a.now r.now.b.now at.left at.base at.i result.next result.op (in_tables ctx tables.old) (in_tables result.ctx tables.new) }
    ensures same { SameTables tables.old tables.new }
{
    let i = at.i;
    let n = r.count(i, field::PART_ELEMENTS);
    let less = at.left - 1;
    let below = At { left: less, ..at };
    let ch = lower_elements(r, tables, ctx, below, n);
    let root = root_of(ch.last);
    let q = or_source_all(tables.ops, ch.ctx, root, ch.at.i);
    let Some(id) = read_bind(r.at(i)) else {
        return q;
    };
    let m = q.ctx.number(tables.rest, id, at.base + (i + 1));
    let behind = Reached {
        next: q.next,
        ctx: m.ctx,
    };
    behind.push(tables.ops, op::bind_path(below, q.op, ch.kept, m.number))
}

// The n elements behind the record at a place.
#[cycle(lowering)]
fn lower_elements(
    r: &Records<'_>,
    tables: &mut Tables<'_>,
    ctx: LowerCtx,
    at: At,
    n: usize,
) -> Chain
    requires { BehindAsked pattern_element r.now.a.now r.now.b.now n at (in_tables ctx tables.old) }
    ensures lowered { LowersElements r.now.a.now r.now.b.now n at.left at.base (start_chain at ctx) result tables.old.ops.now tables.new.ops.now tables.old.rest.now tables.new.rest.now }
    ensures same { SameTables tables.old tables.new }
{
    let first = at.i + 1;
    let mut ch = Chain {
        at: At { i: first, ..at },
        ctx,
        last: None,
        pending: None,
        kept: 0,
    };
    for _ in 0..n {
        ch = lower_element(r, tables, ch);
    }
    ch
}

// The next element of a chain: a rel waits, in place of one that waited; a node starts or ends an expand.
#[cycle(lowering)]
fn lower_element(r: &Records<'_>, tables: &mut Tables<'_>, ch: Chain) -> Chain
    requires { ChainAsked r.now.a.now r.now.b.now ch tables.old.ops.now tables.old.rest.now }
    ensures lowered { LowersElement r.now.a.now r.now.b.now ch.at.left ch.at.base ch result tables.old.ops.now tables.new.ops.now tables.old.rest.now tables.new.rest.now }
    ensures same { SameTables tables.old tables.new }
{
    let i = ch.at.i;
    match read_element(r.at(i)) {
        Element::Rel(read) => {
            let end = r.skip(i);
            Chain {
                at: At { i: end, ..ch.at },
                pending: Some(PendingRel { i, read }),
                ..ch
            }
        }
        Element::Node(node) => {
            let (Some(rel), Some(origin)) = (ch.pending, ch.last) else {
                return start_chain(r, tables, ch, node);
            };
            expand_to(r, tables, ch, Link { node, rel, origin })
        }
    }
}

// A node at the start, or with no rel pending.
#[cycle(lowering)]
fn start_chain(r: &Records<'_>, tables: &mut Tables<'_>, ch: Chain, node: Read) -> Chain
    requires { StartAsked r.now.a.now r.now.b.now ch node tables.old.ops.now tables.old.rest.now }
    ensures lowered { LowersElement r.now.a.now r.now.b.now ch.at.left ch.at.base ch result tables.old.ops.now tables.new.ops.now tables.old.rest.now tables.new.rest.now }
    ensures same { SameTables tables.old tables.new }
{
    let i = ch.at.i;
    let m = ch
        .ctx
        .endpoint_var(tables.rest, node.bind, ch.at.base + (i + 1));
    let q = start_node(r, tables, m.ctx, ch.at, m.number, node);
    let kept = ch.kept + 1;
    Chain {
        at: At { i: q.next, ..ch.at },
        ctx: q.ctx,
        last: Some(LastNode {
            op: q.op,
            number: m.number,
        }),
        pending: None,
        kept,
    }
}

// A node behind a rel: it is numbered before the rel.
#[cycle(lowering)]
fn expand_to(r: &Records<'_>, tables: &mut Tables<'_>, ch: Chain, link: Link) -> Chain
    requires { ExpandAsked r.now.a.now r.now.b.now ch link tables.old.ops.now tables.old.rest.now }
    ensures lowered { LowersElement r.now.a.now r.now.b.now ch.at.left ch.at.base ch result tables.old.ops.now tables.new.ops.now tables.old.rest.now tables.new.rest.now }
    ensures same { SameTables tables.old tables.new }
{
    let i = ch.at.i;
    let node = link.node;
    let origin = link.origin;
    let m = ch
        .ctx
        .endpoint_var(tables.rest, node.bind, ch.at.base + (i + 1));
    let place = At {
        i: link.rel.i,
        ..ch.at
    };
    let s = lower_rel_element(r, tables, m.ctx, place, link.rel.read);
    let less = ch.at.left - 1;
    let below = At {
        i: node.first,
        left: less,
        ..ch.at
    };
    let t = lower_exprs(r, tables, s.ctx, below, node.props, 0);
    let z = t.push(
        tables.ops,
        op::expand(place, origin.op, origin.number, i as u32),
    );
    let kept = ch.kept + 2;
    Chain {
        at: At { i: z.next, ..ch.at },
        ctx: z.ctx,
        last: Some(LastNode {
            op: z.op,
            number: m.number,
        }),
        pending: None,
        kept,
    }
}

// The operators of the node at a place, which has its number: a source, and a filter by its props.
#[cycle(lowering)]
fn start_node(
    r: &Records<'_>,
    tables: &mut Tables<'_>,
    ctx: LowerCtx,
    at: At,
    number: u32,
    node: Read,
) -> Root
    requires { NodeAsked r.now.a.now r.now.b.now at node (in_tables ctx tables.old) }
    ensures lowered { LowersStart r.now.a.now r.now.b.now at.left at.base at.i number result.next result.op (in_tables ctx tables.old) (in_tables result.ctx tables.new) }
    ensures same { SameTables tables.old tables.new }
{
    let first = node.first;
    let less = at.left - 1;
    let here = At { left: less, ..at };
    let below = At {
        i: first,
        left: less,
        ..at
    };
    let p = Reached { next: first, ctx }.push(tables.ops, op::source(here, number));
    if node.props == 0 {
        return p;
    }
    let s = lower_expr(r, tables, p.ctx, below);
    s.push(tables.ops, op::over(op::FILTER, below, p.op))
}

// The number and the props of the rel at a place.
#[cycle(lowering)]
fn lower_rel_element(
    r: &Records<'_>,
    tables: &mut Tables<'_>,
    ctx: LowerCtx,
    at: At,
    rel: Read,
) -> Reached
    requires { RelAsked r.now.a.now r.now.b.now at rel (in_tables ctx tables.old) }
    ensures lowered { LowersRel r.now.a.now r.now.b.now at.left at.base at.i result.next ctx tables.old.ops.now tables.old.rest.now (in_tables result.ctx tables.new) }
    ensures same { SameTables tables.old tables.new }
{
    let i = at.i;
    let m = ctx.endpoint_var(tables.rest, rel.bind, at.base + (i + 1));
    let less = at.left - 1;
    let below = At {
        i: rel.first,
        left: less,
        ..at
    };
    lower_exprs(r, tables, m.ctx, below, rel.props, 0)
}
