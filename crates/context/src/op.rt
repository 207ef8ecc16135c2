// A stored operator: eight words in the operators' slice, of which the last seven are used.
//
// kind            idx                input   x                     y                  left and base
// SOURCE_ALL      -                  -       number it binds       -                  -
// SOURCE_NO_PARTS -                  -       number it binds       -                  -
// SOURCE          its node           -       number it binds       -                  of its labels
// FILTER          its predicate      input   -                     -                  of its predicate
// EXPAND          its rel            input   number it starts at   its far node       of rel and node
// SHORTEST_PATH   its part           input   its rel               its far node       of its elements
// BIND_PATH       its part           input   how many numbers      number it binds    of its elements
// OPTIONAL_JOIN   its match          input   operator it copies    -                  -
// WITH            its clause         input   -                     -                  of its items
// PROJECT         its clause         input   -                     -                  of its items
// AGGREGATE       its clause         input   how many keys         how many aggregates, of its items
// ORDER_BY        its first key      input   how many keys         -                  of its keys
// SKIP, LIMIT     its expression     input   -                     -                  of its expression
// DISTINCT        -                  input   -                     -                  -
// UNWIND          its list           input   number it binds       -                  of its list
// UNION           its arm            input   its other input       all                -
// PROCEDURE_CALL  its clause         input   whether it has one    -                  of its arguments
//
// left is how deep the trees of its records may be, base where the notes of their pass begin.
//
// Its kind is a number and no enum: it stands in a lent word, and document 01 has kinds told apart by a match on a small number.
ghost use Rattle.std.specs.Prelude.{◌≡◌, ◌<◌, ◌≤◌, length};
ghost use Rattle.model.specs.Call.{work_words};
ghost use Rattle.context.specs.Tables.{op_at, max_stored};
ghost use Rattle.context.specs.Ops.{Fits, op_over, op_alone, source_op, expand_op, shortest_path_op, bind_path_op, optional_join_op, aggregate_op, order_by_op, distinct_op, unwind_op, union_op, procedure_call_op, call_input};

use crate::{At, OP_WORDS};

// Where the words of an operator stand among its eight; the first is free.
pub const KIND_WORD: usize = 1;

pub const IDX_WORD: usize = 2;

pub const INPUT_WORD: usize = 3;

pub const X_WORD: usize = 4;

pub const Y_WORD: usize = 5;

pub const LEFT_WORD: usize = 6;

pub const BASE_WORD: usize = 7;

pub const SOURCE_ALL: u32 = 0;

pub const SOURCE_NO_PARTS: u32 = 1;

pub const SOURCE: u32 = 2;

pub const FILTER: u32 = 3;

pub const EXPAND: u32 = 4;

pub const SHORTEST_PATH: u32 = 5;

pub const BIND_PATH: u32 = 6;

pub const OPTIONAL_JOIN: u32 = 7;

pub const WITH: u32 = 8;

pub const PROJECT: u32 = 9;

pub const AGGREGATE: u32 = 10;

pub const ORDER_BY: u32 = 11;

pub const SKIP: u32 = 12;

pub const LIMIT: u32 = 13;

pub const DISTINCT: u32 = 14;

pub const UNWIND: u32 = 15;

pub const UNION: u32 = 16;

pub const PROCEDURE_CALL: u32 = 17;

#[derive(Clone, Copy, Debug, PartialEq, Eq)]
pub struct Op {
    pub kind: u32,
    pub idx: u32,
    pub input: u32,
    pub x: u32,
    pub y: u32,
    pub left: u32,
    pub base: u32,
}

impl Op {
    // An operator over records at a place.
    fn at_place(kind: u32, at: At, input: u32, x: u32, y: u32) -> Op
        requires { Fits at }
        ensures { result ≡ op_over kind at input x y }
    {
        Op {
            kind,
            idx: at.i as u32,
            input,
            x,
            y,
            left: at.left as u32,
            base: at.base as u32,
        }
    }

    // An operator at a record, which reads nothing below it.
    fn at_record(kind: u32, idx: u32, input: u32, x: u32, y: u32) -> Op
        ensures { result ≡ op_alone kind idx input x y }
    {
        Op {
            kind,
            idx,
            input,
            x,
            y,
            left: 0,
            base: 0,
        }
    }
}

// SOURCE_ALL or SOURCE_NO_PARTS.
pub fn binding(kind: u32, bind: u32) -> Op
    ensures { result ≡ op_alone kind 0 0 bind 0 }
{
    Op::at_record(kind, 0, 0, bind, 0)
}

// FILTER, WITH, PROJECT, SKIP or LIMIT.
pub fn over(kind: u32, at: At, input: u32) -> Op
    requires { Fits at }
    ensures { result ≡ op_over kind at input 0 0 }
{
    Op::at_place(kind, at, input, 0, 0)
}

// The other kinds have a constructor each: what X_WORD and Y_WORD hold has its own name and type there. That a place fits into words is asked here and no fact of At: most places are made for the records below, and never stored.
pub fn source(at: At, bind: u32) -> Op
    requires { Fits at }
    ensures { result ≡ source_op at bind }
{
    Op::at_place(SOURCE, at, 0, bind, 0)
}

pub fn expand(at: At, input: u32, from: u32, far: u32) -> Op
    requires { Fits at }
    ensures { result ≡ expand_op at input from far }
{
    Op::at_place(EXPAND, at, input, from, far)
}

pub fn shortest_path(at: At, input: u32, rel: u32, far: u32) -> Op
    requires { Fits at }
    ensures { result ≡ shortest_path_op at input rel far }
{
    Op::at_place(SHORTEST_PATH, at, input, rel, far)
}

pub fn bind_path(at: At, input: u32, count: u32, bind: u32) -> Op
    requires { Fits at }
    ensures { result ≡ bind_path_op at input count bind }
{
    Op::at_place(BIND_PATH, at, input, count, bind)
}

pub fn optional_join(i: u32, input: u32, inner: u32) -> Op
    ensures { result ≡ optional_join_op i input inner }
{
    Op::at_record(OPTIONAL_JOIN, i, input, inner, 0)
}

pub fn aggregate(at: At, input: u32, keys: u32, aggregates: u32) -> Op
    requires { Fits at }
    ensures { result ≡ aggregate_op at input keys aggregates }
{
    Op::at_place(AGGREGATE, at, input, keys, aggregates)
}

pub fn order_by(at: At, input: u32, keys: u32) -> Op
    requires { Fits at }
    ensures { result ≡ order_by_op at input keys }
{
    Op::at_place(ORDER_BY, at, input, keys, 0)
}

pub fn distinct(input: u32) -> Op
    ensures { result ≡ distinct_op input }
{
    Op::at_record(DISTINCT, 0, input, 0, 0)
}

pub fn unwind(at: At, input: u32, bind: u32) -> Op
    requires { Fits at }
    ensures { result ≡ unwind_op at input bind }
{
    Op::at_place(UNWIND, at, input, bind, 0)
}

// `all` is the word that is stored, whatever it is, so that it is no bool.
pub fn union(i: u32, input: u32, right: u32, all: u32) -> Op
    ensures { result ≡ union_op i input right all }
{
    Op::at_record(UNION, i, input, right, all)
}

#[tactic(auto, unfolding(crate::specs::Ops::procedure_call_op))]
pub fn procedure_call(at: At, current: Option<u32>) -> Op
    requires { Fits at }
    ensures { result ≡ procedure_call_op at current }
{
    match current {
        None => Op::at_place(PROCEDURE_CALL, at, 0, 0, 0),
        Some(input) => Op::at_place(PROCEDURE_CALL, at, input, 1, 0),
    }
}

// The operator before a stored call, if there is one: what `procedure_call` was given.
#[tactic(auto, unfolding(crate::specs::Ops::input_if))]
pub fn call_input(w: Op) -> Option<u32>
    ensures { result ≡ call_input w }
{
    if w.x == 0 {
        return None;
    }
    Some(w.input)
}

// Operator k.
#[tactic(auto, unfolding(crate::specs::Tables::op_at))]
pub fn read_op(ops: &[u32], k: usize) -> Op
    requires { (k < max_stored) × (work_words ≤ length ops.now) }
    ensures { result ≡ op_at ops.now k }
{
    let words = &ops[k * OP_WORDS..];
    Op {
        kind: words[KIND_WORD],
        idx: words[IDX_WORD],
        input: words[INPUT_WORD],
        x: words[X_WORD],
        y: words[Y_WORD],
        left: words[LEFT_WORD],
        base: words[BASE_WORD],
    }
}
