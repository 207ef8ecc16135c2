// The state of the lowering, by value, over tables in lent slices: numbers are issued, noted and looked up, and operators pushed.
// CanPush, CanNumber and CanMap are asked and are no facts of a type: they relate the state, which document 01 wants by value, with a slice that is lent. What writes or reads one table asks for the length of that slice, since with Tables whole it would have to promise that the other table stays.
#![tactic(auto)]

ghost use Rattle.std.specs.Prelude.{◌≡◌, ◌+◌, ◌<◌, ◌≤◌, length, None};
ghost use Rattle.model.specs.Call.{work_words};
ghost use Rattle.model.specs.Lower.{lookup, map_var, endpoint_var};
ghost use Rattle.context.specs.Tables.{vars_at, max_count, vars_of, Issued, CanMap, CanNumber, Numbers, NoteWritten, CanPush, Pushed};

use crate::op::Op;

pub mod index;
pub mod op;
pub mod read;

// So many operators are stored; those beyond are counted alone.
pub const MAX_STORED: usize = 2048;

// An operator has so many words.
pub const OP_WORDS: usize = 8;

// The notes of a second pass begin at this word of the fourth slice, and the variables, two words each, behind all notes.
pub const SECOND_PASS: usize = 2048;

pub const VARS_AT: usize = 4097;

// A named variable has so many words: its id, and its number at this place behind it.
pub const NAMED_WORDS: usize = 2;

pub const NUMBER_WORD: usize = 1;

// There is room for so many variables; so many of them are in the index, whose words begin at this word behind VARS_AT.
pub const MAX_VARS: usize = 5119;

pub const MAX_INDEXED: usize = 2048;

pub const LINKS_AT: usize = NAMED_WORDS * MAX_VARS;

// A word of links has two halves, each below this.
pub const HALF_WORD: u32 = 65536;

// How many operators, variable numbers and named variables there are. By value, as document 01 has it: `map_var` hands back number and state. The operators' count goes on beyond their table.
#[derive(Clone, Copy, Debug, PartialEq, Eq)]
pub struct LowerCtx {
    pub ops: usize,
    pub numbers: u32,
    pub mapped: usize,
}

// The tables that the lowering writes: the operators', and that of the notes with the variables behind them. That each has a work slice's words goes with them.
#[derive(Drop)]
pub struct Tables<'a> {
    pub ops: &'a mut [u32],
    pub rest: &'a mut [u32],
    ghost long: { (work_words ≤ length ops.now) × (work_words ≤ length rest.now) },
}

// Where something is lowered: the records from i on, how deep their trees may be, and where the notes of the pass begin.
// Their bounds (the pass is one of two, the depth at most `deepest`; Near, in the writer) are asked with the tree that stands there and are no fact of the type: each place that is made on the way down would owe them, and a tree of the depth would be asked still.
#[derive(Clone, Copy, Debug, PartialEq, Eq)]
pub struct At {
    pub base: usize,
    pub i: usize,
    pub left: usize,
}

// A number issued, and the state behind it. A variable's number; of an operator's with the state crate clauses has `United`, and crate lower `Lowered`, which tells the next record too.
#[derive(Clone, Copy, Debug, PartialEq, Eq)]
pub struct Numbered {
    pub number: u32,
    pub ctx: LowerCtx,
}

// A note at a place.
pub fn note(rest: &mut [u32], place: usize, v: u32)
    requires { (place < vars_at) × (work_words ≤ length rest.old) }
    ensures { NoteWritten place v rest.old rest.new }
{
    rest[place] = v;
}

impl LowerCtx {
    // A variable that has no number yet gets the next one.
    fn new_var(self, vars: &mut [u32], id: u32) -> Numbered
        requires can_map { CanMap self vars.old }
        requires id_value { lookup (vars_of self.mapped vars.old) id ≡ None }
        ensures { Issued (map_var id) self vars.old vars.new result }
    {
        index::enter(vars, self.mapped, id);
        let at = self.mapped * NAMED_WORDS;
        vars[at] = id;
        vars[at + NUMBER_WORD] = self.numbers;
        Numbered {
            number: self.numbers,
            ctx: LowerCtx {
                numbers: self.numbers + 1,
                mapped: self.mapped + 1,
                ..self
            },
        }
    }

    fn map_var(self, vars: &mut [u32], id: u32) -> Numbered
        requires { CanMap self vars.old }
        ensures { Issued (map_var id) self vars.old vars.new result }
    {
        match index::find(vars, self.mapped, id) {
            Some(number) => Numbered { number, ctx: self },
            None => self.new_var(vars, id),
        }
    }

    // The number of a named variable, noted at a place.
    pub fn number(self, rest: &mut [u32], id: u32, place: usize) -> Numbered
        requires { CanNumber self place rest.old }
        ensures { Numbers (map_var id) place self rest.old rest.new result }
    {
        let r = self.map_var(&mut rest[VARS_AT..], id);
        note(rest, place, r.number);
        r
    }

    // The next number, for something unnamed.
    pub fn fresh(self) -> Numbered
        requires { self.numbers < max_count }
        ensures { (result.number ≡ self.numbers) × (result.ctx.ops ≡ self.ops) × (result.ctx.numbers ≡ self.numbers + 1) × (result.ctx.mapped ≡ self.mapped) }
    {
        Numbered {
            number: self.numbers,
            ctx: LowerCtx {
                numbers: self.numbers + 1,
                ..self
            },
        }
    }

    // The number of a node or a rel, by its id or, unnamed, the next one; noted at a place.
    pub fn endpoint_var(self, rest: &mut [u32], bind: Option<u32>, place: usize) -> Numbered
        requires { CanNumber self place rest.old }
        ensures { Numbers (endpoint_var bind) place self rest.old rest.new result }
    {
        match bind {
            Some(id) => self.number(rest, id, place),
            None => {
                let r = self.fresh();
                note(rest, place, r.number);
                r
            }
        }
    }

    // One more operator, stored if the table has room.
    pub fn push(self, ops: &mut [u32], op: Op) -> LowerCtx
        requires { CanPush self ops.old }
        ensures { Pushed self result ops.old ops.new op }
    {
        let k = self.ops;
        let more = LowerCtx { ops: k + 1, ..self };
        if k >= MAX_STORED {
            return more;
        }
        let words = &mut ops[k * OP_WORDS..];
        words[op::KIND_WORD] = op.kind;
        words[op::IDX_WORD] = op.idx;
        words[op::INPUT_WORD] = op.input;
        words[op::X_WORD] = op.x;
        words[op::Y_WORD] = op.y;
        words[op::LEFT_WORD] = op.left;
        words[op::BASE_WORD] = op.base;
        more
    }
}
