// The record table: of each kind the forms of its fields and its groups of children. Kinds are numbered sort by sort, as words hold them. A new record is a row here and in specs/Table.antt.
// Tables are matches with constant arms: an array constant was tried with the older kit, whose compiler wrote it anew at each use (docs/PROVING.md); with today's it was not tried again.
// A number that is no kind's has a row of no field and no group.
ghost use Rattle.std.specs.Prelude.{◌≡◌, [], ◌<◌, get_or};
ghost use Rattle.words.specs.Table.{codes, groups, group_numbers, field_count, entry_count, code_at, in_digits};
ghost use Rattle.words.specs.Forms.{form_coded, form_at};

use crate::form::Form;
use crate::kind;

// A row has its entries as digits of four bits each, the first one topmost: one number a row is read from constant data. Its digit is taken at two places, each with its own topmost one: what a function for both would ask of the two is longer than the line.
const DIGIT_BITS: usize = 4;

const DIGITS: u64 = 16;

// Where the first digit of a row of forms stands, and where that of a row of groups.
const TOP_FORM: usize = 24;

const TOP_GROUP: usize = 36;

// The codes of a kind's fields as seven hexadecimal digits, 0 behind the last.
fn form_row(kind: u32) -> u64
    ensures { result ≡ in_digits (get_or codes kind []) }
{
    match kind {
        kind::STMT => 0xaa00000,
        kind::ARM => 0x1a00000,
        kind::MATCH => 0x1a80000,
        kind::WHERE => 0x8000000,
        kind::WITH => 0xa1a1180,
        kind::RETURN => 0xa1a1180,
        kind::UNWIND => 0x2800000,
        kind::CALL => 0x6aa1800,
        kind::WRITE => 0x8000000,
        kind::ITEM => 0x7000000,
        kind::KEY => 0x1000000,
        kind::PART => 0x3ca0000,
        kind::NODE => 0x3a18000,
        kind::REL => 0x3ac9180,
        kind::NAME => 0x6000000,
        kind::YIELD => 0x6200000,
        kind::ENTRY => 0x6000000,
        kind::NULL => 0x0000000,
        kind::BOOL => 0x1000000,
        kind::INT => 0x4000000,
        kind::FLOAT => 0x5000000,
        kind::STR => 0x6000000,
        kind::PARAM => 0x6000000,
        kind::PROP => 0x6000000,
        kind::INDEX => 0x0000000,
        kind::SLICE => 0x1100000,
        kind::LIST => 0xa000000,
        kind::BIN => 0xe000000,
        kind::UN => 0xb000000,
        kind::CASE => 0x1a10000,
        kind::IS_NULL => 0x1000000,
        kind::IN => 0x0000000,
        kind::VAR => 0x2000000,
        kind::MAP => 0xa000000,
        kind::FN => 0x6a10000,
        kind::PAT => 0xa000000,
        kind::LIST_PREDICATE => 0xd210000,
        kind::UNRES => 0x6000000,
        kind::UNDES => 0xd000000,
        _ => 0x0000000,
    }
}

// The last binary operator.
const LAST_BINARY: u32 = 19;

// The code of field g of a kind.
fn form_code(kind: u32, g: usize) -> u64
    requires { g < field_count }
    ensures { result ≡ code_at kind g }
{
    let row = form_row(kind);
    (row >> (TOP_FORM - DIGIT_BITS * g)) % DIGITS
}

// The form of a code: here alone a number stands for one.
#[tactic(auto, using(crate::specs::Forms::none_coded), unfolding(crate::specs::Forms::form_coded))]
fn form_coded(code: u64) -> Option<Form>
    ensures { result ≡ form_coded code }
{
    match code {
        1 => Some(Form::Flag),
        2 => Some(Form::Var),
        3 => Some(Form::VarOrAbsent),
        4 => Some(Form::Int),
        5 => Some(Form::Float),
        6 => Some(Form::Text),
        7 => Some(Form::Alias),
        8 => Some(Form::Span),
        9 => Some(Form::Length),
        10 => Some(Form::Number(u32::MAX)),
        11 => Some(Form::Number(1)),
        12 => Some(Form::Number(2)),
        13 => Some(Form::Number(3)),
        14 => Some(Form::Number(LAST_BINARY)),
        _ => None,
    }
}

// The form of field g of a kind, none behind the last.
pub fn form_at(kind: u32, g: usize) -> Option<Form>
    requires { g < field_count }
    ensures { result ≡ form_at kind g }
{
    form_coded(form_code(kind, g))
}

// At most five groups of children a kind, each two digits, a sort (sort.rt) and a count: 0, 1 or 2 is the count itself, 3 the first word of field 0, 4 that of field 1, and so on.
fn group_row(kind: u32) -> u64
    ensures { result ≡ in_digits (get_or groups kind []) }
{
    match kind {
        kind::STMT => 0x2314000000,
        kind::ARM => 0x2400000000,
        kind::MATCH => 0x5400000000,
        kind::WHERE => 0xa100000000,
        kind::WITH => 0x33a445a6a7,
        kind::RETURN => 0x3345a6a700,
        kind::UNWIND => 0xa100000000,
        kind::CALL => 0xa485000000,
        kind::WRITE => 0x0000000000,
        kind::ITEM => 0xa100000000,
        kind::KEY => 0xa100000000,
        kind::PART => 0x6500000000,
        kind::NODE => 0x74a5000000,
        kind::REL => 0x74a7000000,
        kind::NAME => 0x0000000000,
        kind::YIELD => 0x0000000000,
        kind::ENTRY => 0xa100000000,
        kind::NULL => 0x0000000000,
        kind::BOOL => 0x0000000000,
        kind::INT => 0x0000000000,
        kind::FLOAT => 0x0000000000,
        kind::STR => 0x0000000000,
        kind::PARAM => 0x0000000000,
        kind::PROP => 0xa100000000,
        kind::INDEX => 0xa200000000,
        kind::SLICE => 0xa1a3a40000,
        kind::LIST => 0xa300000000,
        kind::BIN => 0xa200000000,
        kind::UN => 0xa100000000,
        kind::CASE => 0xa3a4a4a500,
        kind::IS_NULL => 0xa100000000,
        kind::IN => 0xa200000000,
        kind::VAR => 0x0000000000,
        kind::MAP => 0x9300000000,
        kind::FN => 0xa400000000,
        kind::PAT => 0x5300000000,
        kind::LIST_PREDICATE => 0xa1a5000000,
        kind::UNRES => 0x0000000000,
        kind::UNDES => 0x0000000000,
        _ => 0x0000000000,
    }
}

// Entry j of a kind's groups.
pub fn group_entry(kind: u32, j: usize) -> u32
    requires { j < entry_count }
    ensures { result ≡ get_or (get_or groups kind []) j 0 }
{
    let row = group_row(kind);
    ((row >> (TOP_GROUP - DIGIT_BITS * j)) % DIGITS) as u32
}

// How many groups of children a kind has.
pub fn groups_of(kind: u32) -> usize
    ensures { result ≡ get_or group_numbers kind 0 }
{
    match kind {
        kind::STMT => 2,
        kind::ARM => 1,
        kind::MATCH => 1,
        kind::WHERE => 1,
        kind::WITH => 5,
        kind::RETURN => 4,
        kind::UNWIND => 1,
        kind::CALL => 2,
        kind::WRITE => 0,
        kind::ITEM => 1,
        kind::KEY => 1,
        kind::PART => 1,
        kind::NODE => 2,
        kind::REL => 2,
        kind::NAME => 0,
        kind::YIELD => 0,
        kind::ENTRY => 1,
        kind::NULL => 0,
        kind::BOOL => 0,
        kind::INT => 0,
        kind::FLOAT => 0,
        kind::STR => 0,
        kind::PARAM => 0,
        kind::PROP => 1,
        kind::INDEX => 1,
        kind::SLICE => 3,
        kind::LIST => 1,
        kind::BIN => 1,
        kind::UN => 1,
        kind::CASE => 4,
        kind::IS_NULL => 1,
        kind::IN => 1,
        kind::VAR => 0,
        kind::MAP => 1,
        kind::FN => 1,
        kind::PAT => 1,
        kind::LIST_PREDICATE => 2,
        kind::UNRES => 0,
        kind::UNDES => 0,
        _ => 0,
    }
}
