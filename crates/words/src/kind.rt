// The kinds of records, numbered sort by sort, so that a sort's kinds are a range. A record's first word is its kind.
// Numbers and no enum: they stand in lent words, and document 01 has them told apart by a match on a small number.
ghost use Rattle.std.specs.Prelude.{◌≡◌};
ghost use Rattle.words.specs.Count.{is_leaf};

// the statement, an arm of a union
pub const STMT: u32 = 0;

pub const ARM: u32 = 1;

// clauses
pub const MATCH: u32 = 2;

pub const WHERE: u32 = 3;

pub const WITH: u32 = 4;

pub const RETURN: u32 = 5;

pub const UNWIND: u32 = 6;

pub const CALL: u32 = 7;

pub const WRITE: u32 = 8;

// an item, a sort key, a part and its elements, a name, a yield, a name in a map
pub const ITEM: u32 = 9;

pub const KEY: u32 = 10;

pub const PART: u32 = 11;

pub const NODE: u32 = 12;

pub const REL: u32 = 13;

pub const NAME: u32 = 14;

pub const YIELD: u32 = 15;

pub const ENTRY: u32 = 16;

// expressions that are the same record in both sheets
pub const NULL: u32 = 17;

pub const BOOL: u32 = 18;

pub const INT: u32 = 19;

pub const FLOAT: u32 = 20;

pub const STR: u32 = 21;

pub const PARAM: u32 = 22;

pub const PROP: u32 = 23;

pub const INDEX: u32 = 24;

pub const SLICE: u32 = 25;

pub const LIST: u32 = 26;

pub const BIN: u32 = 27;

pub const UN: u32 = 28;

pub const CASE: u32 = 29;

pub const IS_NULL: u32 = 30;

pub const IN: u32 = 31;

// the other expressions
pub const VAR: u32 = 32;

pub const MAP: u32 = 33;

pub const FN: u32 = 34;

pub const PAT: u32 = 35;

pub const LIST_PREDICATE: u32 = 36;

pub const UNRES: u32 = 37;

pub const UNDES: u32 = 38;

// Whether an expression of this kind has none below it, whatever its fields: null to param, and a variable.
pub fn is_leaf(kind: u32) -> bool
    ensures { result ≡ is_leaf kind }
{
    if kind == VAR {
        return true;
    }
    if kind < NULL {
        return false;
    }
    kind < PROP
}
