// Where a record's fields stand among its words: field g is words 2g + 2 and 2g + 3. A text's second word is its end, that of a span too; a variable that may be absent has a flag first.
// Flags are 0 or 1, a variable that may be absent is a flag and an id, and a part's `shortest` is 0, 1 or 2 (all), since these are words of the work slices, which C lends.

// of every record: its kind, where its line begins in the sheet and where it ends, behind its line feed, and how many children it has
pub const KIND: usize = 0;

pub const LINE_START: usize = 1;

pub const CHILDREN: usize = 14;

pub const LINE_END: usize = 15;

// of the statement and of an arm
pub const STMT_CLAUSES: usize = 2;

pub const STMT_ARMS: usize = 4;

pub const ARM_ALL: usize = 2;

pub const ARM_CLAUSES: usize = 4;

// of clauses
pub const MATCH_OPTIONAL: usize = 2;

pub const MATCH_PARTS: usize = 4;

pub const MATCH_SPAN: usize = 6;

pub const WHERE_SPAN: usize = 2;

pub const WRITE_SPAN: usize = 2;

pub const UNWIND_VAR: usize = 2;

pub const UNWIND_SPAN: usize = 4;

pub const CALL_NAME: usize = 2;

pub const CALL_ARGS: usize = 4;

pub const CALL_YIELDS: usize = 6;

pub const CALL_OPTIONAL: usize = 8;

pub const CALL_SPAN: usize = 10;

// of a `with` and a `return` alike; the flag is the one's filter and the other's distinct
pub const ITEMS: usize = 2;

pub const WITH_FILTER: usize = 4;

pub const RETURN_DISTINCT: usize = 4;

pub const KEYS: usize = 6;

pub const SKIP: usize = 8;

pub const LIMIT: usize = 10;

pub const PROJECTION_SPAN: usize = 12;

// of what stands below clauses
pub const ITEM_ALIAS: usize = 2;

pub const YIELD_NAME: usize = 2;

pub const YIELD_VAR: usize = 4;

// of a part and its elements
pub const PART_NAMED: usize = 2;

pub const PART_VAR: usize = 3;

pub const PART_SHORTEST: usize = 4;

pub const PART_ELEMENTS: usize = 6;

pub const NODE_LABELS: usize = 4;

pub const NODE_PROPS: usize = 6;

pub const NODE_SPAN: usize = 8;

pub const REL_TYPES: usize = 4;

pub const REL_DIRECTION: usize = 6;

pub const REL_LENGTH: usize = 8;

pub const REL_PROPS: usize = 10;

pub const REL_SPAN: usize = 12;

// of a node and a rel alike: whether it has a variable, and which
pub const ELEMENT_NAMED: usize = 2;

pub const ELEMENT_VAR: usize = 3;

// of expressions
pub const NAME: usize = 2;

// an int's number has two words
pub const INT_LOW: usize = 2;

pub const INT_HIGH: usize = 3;

pub const VAR_ID: usize = 2;

pub const FN_ARGS: usize = 4;

pub const FN_DISTINCT: usize = 6;

pub const LIST_PREDICATE_KIND: usize = 2;

pub const LIST_PREDICATE_VAR: usize = 4;

pub const LIST_PREDICATE_PRED: usize = 6;

pub const UNDES_KIND: usize = 2;
