// The numbers of the refusals in document 01's table, and that of an answer which is none. The calls answer a Result with an error enum; these are what C is handed for it.
pub const ACCEPTED: u32 = 0;

pub const SHORT_WORK: u32 = 1;

pub const LONG_SHEET: u32 = 2;

pub const BAD_LINE: u32 = 3;

pub const BIG_TREE: u32 = 4;

pub const WRITE_CLAUSE: u32 = 5;

pub const UNRESOLVED_NAME: u32 = 6;

pub const UNDESUGARED_EXPR: u32 = 7;

pub const EMPTY_PATTERN_PART: u32 = 8;

pub const PLAN_FULL: u32 = 9;

pub const NO_ROOM: u32 = 10;
