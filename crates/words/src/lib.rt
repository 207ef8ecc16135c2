// Words that hold records: where a record's words stand.
// Here and in all crates a u32 becomes a usize by `as`, and a number that fits a word a u32: std has no `From` between these, and a cast has to keep its value.
#![tactic(auto)]

pub use records::{Below, Record, Records, RecordsMut};

pub mod field;
pub mod form;
pub mod key;
pub mod kind;
pub mod records;
pub mod sort;
pub mod table;

// A sheet has at most so many records.
pub const MAX_RECORDS: usize = 2048;

// A record has so many words.
pub const RECORD_WORDS: usize = 16;

// The first slice of two holds so many records.
pub const FIRST_RECORDS: usize = 1024;

// A sheet has at most so many bytes, so that a place in it fits a word.
pub const MAX_BYTES: usize = 32768;

// Each work slice has at least so many words.
pub const WORK_WORDS: usize = 16384;

// The calls take trees of at most this depth; `stmt` has depth 1.
pub const MAX_DEPTH: usize = 64;

// A byte has so many values.
pub const BYTE_VALUES: u64 = 256;

// A number of 64 bits is two words: so much is the second one's 1.
pub const TWO_32: u64 = 4294967296;

// The second word of a negative number has this bit.
pub const TOP_BIT: u32 = 2147483648;
