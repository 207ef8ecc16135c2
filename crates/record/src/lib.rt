// Reading the fields of a sheet's line: each from its own bytes, or in place up to the end of its piece. What each function answers is what the definition reads.
#![tactic(auto)]

pub mod cursor;
pub mod hex;
pub mod int;
pub mod length;
pub mod name;
pub mod number;
pub mod piece;
