// A line of the plan sheet: its keyword, numbers and names, or the line that the statement sheet has.
#![tactic(auto)]

pub mod copy;
pub mod field;
pub mod keyword;
pub mod row;
