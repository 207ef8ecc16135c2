// The reader of a statement sheet: lines into records of words, with a stack of what is due.
#![tactic(auto)]

pub mod reached;
pub mod reader;
mod stack;
