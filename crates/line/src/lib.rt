// One line of a statement sheet, read into the words of a record.
#![tactic(auto)]

pub mod field;
pub mod form;
pub mod group;
pub mod kind;
pub mod place;
pub mod read;
