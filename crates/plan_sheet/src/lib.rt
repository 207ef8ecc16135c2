// Expressions and operators, written off the tables that the lowering leaves.
// Words of records and of operators are u32, places and counts usize: `as` between them, since std has no `From` for these two. What a record says by 0 or 1 goes out as that number, so that no bool stands between.
// A record is made in place, `Record { .. }`, and not by `Records::at`: so what a callee promises of it is said of these records at this place, and no proof carries an equation for it.
#![tactic(auto)]

pub mod behind;
pub mod clause;
pub mod head;
pub mod item;
pub mod measure;
pub mod names;
pub mod op;
pub mod path;
pub mod source;
pub mod write;
