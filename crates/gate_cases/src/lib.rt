// What the programs of the gate share: the texts of a list of cases.
#![tactic(auto)]

pub mod text;
