// The trains on the line: where each is, and the table of their records.
#![tactic(auto)]

pub mod places;
pub mod table;
