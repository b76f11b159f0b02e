// A turn: one line and two books. What holds at the end of every turn is in specs/Law.antt.
#![tactic(auto)]

pub mod laws;
pub mod plays;
pub mod refusals;
pub mod rows;
pub mod tallies;
pub mod turns;
