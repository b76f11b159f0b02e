// What a sheet is answered: its refusals, and the text of each line of the answer.
#![tactic(auto)]

pub mod refusals;
pub mod sections;
pub mod texts;
