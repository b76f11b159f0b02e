// The rules of the line: its calls and signals, what a refusal says, and the slip of an unsealing.
#![tactic(auto)]

pub mod calls;
pub mod refusals;
pub mod signals;
pub mod slips;
