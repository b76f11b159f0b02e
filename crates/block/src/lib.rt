// What a block instrument means: the order of working, its refusals, and the trait that every make implements.
#![tactic(auto)]

pub mod instruments;
pub mod order;
pub mod refusals;
