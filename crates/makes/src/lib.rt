// The makes of block instrument, and the fault reader.
#![tactic(auto)]

pub mod faults;
pub mod interlocked;
pub mod piles;
pub mod sections;
pub mod telephone;
