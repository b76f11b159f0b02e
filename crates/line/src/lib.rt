// The line, over any block instrument: how each call is worked.
#![tactic(auto)]

pub mod lines;
