// A turn sheet, read line by line.
#![tactic(auto)]

pub mod calls;
pub mod headings;
pub mod laws;
pub mod lines;
mod reader;
