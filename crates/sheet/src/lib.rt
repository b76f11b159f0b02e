// A turn sheet, played: its lines over any instrument, and a whole sheet over the pile that its heading asks for.
#![tactic(auto)]

pub mod plays;
pub mod sheets;
mod turns;
