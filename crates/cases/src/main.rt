// Plays worked examples, and compares each answer with the one that it must have: prints a line for each example, and ends with
// an error at the first that differs.
#![tactic(auto)]

use crate::cases::check;
use crate::limits::check_limits;
use crate::sheets::SHEETS;
use crate::turns::check_turns;

mod cases;
mod limits;
mod sheets;
mod turns;

fn main(rt: HostRuntime) -> anyhow::Result<()> {
    for case in SHEETS {
        check(&rt, case)?;
    }
    check_limits(&rt)?;
    check_turns(&rt)
}
