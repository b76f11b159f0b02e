// A worked example, and how it is compared.
use anyhow::ensure;
use sheet::sheets::{MOST_ANSWER, print_sheet};
use std::io;
use std::io::Write;

#[derive(Drop)]
pub struct Case<'a> {
    pub what: &'static str,
    pub sheet: &'a [u8],
    pub answer: &'a [u8],
}

// Prints what was compared; a difference is an error.
pub fn tell(rt: &impl Print, what: &str, same: bool) -> anyhow::Result<()> {
    let outcome = if same { "same" } else { "differs" };
    println!(rt; "{what} ({outcome})")?;
    ensure!(same, "an answer differs");
    Ok(())
}

// An answer that differs is printed too.
pub fn compare(rt: &impl Print, case: &Case<'_>, answer: &[u8]) -> anyhow::Result<()> {
    let same = answer == case.answer;
    if !same {
        io::writer(rt).write_all(answer)?;
    }
    tell(rt, case.what, same)
}

// Plays a sheet, and compares its whole answer, or the refusal of the whole sheet.
pub fn check(rt: &impl Print, case: &Case<'_>) -> anyhow::Result<()> {
    let mut answer = [0u8; MOST_ANSWER];
    let written = print_sheet(case.sheet, &mut answer);
    compare(rt, case, &answer[..written])
}
