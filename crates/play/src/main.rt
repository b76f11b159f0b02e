// Plays a turn sheet from standard input, and prints its answer, or `no` and the number of its refusal.
#![tactic(auto)]

use sheet::sheets::{MOST_ANSWER, MOST_BYTES, print_sheet};
use std::io;
use std::io::{Read, Write};

fn play(rt: &HostRuntime) -> io::Result<()> {
    let mut sheet = Vec::new(rt.alloc());
    // One byte more than a sheet may have tells that it has too many, however long the input is.
    let mut input = rt.stdin().take(MOST_BYTES as u64 + 1);
    input.read_to_end(&mut sheet)?;
    // On the heap: the sheet is there too, and the stack stays small.
    let mut answer = vec![in rt.alloc(); 0u8; MOST_ANSWER]?;
    let written = print_sheet(&sheet, &mut answer);
    rt.stdout().write_all(&answer[..written])
}

fn main(rt: HostRuntime) -> io::Result<()> {
    play(&rt).inspect_err(|error| {
        let _ = eprintln!(rt; "play: {error}");
    })
}
