// Reads a table from standard input, and prints its pairing, or why there is none.
#![tactic(auto)]

use reports::pairing::paired;
use std::io;
use std::io::Read;

// The most bytes that a text may have: over five times what the largest table takes.
const LIMIT: usize = 1_048_576;

fn main(rt: HostRuntime) -> io::Result<()> {
    let heap = rt.alloc();
    let mut input = Vec::new(heap);
    // `as`, since `u64` has no `From<usize>`.
    rt.stdin().take(LIMIT as u64 + 1).read_to_end(&mut input)?;
    if input.len() > LIMIT {
        return println!(rt; "refused text: more than {LIMIT} bytes");
    }
    match paired(heap, input.as_slice()) {
        Ok(report) => println!(rt; "{report}"),
        Err(refusal) => println!(rt; "{refusal}"),
    }
}
