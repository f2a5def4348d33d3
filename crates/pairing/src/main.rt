// Reads a block list from standard input, and prints its pairing, or why there is none.
#![tactic(auto)]

use list_reports::pairing::pair;
use std::io;
use std::io::Read;

fn main(rt: HostRuntime) -> io::Result<()> {
    let mut input = Vec::new(rt.alloc());
    // One byte more than is accepted tells that there are too many.
    rt.stdin().take(65537).read_to_end(&mut input)?;
    match pair(input.as_slice()) {
        Ok(report) => println!(rt; "{report}"),
        Err(fault) => println!(rt; "{fault}"),
    }
}
