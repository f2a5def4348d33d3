// Tries the rules and the search on many made sheets against every clique, and prints how often each promise held.
#![tactic(auto)]

mod counts;
mod gains;
mod made;
mod random;
mod rule_trials;
mod search_trials;

use rule_trials::Tally;
use search_trials::Searches;
use std::io;

fn main(rt: HostRuntime) -> io::Result<()> {
    let tally = Tally::run(rt.alloc())?;
    println!(rt; "{tally}")?;
    let searches = Searches::run(rt.alloc())?;
    println!(rt; "{searches}")
}
