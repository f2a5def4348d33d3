// Worked lists of calls on a search.
#![tactic(auto)]

#[cfg(test)]
mod tests;
