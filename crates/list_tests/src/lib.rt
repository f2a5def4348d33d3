// Worked block lists: damaged ones, and the longest.
#![tactic(auto)]

#[cfg(test)]
mod tests;
