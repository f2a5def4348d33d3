// Rules: numbers that bound what any clique can still gain.
#![tactic(auto)]

pub mod colour;
pub mod flat;
pub mod lesser;
mod noted;
pub mod numbers;
pub mod path;
pub mod rule;
#[cfg(test)]
mod tests;
