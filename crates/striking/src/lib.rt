// A layer over any sheet, in which candidates are struck and restored.
#![tactic(auto)]

pub mod fault;
pub mod layer;
pub mod moves;
#[cfg(test)]
mod tests;
