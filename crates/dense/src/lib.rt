// A sheet that is copied once, so that each question is one look.
#![tactic(auto)]

pub mod copying;
pub mod sheet;
