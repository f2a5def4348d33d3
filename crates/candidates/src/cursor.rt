// A walk through the members of a set, upwards.
ghost use Rattle.std.specs.Prelude.{◌<◌};

pub mod steps;

// The words of the set, the place of the current one, and what is left of that one.
#[derive(Drop)]
pub struct Members {
    words: [u64; 4],
    place: usize,
    word: u64,
    ghost inside: { place < 4 },
}
