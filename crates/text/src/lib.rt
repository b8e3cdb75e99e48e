// The text of the programs' lines: words, numbers and steps, read from bytes.
#![tactic(auto)]

pub mod numbers;
pub mod words;

// How long a line may be, in bytes.
pub const LONGEST: usize = 12000000;
