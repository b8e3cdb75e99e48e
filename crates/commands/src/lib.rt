// Commands: numbered, stamped changes of 512 channel levels; what each does to the levels, and its bytes.
#![tactic(auto)]

pub mod laws;
pub mod levels;
pub mod reader;
pub mod types;
pub mod writer;
