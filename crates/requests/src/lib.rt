// What the lines of the programs ask: lines of bytes read as typed requests.
#![tactic(auto, unfolding(reading::specs::Meaning::Refuses))]

pub mod asked;
pub mod lines;
mod values;
