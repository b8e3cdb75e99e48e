// Why a line cannot be read.
#![tactic(auto)]

pub mod unreadable;
