// A show: what its lines do to the desks on the stage, and what is answered.
#![tactic(auto)]

mod answers;
mod desk_line;
pub mod show;
