// What an action does to the levels.
ghost use Rattle.std.specs.Prelude.{◌≡◌};
ghost use Rattle.commands.specs.Levels.{applied, moved, filled};

use crate::types::{Action, Command};

// A level moved by a signed step, stopping at 0 and 65,535.
fn stepped(level: u16, step: i32) -> u16
    ensures { result ≡ moved level step }
{
    let sum = i64::from(level) + i64::from(step);
    u16::try_from(sum.clamp(0, 65535)).unwrap()
}

// Values into the channels from `first` on; those past the last channel are left out.
#[tactic(auto, using(crate::proofs::Fills::fills))]
fn fill(levels: &mut [u16], first: u16, values: &[u16])
    ensures { levels.new ≡ filled levels.old first values.now }
{
    let first = usize::from(first).min(levels.len());
    let count = values.len().min(levels.len() - first);
    levels[first..first + count].copy_from_slice(&values[..count]);
}

impl Command {
    // The command done to the levels, of which a desk has 512. A channel past the end of `levels` has no place there, and is left out.
    #[tactic(auto, using(std::proofs::lemmas::List::set_past))]
    pub fn apply(&self, levels: &mut [u16])
        ensures { levels.new ≡ applied self.now.action levels.old }
    {
        match &self.action {
            Action::Set { channel, level } => {
                let at = usize::from(channel.index);
                if at < levels.len() {
                    levels[at] = *level;
                }
            }
            Action::Move { channel, step } => {
                let at = usize::from(channel.index);
                if at < levels.len() {
                    levels[at] = stepped(levels[at], *step);
                }
            }
            Action::Scene(scene) => fill(levels, scene.first.index, scene.levels()),
        }
    }
}
