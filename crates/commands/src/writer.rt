// A command's bytes, written to lent memory.
ghost use Rattle.std.specs.Prelude.{◌≡◌, ◌+◌, ◌*◌, ◌≤◌, length, if◌then◌else◌, Some, None};
ghost use Rattle.std.specs.List.{flat_map};
ghost use Rattle.commands.specs.Bytes.{bytes2, raised, head_bytes, action_bytes, encode, over, fits};
ghost use Rattle.commands.specs.Writer.{HasRoom, Puts};

use crate::types::{Action, Command, Kind};

// Lent memory, since this crate has no heap, and how much of its front is written.
#[derive(Drop)]
struct Writer<'a> {
    out: &'a mut [u8],
    at: usize,
}

// A step as it stands in the bytes, with 2^31 added.
fn raise(step: i32) -> u32
    ensures { result ≡ raised step }
{
    step.abs_diff(i32::MIN)
}

impl Writer<'_> {
    #[tactic(auto, using(crate::proofs::Writes::parts))]
    fn put<const N: usize>(&mut self, bytes: [u8; N])
        requires { HasRoom self.old N }
        ensures { Puts self.old self.new bytes.entry }
    {
        self.out[self.at..self.at + N].copy_from_slice(&bytes);
        self.at += N;
    }

    fn put_levels(&mut self, levels: &[u16])
        requires { HasRoom self.old (2 * length levels.now) }
        ensures { Puts self.old self.new (flat_map bytes2 levels.now) }
    {
        for level in levels {
            self.put(level.to_be_bytes());
        }
    }

    // What the command does, its kind first.
    fn put_action(&mut self, action: &Action)
        requires { HasRoom self.old (length (action_bytes action.now)) }
        ensures { Puts self.old self.new (action_bytes action.now) }
    {
        match action {
            Action::Set { channel, level } => {
                self.put([Kind::Set as u8]);
                self.put(channel.index.to_be_bytes());
                self.put(level.to_be_bytes());
            }
            Action::Move { channel, step } => {
                self.put([Kind::Move as u8]);
                self.put(channel.index.to_be_bytes());
                self.put(raise(*step).to_be_bytes());
            }
            Action::Scene(scene) => {
                self.put([Kind::Scene as u8]);
                self.put(scene.first.index.to_be_bytes());
                self.put([scene.count]);
                self.put_levels(scene.levels());
            }
        }
    }

    // What stands before the kind.
    fn put_head(&mut self, command: &Command)
        requires { HasRoom self.old 13 }
        ensures { Puts self.old self.new (head_bytes command.now) }
    {
        self.put(command.view.to_be_bytes());
        self.put([command.member.id]);
        self.put(command.number.to_be_bytes());
        self.put(command.stamp.to_be_bytes());
    }
}

impl Command {
    // How many bytes the command takes, at most 81.
    #[tactic(auto, using(crate::proofs::Writes::sizes), unfolding(crate::specs::Bytes::encode))]
    fn size(&self) -> usize
        ensures bound { result ≤ 81 }
        ensures value { result ≡ length (encode self.now) }
    {
        match &self.action {
            Action::Set { .. } => Kind::Set.size(0),
            Action::Move { .. } => Kind::Move.size(0),
            Action::Scene(scene) => Kind::Scene.size(scene.levels().len()),
        }
    }

    // Writes the command's bytes to the front of `out` and says how many; where they don't fit, `out` stays as it was. 81 places are always enough.
    pub fn write(&self, out: &mut [u8]) -> Option<usize>
        ensures after { out.new ≡ (if fits (encode self.now) out.old then over out.old 0 (encode self.now) else out.old) }
        ensures value { result ≡ (if fits (encode self.now) out.old then Some (length (encode self.now)) else None) }
        ensures room { length (encode self.now) ≤ 81 }
    {
        let size = self.size();
        if out.len() < size {
            return None;
        }
        let mut writer = Writer { out, at: 0 };
        writer.put_head(self);
        writer.put_action(&self.action);
        Some(writer.at)
    }
}
