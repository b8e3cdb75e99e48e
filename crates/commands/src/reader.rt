// A command read from the front of some bytes.
ghost use Rattle.std.specs.Prelude.{◌≡◌, ◌+◌, ◌*◌, ◌≤◌, length, slice_index, take, drop};
ghost use Rattle.commands.specs.declared.reader.ReadError.TheVariants.{Invalid};
ghost use Rattle.commands.specs.Kind.{code_of};
ghost use Rattle.commands.specs.Bytes.{list_at, lowered, size_as, action_as, command_at, decode};

use crate::types::{Action, Channel, Command, Kind, MemberId, Refusal, Scene, count_of};
use thiserror::Error;

// Why no command was read.
#[derive(Clone, Copy, Debug, Error)]
pub enum ReadError {
    // there are fewer bytes than the command takes
    #[error("the command is cut short")]
    CutShort,
    // all its bytes are there, and a value among them can't be
    #[error(transparent)]
    Invalid(Refusal),
}

// By hand, since a contract names the error that `?` makes, and a derive states none.
impl From<Refusal> for ReadError {
    ghost from_gives = { λ refusal e. e ≡ Invalid refusal };

    fn from(refusal: Refusal) -> ReadError {
        ReadError::Invalid(refusal)
    }
}

// A step from what stands in the bytes, 2^31 more.
fn lower(n: u32) -> i32
    ensures { result ≡ lowered n }
{
    i32::MIN.wrapping_add_unsigned(n)
}

// How many levels a scene says that it has; a byte that isn't there counts as 0.
fn count_in(bytes: &[u8]) -> usize
    ensures few { result ≤ 255 }
    ensures value { result ≡ slice_index bytes.now 16 }
{
    bytes.get(16).map_or(0, |count| usize::from(*count))
}

// Bytes, and how many of them are read. The place is kept, and not the rest alone, since what is read is said by its place (`at2`, `at4`, `list_at`).
#[derive(Drop)]
struct Reader<'a> {
    bytes: &'a [u8],
    at: usize,
}

impl Reader<'_> {
    fn take<const N: usize>(&mut self) -> [u8; N]
        requires { self.old.at + N ≤ length self.old.bytes.now }
        ensures value { result ≡ take N (drop self.old.at self.old.bytes.now) }
        ensures place { self.new.at ≡ self.old.at + N }
        ensures bytes { self.new.bytes.now ≡ self.old.bytes.now }
    {
        let rest = &self.bytes[self.at..];
        self.at += N;
        *rest.first_chunk().unwrap()
    }

    fn take_levels(&mut self, levels: &mut [u16])
        requires { self.old.at + 2 * length levels.old ≤ length self.old.bytes.now }
        ensures { levels.new ≡ list_at self.old.bytes.now self.old.at (length levels.old) }
    {
        for level in levels.iter_mut() {
            *level = u16::from_be_bytes(self.take());
        }
    }

    // What the bytes behind the kind say.
    fn take_action(&mut self, kind: Kind) -> Result<Action, Refusal>
        requires place { self.old.at ≡ 14 }
        requires whole { size_as (code_of kind) self.old.bytes.now ≤ length self.old.bytes.now }
        ensures { result ≡ action_as (code_of kind) self.old.bytes.now }
    {
        let channel = u16::from_be_bytes(self.take());
        let channel = Channel::try_from(u64::from(channel))?;
        match kind {
            Kind::Set => Ok(Action::Set {
                channel,
                level: u16::from_be_bytes(self.take()),
            }),
            Kind::Move => Ok(Action::Move {
                channel,
                step: lower(u32::from_be_bytes(self.take())),
            }),
            Kind::Scene => {
                let [count] = self.take::<1>();
                let count = count_of(u64::from(count))?;
                let mut levels = [0; 32];
                self.take_levels(&mut levels[..usize::from(count)]);
                Ok(Action::Scene(Scene {
                    first: channel,
                    count,
                    levels,
                }))
            }
        }
    }
}

// The command, all of its bytes being there.
fn get_command(kind: Kind, bytes: &[u8]) -> Result<Command, Refusal>
    requires kind { slice_index bytes.now 13 ≡ code_of kind }
    requires whole { size_as (code_of kind) bytes.now ≤ length bytes.now }
    ensures { result ≡ command_at bytes.now }
{
    let mut reader = Reader { bytes, at: 0 };
    let view = u32::from_be_bytes(reader.take());
    let [member] = reader.take::<1>();
    let number = u32::from_be_bytes(reader.take());
    let stamp = u32::from_be_bytes(reader.take());
    let [_kind] = reader.take::<1>();
    let member = MemberId::try_from(u64::from(member))?;
    let action = reader.take_action(kind)?;
    Command::new(view, member, number, stamp, action)
}

impl Command {
    // The command at the front of some bytes, and how many of them it takes.
    #[tactic(auto, using(crate::proofs::Codes::kind_is, crate::proofs::Codes::kind_known, crate::proofs::Codes::kind_none), unfolding(crate::specs::Bytes::decode))]
    pub fn read(bytes: &[u8]) -> Result<(Command, usize), ReadError>
        ensures { result ≡ decode bytes.now }
    {
        let Some(kind) = bytes.get(13) else {
            return Err(ReadError::CutShort);
        };
        let kind = Kind::try_from(*kind)?;
        let size = kind.size(count_in(bytes));
        if bytes.len() < size {
            return Err(ReadError::CutShort);
        }
        let command = get_command(kind, bytes)?;
        Ok((command, size))
    }
}
