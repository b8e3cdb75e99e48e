// The commands of a run, made by a simple rule, and what is measured over them.
ghost use Rattle.std.specs.Prelude.{◌≡◌, ◌+◌, ◌/◌, ◌^◌, ◌<◌, ◌≤◌, [], map, pos, ◌-ℤ◌};
ghost use Rattle.history.specs.History.{deliveries, levels_of, record_of};
ghost use Rattle.bench.specs.Work.{next_of, steps_on, draws_from, scene_from, action_from, command_from, checksum_of};

use arrayvec::ArrayVec;
use commands::types::{Action, Command, MemberId, Refusal};
use history::Record;

// Numbers that look random, the same in every run.
#[derive(Drop)]
pub(crate) struct Draws {
    last: u32,
}

impl Draws {
    pub(crate) fn new() -> Draws
        ensures { result.last ≡ 1 }
    {
        Draws { last: 1 }
    }

    // The high half of the generator's next number, since the low bits of such a generator repeat soon.
    fn draw(&mut self) -> u16
        ensures value { result ≡ next_of self.old.last / 65536 }
        ensures after { self.new.last ≡ next_of self.old.last }
    {
        self.last = self.last.wrapping_mul(1664525).wrapping_add(1013904223);
        u16::try_from(self.last / 65536).unwrap()
    }

    // A signed step of 16 bits, of the next draw.
    fn step(&mut self) -> i32
        ensures value { result ≡ pos (next_of self.old.last / 65536) -ℤ pos 32768 }
        ensures after { self.new.last ≡ next_of self.old.last }
    {
        i32::from(self.draw()) - 32768
    }

    // As many draws as asked for.
    #[tactic(auto, unfolding(crate::specs::Work::steps_on, crate::specs::Work::draws_from))]
    fn several(&mut self, count: u16) -> ArrayVec<u64, 32>
        requires { count ≤ 32 }
        ensures drawn { result.items ≡ draws_from self.old.last count }
        ensures after { self.new.last ≡ steps_on self.old.last count }
    {
        let mut all = ArrayVec::new();
        for _ in 0..count {
            all.push(u64::from(self.draw()));
        }
        all
    }
}

// 1 to 32 levels, from a channel on.
fn scene(channel: u64, draws: &mut Draws) -> Result<Action, Refusal>
    ensures { result ≡ scene_from channel draws.old.last }
{
    let count = draws.draw() % 32 + 1;
    Action::scene(channel, draws.several(count).as_slice())
}

// The kinds in turn: one level set, one moved, a scene.
fn action(turn: u32, draws: &mut Draws) -> Result<Action, Refusal>
    ensures { result ≡ action_from turn draws.old.last }
{
    let channel = u64::from(draws.draw() % 512);
    match turn % 3 {
        0 => Action::set(channel, u64::from(draws.draw())),
        1 => Action::shift(channel, draws.step()),
        _ => scene(channel, draws),
    }
}

// The command of a turn, counted from 0: eight members issue in turn.
pub(crate) fn command(turn: u32, draws: &mut Draws) -> Result<Command, Refusal>
    requires { turn + 1 < 2 ^ 32 }
    ensures { result ≡ command_from turn draws.old.last }
{
    let member = MemberId::try_from(u64::from(turn % 8))?;
    let action = action(turn, draws)?;
    Command::new(0, member, turn / 8 + 1, turn + 1, action)
}

// All the commands delivered, one after another, from an empty history on.
pub(crate) fn deliver_all(levels: &mut [u16], commands: &[Command]) -> Record
    ensures { levels.old ≡ levels_of [] → (result ≡ record_of (deliveries commands.now)) × (levels.new ≡ levels_of (deliveries commands.now)) }
{
    Record::new().deliver_all(levels, commands)
}

// One number that most changes of the levels change.
pub(crate) fn checksum(levels: &[u16]) -> u32
    ensures { result ≡ checksum_of levels.now }
{
    levels.iter().fold(0, |sum: u32, level| {
        sum.wrapping_mul(31).wrapping_add(u32::from(*level))
    })
}
