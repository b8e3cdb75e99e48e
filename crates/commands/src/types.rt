// What a command is. Fields are private to the crate: a value is made only by functions that refuse what can't be.
ghost use Rattle.std.specs.Prelude.{◌≡◌, ◌≤◌, length, take};
ghost use Rattle.commands.specs.Kind.{code_of, sized, kind_or};
ghost use Rattle.commands.specs.Values.{row, member_or, channel_or, level_or, count_or, first_high, unless_high, padded, set_or, move_or, scene_or, command_or};

use thiserror::Error;

// One replica, 0 to 63.
#[derive(Clone, Copy)]
pub struct MemberId {
    pub(crate) id: u8,
}

// One channel, 0 to 511.
#[derive(Clone, Copy)]
pub struct Channel {
    pub(crate) index: u16,
}

// Levels for the channels from `first` on: as many as `count` says, 1 to 32. Those past the count are 0, so that one value has one form.
// An array and a count: a command is a fixed value with no heap that is copied freely, and an `ArrayVec` is not `Copy`.
#[derive(Clone, Copy)]
pub struct Scene {
    pub(crate) first: Channel,
    pub(crate) count: u8,
    pub(crate) levels: [u16; 32],
}

// What a command does to the levels.
#[derive(Clone, Copy)]
pub enum Action {
    // one channel to one level
    Set { channel: Channel, level: u16 },
    // one channel by a signed step, stopping at 0 and 65,535
    Move { channel: Channel, step: i32 },
    // neighbouring channels to levels of their own
    Scene(Scene),
}

impl Scene {
    // The levels, one for each channel from the first on.
    pub(crate) fn levels(&self) -> &[u16]
        ensures few { length result.now ≤ 32 }
        ensures value { result.now ≡ take self.now.count self.now.levels }
    {
        // `min`, since no ghost field holds that the count is at most 32: every definition that builds a scene would owe a proof (docs/DECISIONS.md)
        &self.levels[..usize::from(self.count).min(32)]
    }
}

// The kind of an action, by its number in the bytes.
#[derive(Clone, Copy)]
pub(crate) enum Kind {
    Set = 1,
    Move = 2,
    Scene = 3,
}

impl Kind {
    // How many bytes a command of this kind takes, where a scene has so many levels.
    pub(crate) fn size(self, levels: usize) -> usize
        requires { levels ≤ 255 }
        ensures { result ≡ sized (code_of self) levels }
    {
        match self {
            Kind::Set => 18,
            Kind::Move => 20,
            Kind::Scene => 17 + 2 * levels,
        }
    }
}

impl TryFrom<u8> for Kind {
    type Error = Refusal;

    ghost try_from_gives = { λ code r. r ≡ kind_or code };

    fn try_from(code: u8) -> Result<Kind, Refusal> {
        match code {
            1 => Ok(Kind::Set),
            2 => Ok(Kind::Move),
            3 => Ok(Kind::Scene),
            _ => Err(Refusal::Kind(code)),
        }
    }
}

// One numbered, stamped state change: in which view it was issued, by whom, its number of those (from 1), and its Lamport stamp.
#[derive(Clone, Copy)]
pub struct Command {
    pub(crate) view: u32,
    pub(crate) member: MemberId,
    pub(crate) number: u32,
    pub(crate) stamp: u32,
    pub(crate) action: Action,
}

// A value that can't be, and which.
#[derive(Clone, Copy, Debug, Error)]
pub enum Refusal {
    #[error("there is no member {0}")]
    Member(u64),
    #[error("no command has number {0}")]
    Number(u32),
    #[error("no command has stamp {0}")]
    Stamp(u32),
    #[error("there is no kind {0} of commands")]
    Kind(u8),
    #[error("there is no channel {0}")]
    Channel(u64),
    #[error("there is no level {0}")]
    Level(u64),
    #[error("no scene has {0} levels")]
    LevelCount(u64),
}

impl Refusal {
    // The refusal's number in the table of refusals, which is what the programs print of it.
    pub fn number(self) -> u8
        ensures { result ≡ (row self).0 }
    {
        match self {
            Refusal::Member(_)
            | Refusal::Number(_)
            | Refusal::Stamp(_)
            | Refusal::Kind(_)
            | Refusal::Channel(_)
            | Refusal::Level(_)
            | Refusal::LevelCount(_) => 2,
        }
    }
}

// Member, channel and count are judged each by itself: a function for all three would hand back a number that is narrowed once more.
impl TryFrom<u64> for MemberId {
    type Error = Refusal;

    ghost try_from_gives = { λ id r. r ≡ member_or id };

    fn try_from(id: u64) -> Result<MemberId, Refusal> {
        match u8::try_from(id) {
            Ok(id) if id <= 63 => Ok(MemberId { id }),
            _ => Err(Refusal::Member(id)),
        }
    }
}

impl TryFrom<u64> for Channel {
    type Error = Refusal;

    ghost try_from_gives = { λ index r. r ≡ channel_or index };

    fn try_from(index: u64) -> Result<Channel, Refusal> {
        match u16::try_from(index) {
            Ok(index) if index <= 511 => Ok(Channel { index }),
            _ => Err(Refusal::Channel(index)),
        }
    }
}

impl Channel {
    // The channel's place among the levels of a desk.
    pub fn index(self) -> u16
        ensures { result ≡ self.index }
    {
        self.index
    }
}

// A function, since `u16` is not ours: no `TryFrom` of it can refuse with our error.
fn level_of(level: u64) -> Result<u16, Refusal>
    ensures { result ≡ level_or level }
{
    u16::try_from(level).map_err(|_| Refusal::Level(level))
}

// A function, since `u8` is not ours either.
pub(crate) fn count_of(count: u64) -> Result<u8, Refusal>
    ensures { result ≡ count_or count }
{
    match u8::try_from(count) {
        Ok(count) if 1 <= count && count <= 32 => Ok(count),
        _ => Err(Refusal::LevelCount(count)),
    }
}

// A scene's places, filled from the front.
#[tactic(auto, using(crate::proofs::Places::places))]
fn places_of(levels: &[u64]) -> Result<[u16; 32], Refusal>
    requires { length levels.now ≤ 32 }
    ensures { result ≡ unless_high (first_high levels.now) (padded levels.now) }
{
    let mut places = [0; 32];
    // by index: of places that `iter_mut` lends to a `zip`, a proof knows only how many there are (that form was tried in `sha256`'s schedule)
    for (k, level) in levels.iter().enumerate() {
        places[k] = level_of(*level)?;
    }
    Ok(places)
}

impl Action {
    pub fn set(channel: u64, level: u64) -> Result<Action, Refusal>
        ensures { result ≡ set_or channel level }
    {
        let channel = Channel::try_from(channel)?;
        let level = level_of(level)?;
        Ok(Action::Set { channel, level })
    }

    pub fn shift(channel: u64, step: i32) -> Result<Action, Refusal>
        ensures { result ≡ move_or channel step }
    {
        let channel = Channel::try_from(channel)?;
        Ok(Action::Move { channel, step })
    }

    pub fn scene(first: u64, levels: &[u64]) -> Result<Action, Refusal>
        ensures { result ≡ scene_or first levels.now }
    {
        let first = Channel::try_from(first)?;
        // `as`, since no `From` makes a `u64` of a `usize`, and a `try_from` that is then unwrapped would be no plainer
        let count = count_of(levels.len() as u64)?;
        let levels = places_of(levels)?;
        Ok(Action::Scene(Scene {
            first,
            count,
            levels,
        }))
    }
}

impl Command {
    pub fn new(
        view: u32,
        member: MemberId,
        number: u32,
        stamp: u32,
        action: Action,
    ) -> Result<Command, Refusal>
        ensures { result ≡ command_or view member number stamp action }
    {
        if number == 0 {
            Err(Refusal::Number(number))
        } else if stamp == 0 {
            Err(Refusal::Stamp(stamp))
        } else {
            Ok(Command {
                view,
                member,
                number,
                stamp,
                action,
            })
        }
    }
}
