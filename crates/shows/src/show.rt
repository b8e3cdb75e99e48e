// The desks of a show, and what a line does to them.
ghost use Rattle.std.specs.Prelude.{◌≡◌, IfOk, IfSome, is_ok, if◌then◌else◌, string_bytes};
ghost use Rattle.shows.specs.Shows.{action_or, first_other, circle_or, DesksGiven, entered, Called, OfDesk, SettledAs, Carried, CameTo, Played};

use crate::answers::{Answer, PlayError, Refused, Why};
use commands::types::{Action, MemberId, Refusal};
use requests::asked;
use requests::lines::read;
use sha256::digest;
use stage::Stage;
use std::alloc::{AllocError, Global};
use std::fmt;
use text::LONGEST;

// The one desk that plays, by its number.
#[derive(Drop)]
pub struct Show {
    pub(crate) desk: u64,
    pub(crate) stage: Stage,
}

// The action that was asked for, judged by its values. (No `TryFrom`, since both types are of other crates.)
fn action_of(asked: &asked::Action) -> Result<Action, Refusal>
    ensures { result ≡ action_or asked.now }
{
    match asked {
        asked::Action::Set { channel, level } => Action::set(*channel, *level),
        asked::Action::Move { channel, step } => Action::shift(*channel, *step),
        asked::Action::Scene { channel, levels } => Action::scene(*channel, levels),
    }
}

// One desk comes into the show, in no circle.
// (Show and heap go together from here to `play_line`, but the program holds them apart: a struct would only name the pair.)
fn desks<'a>(show: &mut Option<Show>, desks: &[u64], heap: Global) -> Result<Answer, PlayError<'a>>
    ensures { DesksGiven show.old desks.now show.new result }
{
    if show.is_some() {
        return Err(Why::DesksAreGiven.into());
    }
    let [desk] = desks else {
        return Err(Why::OneDeskOnly.into());
    };
    let Ok(member) = MemberId::try_from(*desk) else {
        return Err(Why::NoSuchDesk.into());
    };
    *show = Some(Show {
        desk: *desk,
        stage: Stage::new(heap, member),
    });
    Ok(Answer::Nothing)
}

// The first of some desks that isn't the one in the show.
fn first_other(desk: u64, desks: &[u64]) -> Option<u64>
    ensures { result ≡ first_other desk desks.now }
{
    desks.iter().copied().find(|d| *d != desk)
}

impl Show {
    // Circle 0 is given.
    fn circle<'a>(&mut self, desks: &[u64]) -> Result<Answer, PlayError<'a>>
        ensures value { result ≡ circle_or self.old desks.now }
        ensures after { self.new ≡ (if is_ok result then entered self.old else self.old) }
    {
        if let Some(other) = first_other(self.desk, desks) {
            return Err(Refused::NotInShow(other).into());
        }
        if self.stage.is_inside() {
            return Err(Why::OneCircleOnly.into());
        }
        match desks {
            [] => Err(Why::NoDeskInCircle.into()),
            [_] => {
                self.stage.enter();
                Ok(Answer::Nothing)
            }
            _ => Err(Why::TwiceInCircle.into()),
        }
    }

    fn call<'a>(&mut self, asked: &asked::Action) -> Result<Answer, PlayError<'a>>
        ensures { Called self.old self.new (action_or asked.now) result }
    {
        self.stage.issue(action_of(asked)?)?;
        Ok(Answer::Nothing)
    }

    fn of_desk<'a>(
        &mut self,
        desk: u64,
        request: &asked::DeskRequest,
    ) -> Result<Answer, PlayError<'a>>
        ensures { OfDesk self.old self.new desk request.now result }
    {
        if desk != self.desk {
            return Err(Refused::NotInShow(desk).into());
        }
        match request {
            asked::DeskRequest::Call(action) => self.call(action),
            asked::DeskRequest::Book(channel) => Ok(Answer::Level(self.stage.level(*channel)?)),
            asked::DeskRequest::Done => Ok(Answer::Done(self.stage.done())),
        }
    }

    // Delivers all that waits.
    fn settle(&mut self) -> Answer
        ensures { SettledAs self.old self.new result }
    {
        Answer::Settled(self.stage.settle())
    }
}

// Does what a line asks.
fn carry_out<'a>(
    show: &mut Option<Show>,
    request: &asked::Request,
    heap: Global,
) -> Result<Answer, PlayError<'a>>
    ensures { Carried show.old show.new request.now result }
{
    match request {
        asked::Request::Blank => Ok(Answer::Nothing),
        asked::Request::Desks(given) => desks(show, given, heap),
        asked::Request::Digest(bytes) => Ok(Answer::Digest(digest(bytes))),
        asked::Request::OfDesk(desk, asked) => match show {
            Some(show) => show.of_desk(*desk, asked),
            None => Err(Refused::NotInShow(*desk).into()),
        },
        asked::Request::Circle(told) => match show {
            Some(show) => show.circle(told),
            None => Err(Why::NoDesksYet.into()),
        },
        asked::Request::Settle => match show {
            Some(show) => Ok(show.settle()),
            None => Err(Why::NoDesksYet.into()),
        },
        asked::Request::Show => match show {
            Some(show) => Ok(Answer::Desks(show.to_string(heap)?)),
            None => Err(Why::NoDesksYet.into()),
        },
    }
}

// Does what a line asks, where it can be read.
#[tactic(auto, using(crate::proofs::Lines::not_read))]
fn come_to<'a>(
    show: &mut Option<Show>,
    text: &'a [u8],
    heap: Global,
) -> Result<Answer, PlayError<'a>>
    ensures { CameTo show.old text.now show.new result }
{
    if text.len() > LONGEST {
        return Err(Refused::TooLong.into());
    }
    carry_out(show, &read(text, heap)?, heap)
}

// Enough room for most replies, but for the word that a refusal tells.
const COMMON: usize = 128;

// What a value prints, as a text that is given so much room at once: one that grows by pieces is moved at many of them, and leaves memory in pieces behind.
fn printed<D: fmt::Display + Drop>(
    value: D,
    room: usize,
    heap: Global,
) -> Result<String, AllocError>
    ensures { IfOk result (λ text. IfSome (D.output value) (λ bytes. string_bytes text ≡ bytes)) }
{
    let mut text = String::with_capacity(heap, room)?;
    text.write(value)?;
    Ok(text)
}

// Plays line number `line` of a show: does what its text asks, and says what is answered.
pub fn play_line(
    show: &mut Option<Show>,
    line: u64,
    text: &[u8],
    heap: Global,
) -> Result<String, AllocError>
    ensures { IfOk result (λ reply. Played line text.now show.old show.new (string_bytes reply)) }
{
    match come_to(show, text, heap) {
        Ok(Answer::Nothing) => Ok(String::new(heap)),
        Ok(answer) => printed(answer, COMMON, heap),
        Err(PlayError::Refused(refused)) => {
            let room = COMMON + refused.word().len();
            printed(format_args!("line {line}: {refused}\n"), room, heap)
        }
        Err(PlayError::Memory(error)) => Err(error),
    }
}
