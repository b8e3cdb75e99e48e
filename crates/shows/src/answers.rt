// What a line of a show comes to: an answer, or why there is none.
ghost use Rattle.std.specs.Prelude.{◌≡◌, Some};
ghost use Rattle.shows.specs.Failures.{issue_failure, read_failure};
ghost use Rattle.shows.specs.Texts.{why_text, refused_text, word_told, answer_text};
ghost use Rattle.shows.specs.declared.answers.Refused.TheVariants.{Value, Cannot};
ghost use Rattle.shows.specs.declared.answers.PlayError.TheVariants.{Refused as IsRefused, Memory};

use commands::types::Refusal;
use hexadecimal::Hex;
use history::Record;
use reading::unreadable::{ReadError, Reason};
use stage::{IssueError, NotIssued};
use std::alloc::AllocError;
use std::fmt;

// Why a line that was read can't be carried out, beside the refusals of the table.
#[derive(Clone, Copy)]
pub enum Why {
    DesksAreGiven,
    NoDesksYet,
    OneDeskOnly,
    NoSuchDesk,
    NoDeskInCircle,
    TwiceInCircle,
    OneCircleOnly,
}

impl fmt::Display for Why {
    ghost output = { λ w. Some (why_text w) };

    fn fmt<W: fmt::Write>(&self, f: &mut fmt::Formatter<W>) -> fmt::Result {
        f.write_str(match self {
            Why::DesksAreGiven => "the desks are given already",
            Why::NoDesksYet => "no desks yet",
            Why::OneDeskOnly => "only one desk can play yet",
            Why::NoSuchDesk => "desks are 0 to 63",
            Why::NoDeskInCircle => "a circle has at least one desk",
            Why::TwiceInCircle => "a desk stands twice in the circle",
            Why::OneCircleOnly => "only circle 0 can be told yet",
        })
    }
}

// Why a line is refused, which then changes nothing.
#[derive(Clone, Copy)]
pub enum Refused<'a> {
    TooLong,
    Unreadable(Reason<'a>),
    // a value of a call can't be
    Value(Refusal),
    // the desk may not call
    Issue(NotIssued),
    NotInShow(u64),
    Cannot(Why),
}

impl<'a> Refused<'a> {
    // The word that it tells, which may be as long as a line; no bytes where it tells none.
    pub(crate) fn word(self) -> &'a [u8]
        ensures { result.now ≡ word_told self.entry }
    {
        match self {
            Refused::Unreadable(Reason::UnknownWord(word)) => word,
            Refused::Unreadable(Reason::NoNumber(word)) => word,
            Refused::Unreadable(Reason::NoHexadecimal(word)) => word,
            _ => &[],
        }
    }
}

impl<'a> fmt::Display for Refused<'a> {
    ghost output = { λ r. Some (refused_text r) };

    fn fmt<W: fmt::Write>(&self, f: &mut fmt::Formatter<W>) -> fmt::Result {
        match self {
            Refused::TooLong => write!(f, "? line too long"),
            Refused::Unreadable(reason) => write!(f, "? {reason}"),
            Refused::Value(refusal) => write!(f, "turned away {}", refusal.number()),
            Refused::Issue(refusal) => write!(f, "turned away {}", refusal.number()),
            Refused::NotInShow(desk) => write!(f, "desk {desk} is not in this show"),
            Refused::Cannot(why) => write!(f, "? {why}"),
        }
    }
}

// Why a line has no answer: it is refused, or memory was wanting. (`reading` and `stage` have enums of this form too, since the `From` of a generic one for any
// refusal would overlap with that for memory.)
#[derive(Clone, Copy)]
pub enum PlayError<'a> {
    Refused(Refused<'a>),
    Memory(AllocError),
}

// By hand, since a contract names the error that `?` makes, and a derive states none.
impl<'a> From<Refused<'a>> for PlayError<'a> {
    ghost from_gives = { λ r e. e ≡ IsRefused r };

    fn from(refused: Refused<'a>) -> PlayError<'a> {
        PlayError::Refused(refused)
    }
}

impl<'a> From<Why> for PlayError<'a> {
    ghost from_gives = { λ w e. e ≡ IsRefused (Cannot w) };

    fn from(why: Why) -> PlayError<'a> {
        PlayError::Refused(Refused::Cannot(why))
    }
}

impl<'a> From<Refusal> for PlayError<'a> {
    ghost from_gives = { λ r e. e ≡ IsRefused (Value r) };

    fn from(refusal: Refusal) -> PlayError<'a> {
        PlayError::Refused(Refused::Value(refusal))
    }
}

impl<'a> From<IssueError> for PlayError<'a> {
    ghost from_gives = { λ i e. e ≡ issue_failure i };

    fn from(error: IssueError) -> PlayError<'a> {
        match error {
            IssueError::Refused(refusal) => PlayError::Refused(Refused::Issue(refusal)),
            IssueError::Memory(error) => PlayError::Memory(error),
        }
    }
}

impl<'a> From<ReadError<'a>> for PlayError<'a> {
    ghost from_gives = { λ r e. e ≡ read_failure r };

    fn from(error: ReadError<'a>) -> PlayError<'a> {
        match error {
            ReadError::Unreadable(reason) => PlayError::Refused(Refused::Unreadable(reason)),
            ReadError::Memory(error) => PlayError::Memory(error),
        }
    }
}

impl<'a> From<AllocError> for PlayError<'a> {
    ghost from_gives = { λ a e. e ≡ Memory a };

    fn from(error: AllocError) -> PlayError<'a> {
        PlayError::Memory(error)
    }
}

// What a line that is carried out gives.
#[derive(Drop)]
pub enum Answer {
    Nothing,
    Level(u16),
    Done(Record),
    Digest([u8; 32]),
    Settled(u64),
    // the desks' lines
    Desks(String),
}

impl fmt::Display for Answer {
    ghost output = { λ a. Some (answer_text a) };

    fn fmt<W: fmt::Write>(&self, f: &mut fmt::Formatter<W>) -> fmt::Result {
        match self {
            Answer::Nothing => Ok(()),
            Answer::Level(level) => writeln!(f, "{level}"),
            Answer::Done(done) => writeln!(f, "{} {}", done.count, Hex(&done.digest)),
            Answer::Digest(digest) => writeln!(f, "{}", Hex(digest)),
            Answer::Settled(rounds) => writeln!(f, "settled in {rounds} rounds"),
            Answer::Desks(lines) => write!(f, "{lines}"),
        }
    }
}
