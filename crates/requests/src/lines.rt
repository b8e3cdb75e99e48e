// Reads the lines of a show.
ghost use Rattle.text.specs.Line.{words, plain};
ghost use Rattle.reading.specs.Meaning.{Tells};
ghost use Rattle.requests.specs.Grammar.{set_said, move_said, scene_said, action_said, book_said, desk_said, word_said, said};
ghost use Rattle.requests.specs.Meaning.{action_meant, desk_meant, meant};
ghost use Rattle.requests.specs.Reader.{unread};

use crate::asked::{Action, DeskRequest, Request};
use crate::values::Reader;
use reading::unreadable::{ReadError, Reason};
use std::alloc::Global;
use text::numbers::FromWord;

// What a line of a show asks.
pub fn read<'a>(line: &'a [u8], heap: Global) -> Result<Request, ReadError<'a>>
    ensures { Tells meant (said (words (plain line.now))) result }
{
    let mut rest = Reader::of(line, heap);
    let Some(word) = rest.next() else {
        return Ok(Request::Blank);
    };
    request(word, rest)
}

// What the line asks whose first word is `word`. A `match` on so many and so long names was tried: its proof does not close.
fn request<'a>(word: &'a [u8], rest: Reader<'a>) -> Result<Request, ReadError<'a>>
    ensures { Tells meant (word_said word.now (unread rest.entry)) result }
{
    if word == b"desks".as_slice() {
        Ok(Request::Desks(rest.numbers()?))
    } else if word == b"circle".as_slice() {
        Ok(Request::Circle(rest.numbers()?))
    } else if word == b"settle".as_slice() {
        rest.end()?;
        Ok(Request::Settle)
    } else if word == b"show".as_slice() {
        rest.end()?;
        Ok(Request::Show)
    } else if word == b"digest".as_slice() {
        Ok(Request::Digest(rest.bytes()?))
    } else {
        let desk = u64::from_word(word).ok_or(Reason::UnknownWord(word))?;
        Ok(Request::OfDesk(desk, desk_request(rest)?))
    }
}

// What one desk is asked by the words that are left.
fn desk_request<'a>(mut rest: Reader<'a>) -> Result<DeskRequest, ReadError<'a>>
    ensures { Tells desk_meant (desk_said (unread rest.entry)) result }
{
    let word = rest.next().ok_or(Reason::MissingWord)?;
    match word {
        b"call" => Ok(DeskRequest::Call(action(rest)?)),
        b"book" => book(rest),
        b"done" => {
            rest.end()?;
            Ok(DeskRequest::Done)
        }
        _ => Err(Reason::UnknownWord(word).into()),
    }
}

fn book<'a>(mut rest: Reader<'a>) -> Result<DeskRequest, ReadError<'a>>
    ensures { Tells desk_meant (book_said (unread rest.entry)) result }
{
    let channel = rest.take()?;
    rest.end()?;
    Ok(DeskRequest::Book(channel))
}

fn action<'a>(mut rest: Reader<'a>) -> Result<Action, ReadError<'a>>
    ensures { Tells action_meant (action_said (unread rest.entry)) result }
{
    let word = rest.next().ok_or(Reason::MissingWord)?;
    match word {
        b"set" => set(rest),
        b"move" => shift(rest),
        b"scene" => scene(rest),
        _ => Err(Reason::UnknownWord(word).into()),
    }
}

// `set` and `shift` differ only in the variant that they make: one function for both would have to be handed the variant and its meaning, and is no plainer.
fn set<'a>(mut rest: Reader<'a>) -> Result<Action, ReadError<'a>>
    ensures { Tells action_meant (set_said (unread rest.entry)) result }
{
    let channel = rest.take()?;
    let level = rest.take()?;
    rest.end()?;
    Ok(Action::Set { channel, level })
}

fn shift<'a>(mut rest: Reader<'a>) -> Result<Action, ReadError<'a>>
    ensures { Tells action_meant (move_said (unread rest.entry)) result }
{
    let channel = rest.take()?;
    let step = rest.take()?;
    rest.end()?;
    Ok(Action::Move { channel, step })
}

fn scene<'a>(mut rest: Reader<'a>) -> Result<Action, ReadError<'a>>
    ensures { Tells action_meant (scene_said (unread rest.entry)) result }
{
    let channel = rest.take()?;
    let levels = rest.numbers()?;
    Ok(Action::Scene { channel, levels })
}
