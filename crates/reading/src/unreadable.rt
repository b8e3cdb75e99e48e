// Why a line cannot be read.
ghost use Rattle.std.specs.Prelude.{◌≡◌, ◌≤◌, ◌++◌, length, Some, is_ok, if◌then◌else◌};
ghost use Rattle.std.specs.Allocator.{alloc_error};
ghost use Rattle.std.specs.Fmt.{WritesOnOk};
ghost use Rattle.std.specs.Option.{option_map};
ghost use Rattle.reading.specs.Shown.{Appended, shown, printable, in_quotes, what_of, word_of, text_of};
ghost use Rattle.reading.specs.Meaning.{why_of};
ghost use Rattle.reading.specs.declared.unreadable.ReadError.TheVariants.{Unreadable, Memory};

use std::alloc::{AllocError, AllocFailed};
use std::{fmt, str};
use thiserror::Error;

// The word is the one that stood there.
#[derive(Clone, Copy, Debug)]
pub enum Reason<'a> {
    UnknownWord(&'a [u8]),
    MissingWord,
    NoNumber(&'a [u8]),
    MissingNumber,
    TooManyWords,
    OddHexadecimal,
    NoHexadecimal(&'a [u8]),
}

impl<'a> Reason<'a> {
    // Appends the reason as plain text. Where memory fails, `out` is as it was.
    // (Not a text made first by `Display`: for short words that takes four to thirteen times as long, for long ones up to twice the memory.)
    pub fn write(self, out: &mut Vec<u8>) -> Result<(), AllocError>
        ensures { out.new.items ≡ (if is_ok result then out.old.items ++ text_of (why_of self.entry) else out.old.items) }
    {
        let before = out.len();
        let done = append(self, out);
        if done.is_err() {
            out.truncate(before);
        }
        done
    }

    fn what(self) -> &'static [u8]
        ensures { result.now ≡ what_of (why_of self.entry) }
    {
        match self {
            Reason::UnknownWord(_) => b"unknown word",
            Reason::MissingWord => b"missing word",
            Reason::NoNumber(_) => b"no number",
            Reason::MissingNumber => b"missing number",
            Reason::TooManyWords => b"too many words",
            Reason::OddHexadecimal => b"odd hexadecimal",
            Reason::NoHexadecimal(_) => b"no hexadecimal",
        }
    }

    // The word that stood there.
    fn word(self) -> Option<&'a [u8]>
        ensures { option_map (λ w. w.now) result ≡ word_of (why_of self.entry) }
    {
        match self {
            Reason::UnknownWord(word) => Some(word),
            Reason::NoNumber(word) => Some(word),
            Reason::NoHexadecimal(word) => Some(word),
            Reason::MissingWord => None,
            Reason::MissingNumber => None,
            Reason::TooManyWords => None,
            Reason::OddHexadecimal => None,
        }
    }
}

// The same as `write`, but for what it leaves where memory fails: some of the text may stand behind what `out` held.
fn append(reason: Reason<'_>, out: &mut Vec<u8>) -> Result<(), AllocError>
    ensures { Appended out.old.items (text_of (why_of reason.entry)) result out.new.items }
{
    out.extend_from_slice(reason.what())?;
    match reason.word() {
        Some(word) => quoted(out, word),
        None => Ok(()),
    }
}

// A blank, and the word in quotes.
fn quoted(out: &mut Vec<u8>, word: &[u8]) -> Result<(), AllocError>
    ensures { Appended out.old.items (in_quotes word.now) result out.new.items }
{
    out.extend_from_slice(b" '")?;
    push_printable(out, word)?;
    out.extend_from_slice(b"'")
}

// Each byte, or `?` in place of one that does not print.
fn push_printable(out: &mut Vec<u8>, word: &[u8]) -> Result<(), AllocError>
    ensures { Appended out.old.items (printable word.now) result out.new.items }
{
    for b in word {
        out.push(shown(*b))?;
    }
    Ok(())
}

impl<'a> fmt::Display for Reason<'a> {
    ghost output = { λ r. Some (text_of (why_of r)) };

    #[tactic(auto, unfolding(crate::specs::Shown::text_of, crate::specs::Shown::in_quotes))]
    fn fmt<W: fmt::Write>(&self, f: &mut fmt::Formatter<W>) -> fmt::Result {
        match *self {
            Reason::UnknownWord(word) => write!(f, "unknown word '{}'", Printable(word)),
            Reason::MissingWord => write!(f, "missing word"),
            Reason::NoNumber(word) => write!(f, "no number '{}'", Printable(word)),
            Reason::MissingNumber => write!(f, "missing number"),
            Reason::TooManyWords => write!(f, "too many words"),
            Reason::OddHexadecimal => write!(f, "odd hexadecimal"),
            Reason::NoHexadecimal(word) => write!(f, "no hexadecimal '{}'", Printable(word)),
        }
    }
}

// A word with `?` in place of each byte that does not print.
#[derive(Clone, Copy)]
struct Printable<'a>(&'a [u8]);

// How many bytes of a word are written at a time: a call of a writer takes as long as a good many bytes.
const PART: usize = 64;

impl<'a> fmt::Display for Printable<'a> {
    ghost output = { λ w. Some (printable w.0.now) };

    fn fmt<W: fmt::Write>(&self, f: &mut fmt::Formatter<W>) -> fmt::Result {
        for part in self.0.chunks(PART) {
            write_shown(part, f)?;
        }
        Ok(())
    }
}

// Writes a part of a word, as it is shown.
#[tactic(auto, unfolding(crate::specs::Shown::printable))]
fn write_shown<W: fmt::Write>(part: &[u8], f: &mut fmt::Formatter<W>) -> fmt::Result
    requires { length part.now ≤ PART }
    ensures { WritesOnOk W.write_str_gives f.old result (printable part.now) f.new }
{
    let mut room = [0; PART];
    let mut len = 0;
    for b in part {
        room[len] = shown(*b);
        len += 1;
    }
    f.write_str(str::from_utf8(&room[..len]).unwrap())
}

fn shown(b: u8) -> u8
    ensures { result ≡ shown b }
{
    match b {
        b' '..=b'~' => b,
        _ => b'?',
    }
}

// Why a line was not read.
#[derive(Clone, Copy, Debug, Error)]
pub enum ReadError<'a> {
    #[error("{0}")]
    Unreadable(Reason<'a>),
    #[error(transparent)]
    Memory(AllocError),
}

// By hand, since a contract names the error that `?` makes, and a derive states none. Memory fails with two errors: alone, and with what could not be pushed.
impl<'a> From<Reason<'a>> for ReadError<'a> {
    ghost from_gives = { λ reason r. r ≡ Unreadable reason };

    fn from(reason: Reason<'a>) -> ReadError<'a> {
        ReadError::Unreadable(reason)
    }
}

impl<'a> From<AllocError> for ReadError<'a> {
    ghost from_gives = { λ e r. r ≡ Memory e };

    fn from(e: AllocError) -> ReadError<'a> {
        ReadError::Memory(e)
    }
}

impl<'a, T: Drop> From<AllocFailed<T>> for ReadError<'a> {
    ghost from_gives = { λ _ r. r ≡ Memory alloc_error };

    fn from(e: AllocFailed<T>) -> ReadError<'a> {
        ReadError::Memory(e.into())
    }
}
