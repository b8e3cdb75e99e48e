// Reads the words of a line as values.
ghost use Rattle.std.specs.Prelude.{◌≡◌, vec_items};
ghost use Rattle.std.specs.Iterator.{YieldsFirstRef};
ghost use Rattle.text.specs.Line.{words, plain};
ghost use Rattle.reading.specs.Meaning.{Tells, hex_error};
ghost use Rattle.requests.specs.Values.{a_numeral, the_end, numbers_said, bytes_said};

use hexadecimal::{HexError, unhex};
use reading::unreadable::{ReadError, Reason};
use std::alloc::Global;
use text::numbers::FromWord;
use text::words::Words;

// The words of a line that are still to be read, and the heap for what they say.
#[derive(Drop)]
pub(crate) struct Reader<'a> {
    words: Words<'a>,
    heap: Global,
}

impl<'a> Reader<'a> {
    ghost use Rattle.requests.specs.Reader.{unread};

    pub(crate) fn of(line: &'a [u8], heap: Global) -> Reader<'a>
        ensures { unread result ≡ words (plain line.now) }
    {
        let words = Words::of(line);
        Reader { words, heap }
    }

    // The next word; `None` where there is none.
    pub(crate) fn next(&mut self) -> Option<&'a [u8]>
        ensures { YieldsFirstRef unread self.old result self.new }
    {
        self.words.next()
    }

    // The next word as a number or a step.
    pub(crate) fn take<T: FromWord>(&mut self) -> Result<T, ReadError<'a>>
        ensures { Tells (λ n. (n, unread self.new)) (a_numeral T.word_gives (unread self.old)) result }
    {
        let word = self.next().ok_or(Reason::MissingNumber)?;
        Ok(T::from_word(word).ok_or(Reason::NoNumber(word))?)
    }

    // All words that are left, as numbers.
    pub(crate) fn numbers(self) -> Result<Vec<u64>, ReadError<'a>>
        ensures { Tells vec_items (numbers_said (unread self.entry)) result }
    {
        let mut all = Vec::new(self.heap);
        for word in self.words {
            all.push(u64::from_word(word).ok_or(Reason::NoNumber(word))?)?;
        }
        Ok(all)
    }

    // The one word that is left, as bytes in hexadecimal; no word is no bytes.
    pub(crate) fn bytes(mut self) -> Result<Vec<u8>, ReadError<'a>>
        ensures { Tells vec_items (bytes_said (unread self.entry)) result }
    {
        let Some(word) = self.next() else {
            return Ok(Vec::new(self.heap));
        };
        let all = unhex(word, self.heap).map_err(|e| hex_error(word, e))?;
        self.end()?;
        Ok(all)
    }

    // No word is left.
    pub(crate) fn end(mut self) -> Result<(), ReadError<'a>>
        ensures { Tells (λ u. u) (the_end (unread self.entry)) result }
    {
        match self.next() {
            None => Ok(()),
            Some(_) => Err(Reason::TooManyWords.into()),
        }
    }
}

// Not a `From`, since the reason names the word.
fn hex_error<'a>(word: &'a [u8], e: HexError) -> ReadError<'a>
    ensures { result ≡ hex_error word.entry e }
{
    match e {
        HexError::Odd => Reason::OddHexadecimal.into(),
        HexError::NoDigit => Reason::NoHexadecimal(word).into(),
        HexError::Memory(e) => e.into(),
    }
}
