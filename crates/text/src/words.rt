// The words of a line.
ghost use Rattle.std.specs.Prelude.{◌≡◌, ◌<◌, ◌≤◌, true, false, ◌++◌, length, take, drop, slice_index};
ghost use Rattle.std.specs.Iterator.{item_count};
ghost use Rattle.text.specs.Line.{blank, ended, words, before_comment, without_return, plain};
ghost use Rattle.text.specs.Cursor.{left, Next};

// The words of a line that are still to be read.
#[derive(Drop)]
pub struct Words<'a> {
    rest: &'a [u8],
}

impl<'a> Words<'a> {
    // All words of a line, whose line feed is cut off.
    #[tactic(auto, unfolding(crate::specs::Line::plain))]
    pub fn of(line: &'a [u8]) -> Words<'a>
        ensures { left result ≡ words (plain line.now) }
    {
        let bare = without_return(line);
        let rest = &bare[..before_comment(bare)];
        Words { rest }
    }
}

impl<'a> Iterator for Words<'a> {
    type Item = &'a [u8];

    ghost next_gives = { Next };

    ghost remaining = { item_count left };

    // The next word; `None` where there is none.
    #[tactic(auto, using(crate::proofs::Bytes::some_word, crate::proofs::Bytes::word_shorter, crate::proofs::Bytes::no_word))]
    fn next(&mut self) -> Option<&'a [u8]> {
        let line = self.rest;
        let start = blanks(line);
        let from = &line[start..];
        let end = solid(from);
        if end == 0 {
            return None;
        }
        self.rest = &from[end..];
        Some(&from[..end])
    }
}

#[tactic(auto, using(crate::proofs::Bytes::return_off))]
fn without_return(line: &[u8]) -> &[u8]
    ensures { result.now ≡ without_return line.now }
{
    line.strip_suffix(b"\r").unwrap_or(line)
}

// How many bytes stand before the first `#`. This, `blanks` and `solid` are one call each, and their clauses are their own, so one function for all three is no plainer.
#[tactic(auto, using(crate::proofs::Bytes::comment_cut))]
fn before_comment(bytes: &[u8]) -> usize
    ensures within { result ≤ length bytes.now }
    ensures front { take result bytes.now ≡ before_comment bytes.now }
{
    bytes.iter().position(|b| *b == b'#').unwrap_or(bytes.len())
}

// Space and tab stand between words.
fn is_blank(b: u8) -> bool
    ensures { result ≡ blank b }
{
    matches!(b, b' ' | b'\t')
}

// How many blanks stand at the front.
#[tactic(auto, using(crate::proofs::Bytes::blanks_skipped))]
fn blanks(bytes: &[u8]) -> usize
    ensures within { result ≤ length bytes.now }
    ensures same { words (drop result bytes.now) ≡ words bytes.now }
    ensures stops { result < length bytes.now → blank (slice_index bytes.now result) ≡ false }
{
    bytes
        .iter()
        .position(|b| !is_blank(*b))
        .unwrap_or(bytes.len())
}

// How many bytes at the front are no blanks.
#[tactic(auto, using(crate::proofs::Bytes::solid_splits))]
fn solid(bytes: &[u8]) -> usize
    ensures within { result ≤ length bytes.now }
    ensures splits { words bytes.now ≡ ended (take result bytes.now) ++ words (drop result bytes.now) }
    ensures stops { result < length bytes.now → blank (slice_index bytes.now result) ≡ true }
{
    bytes
        .iter()
        .position(|b| is_blank(*b))
        .unwrap_or(bytes.len())
}
