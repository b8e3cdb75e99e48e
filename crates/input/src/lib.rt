// The lines of a stream.
#![tactic(auto)]

ghost use Rattle.std.specs.Prelude.{◌≡◌, ◌==◌, ◌≢◌, ◌<◌, ◌≤◌, ◌-◌, ◌++◌, ℕ, List, All, length, take, slice_index, OnOk, IfOk, IfSome, MatchOption, MatchBool};
ghost use Rattle.std.specs.Borrow.{sem};
ghost use Rattle.std.specs.Io.{StopsAt};
ghost use Rattle.std.specs.Io.BufRead.{strip_last, DropsThrough, Rests};
ghost use Rattle.input.specs.contracts.Lines.{the_row};
ghost use Rattle.input.specs.Line.{most, kept, kept_line, IsPart};

use std::alloc::{AllocError, Global};
use std::io;
use std::io::BufRead;
use text::LONGEST;

// Of a line no more than this is kept: one byte more than a line may have shows that it is too long.
const MOST: usize = LONGEST + 1;

// The lines of a stream, one after the other.
#[derive(Drop)]
pub struct Lines<R> {
    from: R,
    line: Vec<u8>,
}

impl<R: BufRead> Lines<R> {
    pub fn new(heap: Global, from: R) -> Lines<R>
        ensures { result.from ≡ from }
    {
        Lines {
            from,
            line: Vec::new(heap),
        }
    }

    // The next line without its end, as far as it is kept; `None` at the end of the stream. Where reading fails, what was read of the line is lost, and the next
    // call begins where the stream then stands.
    #[tactic(auto, using(crate::proofs::Kept::stripped_line, crate::proofs::Kept::next_known))]
    pub fn next_line(&mut self) -> io::Result<Option<&[u8]>>
        ensures short { IfOk result (λ o. IfSome o (λ line. length line.now ≤ most)) }
        ensures one { IfOk result (λ o. IfSome o (λ line. All (λ b. b ≢ 10) line.now)) }
        ensures* rest { sem 𝓛 (Rests (the_row R.row) self.entry (λ left. OnOk result (DropsThrough (R.remaining self.old.from) (R.remaining left.from) 10))) }
        ensures known { IfOk result (λ o. IfSome (R.remaining self.old.from) (λ xs. MatchOption o (length xs ≡ 0) (λ line. (0 < length xs) × (line.now ≡ kept_line xs)))) }
    {
        self.read()?;
        if self.line.is_empty() {
            return Ok(None);
        }
        Ok(Some(without_end(&self.line)))
    }

    // Reads the next line with its end, as far as it is kept, and passes over the rest; at the end of the stream there is none, and nothing is kept.
    fn read(&mut self) -> io::Result<()>
        ensures short { OnOk result (length self.new.line.items ≤ most) }
        ensures one { OnOk result (StopsAt self.new.line.items 10) }
        ensures known { OnOk result (IfSome (R.remaining self.old.from) (λ xs. (self.new.line.items ≡ kept xs) × MatchBool (length self.new.line.items == 0) (length xs ≡ 0) (0 < length xs))) }
        ensures rest { OnOk result (DropsThrough (R.remaining self.old.from) (R.remaining self.new.from) 10) }
    {
        self.line.clear();
        // Not `take(..).read_until(..)` with a `skip_until` behind it: of the reader under a `Take` std tells no byte past the limit, so `rest` could not be proved.
        for _ in 0..u64::MAX {
            if take_part(&mut self.from, &mut self.line)? {
                return Ok(());
            }
        }
        // No stream has a line of so many parts.
        Err(io::Error::from(io::ErrorKind::TimedOut))
    }
}

// Takes what the reader holds of a line; true where the line or the stream ends there. A plain yes or no: the part itself stands in `line`.
fn take_part<R: BufRead>(from: &mut R, line: &mut Vec<u8>) -> io::Result<bool>
    ensures { IfOk result (λ done. length line.old.items ≤ most → (bs : List ℕ) × IsPart done bs (R.remaining from.old) (R.remaining from.new) × (line.new.items ≡ take most (line.old.items ++ bs))) }
{
    let held = from.fill_buf()?;
    let size = through_end(held);
    let done = size == 0 || held[size - 1] == b'\n';
    keep(line, &held[..size])?;
    from.consume(size);
    Ok(done)
}

// How many bytes stand through the first line feed; all where there is none.
fn through_end(held: &[u8]) -> usize
    ensures within { result ≤ length held.now }
    ensures some { 0 < length held.now → 0 < result }
    ensures before { All (λ b. b ≢ 10) (take (result - 1) held.now) }
    ensures ends { result < length held.now → slice_index held.now (result - 1) ≡ 10 }
{
    held.iter()
        .position(|b| *b == b'\n')
        .map_or(held.len(), |i| i + 1)
}

// A part of a line behind what there is of it, as far as it is kept.
fn keep(line: &mut Vec<u8>, part: &[u8]) -> Result<(), AllocError>
    ensures { OnOk result (length line.old.items ≤ most → line.new.items ≡ take most (line.old.items ++ part.now)) }
{
    let room = MOST.saturating_sub(line.len());
    line.extend_from_slice(&part[..room.min(part.len())])
}

fn without_end(line: &[u8]) -> &[u8]
    ensures { result.now ≡ strip_last 10 line.now }
{
    line.strip_suffix(b"\n").unwrap_or(line)
}
