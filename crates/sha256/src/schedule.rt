// The message schedule: the 64 words that the rounds over one block take in.
ghost use Rattle.std.specs.Prelude.{◌≡◌};
ghost use Rattle.sha256.specs.Sha256.{later_word};
ghost use Rattle.sha256.specs.Sha256.{schedule as schedule_of};

use crate::word::small_sigma;

// Word t of the schedule, from the 2nd, 7th, 15th and 16th word before it.
fn later_word(w2: u32, w7: u32, w15: u32, w16: u32) -> u32
    ensures { result ≡ later_word w2 w7 w15 w16 }
{
    small_sigma::<17, 19, 10>(w2)
        .wrapping_add(w7)
        .wrapping_add(small_sigma::<7, 18, 3>(w15))
        .wrapping_add(w16)
}

// The whole schedule of a block: its own 16 words, and 48 that follow from them.
// The 16 are filled by place (tried: of places that `iter_mut` lends to a `zip`, a proof knows only how many there are).
// The 48 are counted: each is made of four before it in the same array, so no iterator can lend the array. Two loops and not one, for speed alone:
// clang unrolls eight (with one loop over all 48 the hash takes three to four percent longer).
pub(crate) fn schedule(block: &[u8; 64]) -> [u32; 64]
    ensures { result ≡ schedule_of block.now 64 }
{
    let mut w = [0; 64];
    'message: for (t, word) in block.as_chunks::<4>().0.iter().enumerate() {
        w[t] = u32::from_be_bytes(*word);
    }
    'eights: for i in 2..8 {
        'later: for t in 8 * i..8 * i + 8 {
            w[t] = later_word(w[t - 2], w[t - 7], w[t - 15], w[t - 16]);
        }
    }
    w
}
