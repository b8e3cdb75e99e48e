// The compression function: 64 rounds over a block's schedule, and the hash value that they change.
ghost use Rattle.std.specs.Prelude.{◌≡◌, fold};
ghost use Rattle.std.specs.List.{zip};
ghost use Rattle.std.specs.Simd.{first_chunks};
ghost use Rattle.sha256.specs.Sha256.{round_constants, initial_hash, one_round, keyed_round, after_rounds, add_hash, next_hash, hash_bytes};

use crate::schedule::schedule;
use crate::word::{big_sigma, ch, maj};

// A hash value's eight words, or the working variables of the rounds.
#[derive(Clone, Copy)]
pub(crate) struct State {
    pub(crate) a: u32,
    pub(crate) b: u32,
    pub(crate) c: u32,
    pub(crate) d: u32,
    pub(crate) e: u32,
    pub(crate) f: u32,
    pub(crate) g: u32,
    pub(crate) h: u32,
}

const K: [u32; 64] = [
    0x428a2f98, 0x71374491, 0xb5c0fbcf, 0xe9b5dba5, 0x3956c25b, 0x59f111f1, 0x923f82a4, 0xab1c5ed5,
    0xd807aa98, 0x12835b01, 0x243185be, 0x550c7dc3, 0x72be5d74, 0x80deb1fe, 0x9bdc06a7, 0xc19bf174,
    0xe49b69c1, 0xefbe4786, 0x0fc19dc6, 0x240ca1cc, 0x2de92c6f, 0x4a7484aa, 0x5cb0a9dc, 0x76f988da,
    0x983e5152, 0xa831c66d, 0xb00327c8, 0xbf597fc7, 0xc6e00bf3, 0xd5a79147, 0x06ca6351, 0x14292967,
    0x27b70a85, 0x2e1b2138, 0x4d2c6dfc, 0x53380d13, 0x650a7354, 0x766a0abb, 0x81c2c92e, 0x92722c85,
    0xa2bfe8a1, 0xa81a664b, 0xc24b8b70, 0xc76c51a3, 0xd192e819, 0xd6990624, 0xf40e3585, 0x106aa070,
    0x19a4c116, 0x1e376c08, 0x2748774c, 0x34b0bcb5, 0x391c0cb3, 0x4ed8aa4a, 0x5b9cca4f, 0x682e6ff3,
    0x748f82ee, 0x78a5636f, 0x84c87814, 0x8cc70208, 0x90befffa, 0xa4506ceb, 0xbef9a3f7, 0xc67178f2,
];

// The rounds' constants in eights. The table is read here alone, so that no other proof meets its 64 numbers.
#[tactic(auto, unfolding(crate::specs::Sha256::round_constants))]
fn constants() -> &'static [[u32; 8]]
    ensures { result.now ≡ first_chunks 8 8 round_constants }
{
    K.as_chunks::<8>().0
}

// What is done to a hash value, or to the working variables of the rounds.
impl State {
    // The hash value before the first block.
    pub(crate) fn initial() -> State
        ensures { result ≡ initial_hash }
    {
        State {
            a: 0x6a09e667,
            b: 0xbb67ae85,
            c: 0x3c6ef372,
            d: 0xa54ff53a,
            e: 0x510e527f,
            f: 0x9b05688c,
            g: 0x1f83d9ab,
            h: 0x5be0cd19,
        }
    }

    // One round, with the constant k and the schedule's word w.
    #[tactic(auto, unfolding(crate::specs::Sha256::one_round))]
    fn round(self, k: u32, w: u32) -> State
        ensures { result ≡ one_round self k w }
    {
        let t1 = self
            .h
            .wrapping_add(big_sigma::<6, 11, 25>(self.e))
            .wrapping_add(ch(self.e, self.f, self.g))
            .wrapping_add(k)
            .wrapping_add(w);
        let t2 = big_sigma::<2, 13, 22>(self.a).wrapping_add(maj(self.a, self.b, self.c));
        State {
            a: t1.wrapping_add(t2),
            b: self.a,
            c: self.b,
            d: self.c,
            e: self.d.wrapping_add(t1),
            f: self.e,
            g: self.f,
            h: self.g,
        }
    }

    // Eight rounds. A round moves six of the eight words one place on, and after eight each is back in its place: so clang's unrolled eight
    // move nothing. (Tried: one fold over all 64 rounds. The whole hash took a fifth longer; by that a million commands, at 0.95 of plain Rust, would fall below their bar of 0.9.)
    fn eight_rounds(self, k: &[u32; 8], w: &[u32; 8]) -> State
        ensures { result ≡ fold keyed_round self (zip k.now w.now) }
    {
        k.iter().zip(w).fold(self, |s, (k, w)| s.round(*k, *w))
    }

    // All 64 rounds over the schedule w.
    fn rounds(self, w: &[u32; 64]) -> State
        ensures { result ≡ after_rounds self w.now 64 }
    {
        constants()
            .iter()
            .zip(w.as_chunks::<8>().0)
            .fold(self, |s, (k, w)| s.eight_rounds(k, w))
    }

    // Word by word, the sum modulo 2^32.
    fn wrapping_add(self, other: State) -> State
        ensures { result ≡ add_hash self other }
    {
        State {
            a: self.a.wrapping_add(other.a),
            b: self.b.wrapping_add(other.b),
            c: self.c.wrapping_add(other.c),
            d: self.d.wrapping_add(other.d),
            e: self.e.wrapping_add(other.e),
            f: self.f.wrapping_add(other.f),
            g: self.g.wrapping_add(other.g),
            h: self.h.wrapping_add(other.h),
        }
    }

    // The hash value after one more block.
    fn compress(self, block: &[u8; 64]) -> State
        ensures { result ≡ next_hash self block.now }
    {
        self.rounds(&schedule(block)).wrapping_add(self)
    }

    // The hash value after more blocks.
    pub(crate) fn absorb(self, blocks: &[[u8; 64]]) -> State
        ensures { result ≡ fold next_hash self blocks.now }
    {
        blocks.iter().fold(self, State::compress)
    }
}

// The eight words of a hash value, one after the other, high byte first.
impl From<State> for [u8; 32] {
    ghost from_gives = { λ hash r. r ≡ hash_bytes hash };

    #[tactic(auto, unfolding(crate::specs::Sha256::hash_bytes, crate::specs::Sha256::word_bytes))]
    fn from(hash: State) -> [u8; 32] {
        let words = [
            hash.a.to_be_bytes(),
            hash.b.to_be_bytes(),
            hash.c.to_be_bytes(),
            hash.d.to_be_bytes(),
            hash.e.to_be_bytes(),
            hash.f.to_be_bytes(),
            hash.g.to_be_bytes(),
            hash.h.to_be_bytes(),
        ];
        let mut out = [0; 32];
        out.copy_from_slice(words.as_flattened());
        out
    }
}
