// SHA-256: the hash of FIPS 180-4, proved equal to its definition for every input.
#![tactic(auto)]

mod padding;
mod rounds;
mod schedule;
mod word;

ghost use Rattle.std.specs.Prelude.{◌≡◌};
ghost use Rattle.sha256.specs.Sha256.{sha256};

use padding::padded;
use rounds::State;

// The SHA-256 digest of `bytes`.
pub fn digest(bytes: &[u8]) -> [u8; 32]
    ensures { result ≡ sha256 bytes.now }
{
    let (blocks, tail) = bytes.as_chunks::<64>();
    let end = padded(tail, bytes.len());
    State::initial()
        .absorb(blocks)
        .absorb(end.as_slice().as_chunks::<64>().0)
        .into()
}
