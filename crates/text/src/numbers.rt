// Decimal numbers.
ghost use Rattle.std.specs.Prelude.{◌≡◌, ◌++◌, ℕ, List, Option, is_ok, if◌then◌else◌, decimal};
ghost use Rattle.text.specs.Numeral.{appended, number_of, step_of};

use std::alloc::{AllocError, Global};

// A value that a word writes. Not std's `FromStr`: it takes a `+` before a number, and neither it nor the types are ours.
pub trait FromWord: Sized {
    // The value that the bytes of a word write, if they write one.
    ghost word_gives: { List ℕ → Option Self };

    fn from_word(word: &[u8]) -> Option<Self>
        ensures { result ≡ word_gives word.now };
}

// Decimal digits, where the number fits 64 bits.
impl FromWord for u64 {
    ghost word_gives = { number_of };

    #[tactic(auto, using(crate::proofs::Decimal::read_none, crate::proofs::Decimal::read_some, crate::proofs::Decimal::read_more, crate::proofs::Decimal::read_stops, crate::proofs::Decimal::read_all))]
    fn from_word(word: &[u8]) -> Option<u64> {
        if word.is_empty() {
            return None;
        }
        let mut n = 0;
        for &b in word {
            n = with_digit(n, b)?;
        }
        Some(n)
    }
}

// `n` with the digit `b` behind it.
#[tactic(auto, unfolding(crate::specs::Numeral::appended, crate::specs::Numeral::digit))]
fn with_digit(n: u64, b: u8) -> Option<u64>
    ensures { result ≡ appended n b }
{
    match b {
        b'0'..=b'9' => n.checked_mul(10)?.checked_add(u64::from(b - b'0')),
        _ => None,
    }
}

// A step: a sign, which may be missing, and decimal digits, where the number fits 32 bits with a sign.
impl FromWord for i32 {
    ghost word_gives = { step_of };

    #[tactic(auto, using(crate::proofs::Decimal::step_none, crate::proofs::Decimal::no_minus, crate::proofs::Decimal::no_plus, crate::proofs::Decimal::no_plain))]
    fn from_word(word: &[u8]) -> Option<i32> {
        let (first, digits) = word.split_first()?;
        let step = match first {
            b'-' => -i128::from(u64::from_word(digits)?),
            b'+' => i128::from(u64::from_word(digits)?),
            _ => i128::from(u64::from_word(word)?),
        };
        i32::try_from(step).ok()
    }
}

// Appends `n` in decimal digits. Where memory fails, `out` is as it was, which no text that is printed into it would promise.
pub fn push_number(out: &mut Vec<u8>, n: u64, heap: Global) -> Result<(), AllocError>
    ensures { out.new.items ≡ (if is_ok result then out.old.items ++ decimal n else out.old.items) }
{
    let digits = n.to_string(heap)?;
    out.extend_from_slice(digits.as_bytes())
}
