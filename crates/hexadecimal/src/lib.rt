// Bytes in hexadecimal: two digits a byte, read in either case and written in lower case.
#![tactic(auto)]

ghost use Rattle.std.specs.Prelude.{◌≡◌, ◌≤◌, ◌++◌, Some, length, is_ok, if◌then◌else◌};
ghost use Rattle.std.specs.Allocator.{alloc_error};
ghost use Rattle.std.specs.Char.{is_ascii_hexdigit};
ghost use Rattle.std.specs.List.{list_all};
ghost use Rattle.hexadecimal.specs.declared.HexError.TheVariants.{Memory};
ghost use Rattle.hexadecimal.specs.Hex.{hex_of, ReadsBack};
ghost use Rattle.hexadecimal.specs.Unhexed.{Unhexed, refusal_of};

use hex::FromHexError;
use std::alloc::{AllocError, AllocFailed, Global};
use std::{fmt, str};
use thiserror::Error;

// Why a word was not read as hexadecimal.
#[derive(Clone, Copy, Debug, Error)]
pub enum HexError {
    #[error("an odd number of digits")]
    Odd,
    #[error("a byte that is no digit")]
    NoDigit,
    #[error(transparent)]
    Memory(AllocError),
}

// For who allocates beside `unhex`; by hand, as the next two, since a contract names the error that `?` makes, and a derive states none.
impl From<AllocError> for HexError {
    ghost from_gives = { λ e r. r ≡ Memory e };

    fn from(e: AllocError) -> HexError {
        HexError::Memory(e)
    }
}

impl<T: Drop> From<AllocFailed<T>> for HexError {
    ghost from_gives = { λ _ r. r ≡ Memory alloc_error };

    fn from(e: AllocFailed<T>) -> HexError {
        HexError::Memory(e.into())
    }
}

impl From<FromHexError> for HexError {
    ghost from_gives = { λ e r. r ≡ refusal_of e };

    fn from(e: FromHexError) -> HexError {
        match e {
            FromHexError::OddLength => HexError::Odd,
            FromHexError::OutOfMemory => HexError::Memory(AllocError),
            _ => HexError::NoDigit,
        }
    }
}

// How many bytes are taken at a time, to be put into digits or judged as digits. A digest is one part.
const AT_ONCE: usize = 32;

// Bytes that are printed in digits.
#[derive(Clone, Copy)]
pub struct Hex<'a>(pub &'a [u8]);

impl<'a> fmt::Display for Hex<'a> {
    ghost output = { λ h. Some (hex_of h.0.now) };

    fn fmt<W: fmt::Write>(&self, f: &mut fmt::Formatter<W>) -> fmt::Result {
        let mut room = [0u8; 2 * AT_ONCE];
        for part in self.0.chunks(AT_ONCE) {
            f.write_str(text_of(part, &mut room))?;
        }
        Ok(())
    }
}

// The digits of `part`, written into `room`. Neither step can fail: the text is as long as its room, and digits are ASCII.
fn text_of<'a>(part: &[u8], room: &'a mut [u8; 2 * AT_ONCE]) -> &'a str
    requires { length part.now ≤ 32 }
    ensures { result.now ≡ hex_of part.now }
{
    let text = &mut room[..2 * part.len()];
    hex::encode_to_slice(part, text).unwrap();
    str::from_utf8(text).unwrap()
}

// Appends the digits of `bytes`. Where memory fails, `out` is as it was: room for all of them is asked for before it changes.
pub fn push_hex(out: &mut Vec<u8>, bytes: &[u8]) -> Result<(), AllocError>
    ensures { out.new.items ≡ (if is_ok result then out.old.items ++ hex_of bytes.now else out.old.items) }
{
    let before = out.len();
    out.reserve(2 * bytes.len())?;
    out.resize(before + 2 * bytes.len(), 0).unwrap();
    hex::encode_to_slice(bytes, &mut out[before..]).unwrap();
    Ok(())
}

// The bytes that a word writes. Memory is asked for once each byte is known to be a digit, so a word that is refused costs none.
#[tactic(auto, using(crate::proofs::Digits::decoded, crate::proofs::Digits::refused, crate::proofs::Digits::stopped))]
pub fn unhex(word: &[u8], heap: Global) -> Result<Vec<u8>, HexError>
    ensures { Unhexed word.now result }
{
    if word.len() % 2 == 0 && !is_digits(word) {
        return Err(HexError::NoDigit);
    }
    Ok(hex::decode(heap, word)?)
}

// Whether each byte is a digit. It looks no further than the first part that has another byte.
fn is_digits(word: &[u8]) -> bool
    ensures { result ≡ list_all is_ascii_hexdigit word.now }
{
    for part in word.chunks(AT_ONCE) {
        if !are_digits(part) {
            return false;
        }
    }
    true
}

// The same of one part, with no stop on the way: so the compiler judges many bytes in one step.
fn are_digits(part: &[u8]) -> bool
    ensures { result ≡ list_all is_ascii_hexdigit part.now }
{
    let mut all = true;
    for b in part {
        all &= b.is_ascii_hexdigit();
    }
    all
}

// What `Hex` prints, `unhex` reads back.
#[tactic(auto, using(crate::proofs::Digits::reads_back))]
pub fn hex_reads_back()
    ensures { ReadsBack }
{}
