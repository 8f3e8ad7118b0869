// Bytes from hexadecimal, in parts that may be repeated, as in `cafe ab*3`.
ghost use Rattle.std.specs.Prelude.{◌≤◌, length, drop, ◌≡◌, ◌++◌, ◌⊎◌, IfOk, IfErr, OnOk, IsOkAnd};
ghost use Rattle.std.specs.List.{repeat, list_any};
ghost use Rattle.std.specs.Char.{is_ascii_uppercase};
ghost use Rattle.cases.specs.Hexadecimal.{digits_of, times_of, digit_bytes, part_bytes, bytes_of};
ghost use Rattle.cases.specs.declared.error.CaseError.TheVariants.{OutOfMemory};

use crate::CaseError;
use std::alloc::{AllocError, Global};

/// A part's digits, and how often they count. A number that does not parse counts as none.
fn digits_and_times(part: &str) -> (&str, usize)
    ensures digits { result.0.now ≡ digits_of part.now }
    ensures times { result.1 ≡ times_of part.now }
{
    match part.split_once('*') {
        Some((digits, times)) => (digits, times.parse().unwrap_or(0)),
        None => (part, 1),
    }
}

/// Whether a capital letter is among the digits.
fn has_capital(digits: &str) -> bool
    ensures { result ≡ list_any is_ascii_uppercase digits.now }
{
    digits.bytes().any(|b| b.is_ascii_uppercase())
}

/// Adds the bytes that digits write, in their place at once. Capital letters are no digits here.
fn add_digits(bytes: &mut Vec<u8>, digits: &str) -> Result<(), CaseError>
    ensures ok { OnOk result (IsOkAnd (digit_bytes digits.now) (λ b. bytes.new.items ≡ bytes.old.items ++ b)) }
    ensures err { IfErr result (λ e. (e ≡ OutOfMemory) ⊎ (digit_bytes digits.now ≡ Err e)) }
{
    if has_capital(digits) {
        return Err(CaseError::NotHexadecimal);
    }
    let start = bytes.len();
    bytes.resize(start + digits.len() / 2, 0)?;
    hex::decode_to_slice(digits, &mut bytes[start..])?;
    Ok(())
}

/// Adds what stands from a place on so many times more.
#[tactic(auto, using(crate::proofs::Parts::nothing_again, crate::proofs::Parts::again))]
fn add_again(bytes: &mut Vec<u8>, start: usize, more: usize) -> Result<(), AllocError>
    requires { start ≤ length bytes.old.items }
    ensures { OnOk result (bytes.new.items ≡ bytes.old.items ++ repeat more (drop start bytes.old.items)) }
{
    let end = bytes.len();
    if start == end {
        return Ok(());
    }
    for _ in 0..more {
        bytes.extend_from_within(start..end)?;
    }
    Ok(())
}

/// Adds the bytes of a part. Of one that counts no time the digits are not looked at.
fn add_part(bytes: &mut Vec<u8>, part: &str) -> Result<(), CaseError>
    ensures ok { OnOk result (IsOkAnd (part_bytes part.now) (λ b. bytes.new.items ≡ bytes.old.items ++ b)) }
    ensures err { IfErr result (λ e. (e ≡ OutOfMemory) ⊎ (part_bytes part.now ≡ Err e)) }
{
    let (digits, times) = digits_and_times(part);
    if times == 0 {
        return Ok(());
    }
    let start = bytes.len();
    add_digits(bytes, digits)?;
    add_again(bytes, start, times - 1)?;
    Ok(())
}

/// The bytes of parts with a space between each two.
pub(crate) fn decode(heap: Global, text: &str) -> Result<Vec<u8>, CaseError>
    ensures ok { IfOk result (λ bytes. bytes_of text.now ≡ Ok bytes.items) }
    ensures err { IfErr result (λ e. (e ≡ OutOfMemory) ⊎ (bytes_of text.now ≡ Err e)) }
{
    let mut bytes = Vec::new(heap);
    for part in text.split(' ') {
        add_part(&mut bytes, part)?;
    }
    Ok(bytes)
}
