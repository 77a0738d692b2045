//! The words of a line.
ghost use Rattle.std.specs.Prelude.{◌≡◌, ◌≤◌, length, map, IsTrue, IfOk};
ghost use Rattle.std.specs.List.{list_all};
ghost use Rattle.std.specs.Str.Parse.{digits_value};
ghost use Rattle.pool_lines.specs.Reading.{Gives, data_of, first_of, is_digit, is_number, may_be_pairs, name_of, number_of, one_of, pairs_of, spelled_block, two_of, words_of};

use crate::LineFault;
use hex::FromHexError;
use mp_base::{BLOCK_BYTES, Block, Name, NameFault};
use std::alloc::{AllocError, Global};

/// The words of a line, between its spaces.
pub(crate) fn words_of(alloc: Global, line: &[u8]) -> Result<Vec<&[u8]>, AllocError>
    ensures { IfOk result (λ words. map (λ w. w.now) words.items ≡ words_of line.now) }
{
    line.split(|b| *b == b' ').collect(alloc)
}

/// The first word, and those behind it.
#[tactic(auto, unfolding(crate::specs::Reading::first_of))]
pub(crate) fn first<'a, 'b>(words: &'b [&'a [u8]]) -> Result<(&'a [u8], &'b [&'a [u8]]), LineFault>
    ensures { Gives (λ cut. (cut.0.now, map (λ w. w.now) cut.1.now)) result (first_of (map (λ w. w.now) words.now)) }
{
    let [word, behind @ ..] = words else {
        return Err(LineFault::Bad);
    };
    Ok((*word, behind))
}

/// The one word.
#[tactic(auto, unfolding(crate::specs::Reading::one_of))]
pub(crate) fn one<'a>(words: &[&'a [u8]]) -> Result<&'a [u8], LineFault>
    ensures { Gives (λ word. word.now) result (one_of (map (λ w. w.now) words.now)) }
{
    let [word] = words else {
        return Err(LineFault::Bad);
    };
    Ok(*word)
}

/// The two words.
#[tactic(auto, unfolding(crate::specs::Reading::two_of))]
pub(crate) fn two<'a>(words: &[&'a [u8]]) -> Result<(&'a [u8], &'a [u8]), LineFault>
    ensures { Gives (λ words. (words.0.now, words.1.now)) result (two_of (map (λ w. w.now) words.now)) }
{
    let (first, behind) = first(words)?;
    Ok((first, one(behind)?))
}

#[tactic(auto, unfolding(crate::specs::Reading::name_of))]
pub(crate) fn read_name(alloc: Global, text: &[u8]) -> Result<Name, LineFault>
    ensures { Gives (λ name. name) result (name_of text.now) }
{
    match Name::new(alloc, text) {
        Ok(name) => Ok(name),
        Err(NameFault::Bad) => Err(LineFault::Bad),
        Err(NameFault::Memory) => Err(LineFault::Memory),
    }
}

#[tactic(auto, unfolding(crate::specs::Reading::number_of))]
pub(crate) fn read_number(text: &[u8]) -> Result<u64, LineFault>
    ensures { Gives (λ n. n) result (number_of text.now) }
{
    if !is_number(text) {
        return Err(LineFault::Bad);
    }
    Ok(digits_value(text))
}

fn is_number(text: &[u8]) -> bool
    ensures { result ≡ is_number text.now }
{
    if text.is_empty() {
        return false;
    }
    if text.len() > 19 {
        return false;
    }
    if !has_digits_alone(text) {
        return false;
    }
    text.len() == 1 || text[0] != b'0'
}

fn has_digits_alone(text: &[u8]) -> bool
    ensures { result ≡ list_all is_digit text.now }
{
    text.iter().all(|b| is_digit(*b))
}

fn is_digit(b: u8) -> bool
    ensures { result ≡ is_digit b }
{
    b.is_ascii_digit()
}

/// The number that these digits write.
fn digits_value(text: &[u8]) -> u64
    requires short { length text.now ≤ 19 }
    requires digits { IsTrue (list_all is_digit text.now) }
    ensures { result ≡ digits_value 10 text.now }
{
    let mut value = 0;
    for b in text {
        value = value * 10 + u64::from(*b - b'0');
    }
    value
}

#[tactic(auto, unfolding(crate::specs::Reading::data_of))]
pub(crate) fn read_data(alloc: Global, text: &[u8]) -> Result<Block, LineFault>
    ensures { Gives (λ block. block) result (data_of text.now) }
{
    if text == b"-".as_slice() {
        return Ok(Block::zeros(alloc)?);
    }
    read_pairs(alloc, text)
}

#[tactic(auto, unfolding(crate::specs::Reading::pairs_of))]
fn read_pairs(alloc: Global, text: &[u8]) -> Result<Block, LineFault>
    ensures { Gives (λ block. block) result (pairs_of text.now) }
{
    if !may_be_pairs(text) {
        return Err(LineFault::Bad);
    }
    match hex::decode(alloc, text) {
        Ok(bytes) => spelled_block(alloc, text, &bytes),
        Err(FromHexError::OutOfMemory) => Err(LineFault::Memory),
        Err(_) => Err(LineFault::Bad),
    }
}

fn may_be_pairs(text: &[u8]) -> bool
    ensures { result ≡ may_be_pairs text.now }
{
    !text.is_empty() && text.len() <= 2 * BLOCK_BYTES
}

/// The block that begins with these bytes. Digits are read in either case, but bytes have one spelling in
/// lower-case digits, and the text has to be this one.
#[tactic(auto, unfolding(crate::specs::Reading::spelled_block))]
fn spelled_block(alloc: Global, text: &[u8], bytes: &[u8]) -> Result<Block, LineFault>
    requires { length bytes.now ≤ 4096 }
    ensures { Gives (λ block. block) result (spelled_block text.now bytes.now) }
{
    let digits = hex::encode(alloc, bytes)?;
    if digits.as_bytes() != text {
        return Err(LineFault::Bad);
    }
    Ok(Block::padded(alloc, bytes)?)
}
