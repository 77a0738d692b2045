//! The texts of replies.
ghost use Rattle.std.specs.Prelude.{◌≡◌, ℕ, ◌<◌, true, false, List, [], ◌∷◌, ◌++◌, decimal, codes, length, slice_index, IfOk, OnOk, IfNone, IfSome, if◌then◌else◌, ◌==◌};
ghost use Rattle.pool_lines.specs.Text.{state_text, text_of, turned_text};
ghost use Rattle.pool_lines.specs.Words.{IsData, are_bytes, block_text, digits_text, is_zero, trimmed};

use crate::logs::write_logs;
use crate::refusing::write_refusal;
use crate::{Reply, Turned};
use mp_base::{Block, MemFault};
use std::alloc::Global;
use vdev_tree::State;

/// The text of the reply, without the byte 10 that ends it (docs/FORMATS.md, "Replies").
pub fn write_reply(alloc: Global, reply: &Reply) -> Result<Vec<u8>, MemFault>
    ensures { IfOk result (λ bytes. bytes.items ≡ text_of reply.now) }
{
    match reply {
        Reply::Done => text_with(alloc, b"ok", b""),
        Reply::Numbered(group) => with_number(alloc, b"ok ", group.0),
        Reply::Data(block) => write_block(alloc, block),
        Reply::State(state) => text_with(alloc, b"ok ", state_word(*state)),
        Reply::Logs(leaves) => write_logs(alloc, leaves.as_slice()),
        Reply::Turned(turned) => write_turned(alloc, *turned),
        Reply::Refused(refusal) => write_refusal(alloc, refusal),
    }
}

/// What a reply tells of a block, a line may ask to write: it is DATA of that same block.
pub fn told_block_is_data()
    ensures { (block : List ℕ) → length block ≡ 4096 → are_bytes block ≡ true → IsData (block_text block) block }
{}

/// Two texts in one.
pub(crate) fn text_with(alloc: Global, front: &[u8], behind: &[u8]) -> Result<Vec<u8>, MemFault>
    ensures { IfOk result (λ bytes. bytes.items ≡ front.now ++ behind.now) }
{
    let mut text = Vec::from_slice(alloc, front)?;
    text.extend_from_slice(behind)?;
    Ok(text)
}

/// A text and a number.
pub(crate) fn with_number(alloc: Global, front: &[u8], number: u64) -> Result<Vec<u8>, MemFault>
    ensures { IfOk result (λ bytes. bytes.items ≡ front.now ++ decimal number) }
{
    let digits = format!(in alloc; "{number}")?;
    text_with(alloc, front, digits.as_bytes())
}

fn state_word(state: State) -> &'static [u8]
    ensures { result.now ≡ state_text state }
{
    match state {
        State::Online => b"ONLINE",
        State::Degraded => b"DEGRADED",
        State::Faulted => b"FAULTED",
        State::Offline => b"OFFLINE",
        State::Removed => b"REMOVED",
        State::Unavail => b"UNAVAIL",
    }
}

fn write_turned(alloc: Global, turned: Turned) -> Result<Vec<u8>, MemFault>
    ensures { IfOk result (λ bytes. bytes.items ≡ turned_text turned) }
{
    match turned {
        Turned::Idle => text_with(alloc, b"ok ", b"idle"),
        Turned::Write => text_with(alloc, b"ok ", b"write"),
        Turned::Flush => text_with(alloc, b"ok ", b"flush"),
        Turned::Round(group) => with_number(alloc, b"ok round ", group.0),
        Turned::Committed(group) => with_number(alloc, b"ok committed ", group.0),
    }
}

/// The block in hexadecimal digits without the zero bytes at its end, `-` where it has none but zeros.
fn write_block(alloc: Global, block: &Block) -> Result<Vec<u8>, MemFault>
    ensures { IfOk result (λ bytes. bytes.items ≡ codes "ok " ++ block_text block.now) }
{
    write_digits(alloc, trimmed(block.as_bytes()))
}

fn write_digits(alloc: Global, bytes: &[u8]) -> Result<Vec<u8>, MemFault>
    ensures { IfOk result (λ text. text.items ≡ codes "ok " ++ digits_text bytes.now) }
{
    if bytes.is_empty() {
        return Ok(Vec::from_slice(alloc, b"ok -")?);
    }
    let digits = hex::encode(alloc, bytes)?;
    Ok(format!(in alloc; "ok {digits}")?.into_bytes())
}

/// The bytes without the zeros at their end.
fn trimmed(bytes: &[u8]) -> &[u8]
    ensures { result.now ≡ trimmed bytes.now }
{
    match last_byte(bytes) {
        Some(last) => &bytes[..last + 1],
        None => &bytes[..0],
    }
}

/// The place of the last byte that isn't 0.
fn last_byte(bytes: &[u8]) -> Option<usize>
    ensures none { IfNone result ((k : ℕ) → k < length bytes.now → is_zero (slice_index bytes.now k) ≡ true) }
    ensures within { IfSome result (λ at. at < length bytes.now) }
    ensures some { IfSome result (λ at. is_zero (slice_index bytes.now at) ≡ false) }
    ensures behind { IfSome result (λ at. (k : ℕ) → at < k → k < length bytes.now → is_zero (slice_index bytes.now k) ≡ true) }
{
    bytes.iter().rposition(|b| *b != 0)
}

/// Puts a comma before the item at this place, unless it is the first.
pub(crate) fn push_comma(text: &mut Vec<u8>, at: usize) -> Result<(), MemFault>
    ensures { OnOk result (text.new.items ≡ (if at == 0 then text.old.items else text.old.items ++ 44 ∷ [])) }
{
    if at > 0 {
        text.push(b',')?;
    }
    Ok(())
}
