//! Lines, read from left to right.
ghost use Rattle.std.specs.Prelude.{◌≡◌, ℕ, List, IfOk, IsErrOf, codes};
ghost use Rattle.pool_wire.specs.Reading.{Gives, after_word, away_of, create_of, import_of, leaf_in, leaf_verb_of, logs_of, offline_of, online_of, read_of, request_of, sync_of, verb_of, write_of};
ghost use Rattle.pool_wire.specs.Grammar.{Asks};
ghost use Rattle.pool_wire.specs.declared.request.Request.{Request};

use crate::words::{cut_word, read_data, read_name, read_number};
use crate::{LineFault, Request};
use mp_base::Name;
use std::alloc::Global;

/// What the line asks; the byte 10 that ends it is no part of it (docs/FORMATS.md, "Lines").
pub fn read_line(alloc: Global, line: &[u8]) -> Result<Request, LineFault>
    // What is read is in the grammar.
    ensures found { IfOk result (Asks line.now) }
    // What is in the grammar is read, unless memory runs out.
    ensures only { (request : Request) → Asks line.now request → Gives (λ r. r) result (Some request) }
    // A bad line asks nothing.
    ensures bad { IsErrOf result LineFault.Bad → (request : Request) → ¬ (Asks line.now request) }
    // What a line asks is a function of the line.
    ensures exact { Gives (λ request. request) result (request_of line.now) }
{
    read_request(alloc, line)
}

/// No line asks two things.
pub fn asks_one_thing()
    ensures { (line : List ℕ) (a b : Request) → Asks line a → Asks line b → a ≡ b }
{}

#[tactic(auto, unfolding(crate::specs::Reading::request_of))]
fn read_request(alloc: Global, line: &[u8]) -> Result<Request, LineFault>
    ensures { Gives (λ request. request) result (request_of line.now) }
{
    if line.is_empty() {
        return Ok(Request::Nothing);
    }
    if line[0] == b'#' {
        return Ok(Request::Nothing);
    }
    let (verb, text) = cut_word(line)?;
    read_verb(alloc, verb, text)
}

#[tactic(auto, unfolding(crate::specs::Reading::verb_of))]
fn read_verb(alloc: Global, verb: &[u8], text: &[u8]) -> Result<Request, LineFault>
    ensures { Gives (λ request. request) result (verb_of verb.now text.now) }
{
    if verb == b"create".as_slice() {
        return read_create(alloc, text);
    }
    if verb == b"import".as_slice() {
        return read_import(alloc, text);
    }
    if verb == b"write".as_slice() {
        return read_write(alloc, text);
    }
    if verb == b"read".as_slice() {
        return read_read(alloc, text);
    }
    if verb == b"sync".as_slice() {
        return read_sync(alloc, text);
    }
    read_leaf_verb(alloc, verb, text)
}

/// The lines that speak of a pool's leaves.
#[tactic(auto, unfolding(crate::specs::Reading::leaf_verb_of))]
fn read_leaf_verb(alloc: Global, verb: &[u8], text: &[u8]) -> Result<Request, LineFault>
    ensures { Gives (λ request. request) result (leaf_verb_of verb.now text.now) }
{
    if verb == b"offline".as_slice() {
        return read_offline(alloc, text);
    }
    if verb == b"online".as_slice() {
        return read_online(alloc, text);
    }
    if verb == b"logs".as_slice() {
        return read_logs(alloc, text);
    }
    Err(LineFault::Bad)
}

#[tactic(auto, unfolding(crate::specs::Reading::create_of))]
fn read_create(alloc: Global, text: &[u8]) -> Result<Request, LineFault>
    ensures { Gives (λ request. request) result (create_of text.now) }
{
    let (pool, rest) = cut_word(text)?;
    let (blocks, rest) = cut_word(rest)?;
    let rest = after_mirror(rest)?;
    let (first, second) = cut_word(rest)?;
    let pool = read_name(alloc, pool)?;
    let blocks = read_number(blocks)?;
    let first = read_name(alloc, first)?;
    let second = read_name(alloc, second)?;
    Ok(Request::Create {
        pool,
        blocks,
        first,
        second,
    })
}

/// The text behind the word `mirror`, which has to come first.
#[tactic(auto, unfolding(crate::specs::Reading::after_word))]
fn after_mirror(text: &[u8]) -> Result<&[u8], LineFault>
    ensures { Gives (λ rest. rest.now) result (after_word (codes "mirror") text.now) }
{
    let (word, rest) = cut_word(text)?;
    if word != b"mirror".as_slice() {
        return Err(LineFault::Bad);
    }
    Ok(rest)
}

#[tactic(auto, unfolding(crate::specs::Reading::import_of))]
fn read_import(alloc: Global, text: &[u8]) -> Result<Request, LineFault>
    ensures { Gives (λ request. request) result (import_of text.now) }
{
    Ok(Request::Import {
        pool: read_name(alloc, text)?,
    })
}

#[tactic(auto, unfolding(crate::specs::Reading::write_of))]
fn read_write(alloc: Global, text: &[u8]) -> Result<Request, LineFault>
    ensures { Gives (λ request. request) result (write_of text.now) }
{
    let (pool, rest) = cut_word(text)?;
    let (address, data) = cut_word(rest)?;
    Ok(Request::Write {
        pool: read_name(alloc, pool)?,
        address: read_number(address)?,
        block: read_data(alloc, data)?,
    })
}

#[tactic(auto, unfolding(crate::specs::Reading::read_of))]
fn read_read(alloc: Global, text: &[u8]) -> Result<Request, LineFault>
    ensures { Gives (λ request. request) result (read_of text.now) }
{
    let (pool, address) = cut_word(text)?;
    Ok(Request::Read {
        pool: read_name(alloc, pool)?,
        address: read_number(address)?,
    })
}

#[tactic(auto, unfolding(crate::specs::Reading::sync_of))]
fn read_sync(alloc: Global, text: &[u8]) -> Result<Request, LineFault>
    ensures { Gives (λ request. request) result (sync_of text.now) }
{
    Ok(Request::Sync {
        pool: read_name(alloc, text)?,
    })
}

#[tactic(auto, unfolding(crate::specs::Reading::offline_of))]
fn read_offline(alloc: Global, text: &[u8]) -> Result<Request, LineFault>
    ensures { Gives (λ request. request) result (offline_of text.now) }
{
    let (word, rest) = cut_word(text)?;
    if word == b"-t".as_slice() {
        return read_away(alloc, true, rest);
    }
    read_away(alloc, false, text)
}

#[tactic(auto, unfolding(crate::specs::Reading::away_of))]
fn read_away(alloc: Global, temporary: bool, text: &[u8]) -> Result<Request, LineFault>
    ensures { Gives (λ request. request) result (away_of temporary text.now) }
{
    let (pool, device) = read_leaf(alloc, text)?;
    Ok(Request::Offline {
        pool,
        device,
        temporary,
    })
}

#[tactic(auto, unfolding(crate::specs::Reading::online_of))]
fn read_online(alloc: Global, text: &[u8]) -> Result<Request, LineFault>
    ensures { Gives (λ request. request) result (online_of text.now) }
{
    let (pool, device) = read_leaf(alloc, text)?;
    Ok(Request::Online { pool, device })
}

/// The names of a pool and of a device.
#[tactic(auto, unfolding(crate::specs::Reading::leaf_in))]
fn read_leaf(alloc: Global, text: &[u8]) -> Result<(Name, Name), LineFault>
    ensures { Gives (λ leaf. leaf) result (leaf_in text.now) }
{
    let (pool, device) = cut_word(text)?;
    Ok((read_name(alloc, pool)?, read_name(alloc, device)?))
}

#[tactic(auto, unfolding(crate::specs::Reading::logs_of))]
fn read_logs(alloc: Global, text: &[u8]) -> Result<Request, LineFault>
    ensures { Gives (λ request. request) result (logs_of text.now) }
{
    Ok(Request::Logs {
        pool: read_name(alloc, text)?,
    })
}
