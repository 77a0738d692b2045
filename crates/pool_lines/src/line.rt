//! Lines, read word by word.
ghost use Rattle.std.specs.Prelude.{◌≡◌, ℕ, List, IfOk, IsErrOf, map, Some};
ghost use Rattle.pool_lines.specs.Reading.{Gives, away_of, create_of, leaf_in, leaf_verb_of, of_pool, offline_of, online_of, pool_verb_of, read_of, request_in, request_of, verb_of, write_of};
ghost use Rattle.pool_lines.specs.Grammar.{Asks};
ghost use Rattle.pool_lines.specs.declared.request.Request.{Request};

use crate::vdevs::read_tops;
use crate::words::{first, one, read_data, read_name, read_number, two, words_of};
use crate::{LineFault, Request};
use mp_base::Name;
use std::alloc::Global;

/// What the line asks; the byte 10 that ends it is no part of it (docs/FORMATS.md, "Lines").
pub fn read_line(alloc: Global, line: &[u8]) -> Result<Request, LineFault>
    // What is read is in the grammar.
    ensures found { IfOk result (Asks line.now) }
    // What is in the grammar is read, unless memory runs out.
    ensures only { (request : Request) → Asks line.now request → Gives (λ r. r) result (Some request) }
    // A bad line asks nothing.
    ensures bad { IsErrOf result LineFault.Bad → (request : Request) → ¬ (Asks line.now request) }
    // What a line asks is a function of the line.
    ensures exact { Gives (λ request. request) result (request_of line.now) }
{
    read_request(alloc, line)
}

/// No line asks two things.
pub fn asks_one_thing()
    ensures { (line : List ℕ) (a b : Request) → Asks line a → Asks line b → a ≡ b }
{}

#[tactic(auto, unfolding(crate::specs::Reading::request_of))]
fn read_request(alloc: Global, line: &[u8]) -> Result<Request, LineFault>
    ensures { Gives (λ request. request) result (request_of line.now) }
{
    if line.is_empty() {
        return Ok(Request::Nothing);
    }
    if line[0] == b'#' {
        return Ok(Request::Nothing);
    }
    let words = words_of(alloc, line)?;
    read_words(alloc, &words)
}

#[tactic(auto, unfolding(crate::specs::Reading::request_in))]
fn read_words(alloc: Global, words: &[&[u8]]) -> Result<Request, LineFault>
    ensures { Gives (λ request. request) result (request_in (map (λ w. w.now) words.now)) }
{
    let (verb, words) = first(words)?;
    read_verb(alloc, verb, words)
}

#[tactic(auto, unfolding(crate::specs::Reading::verb_of))]
fn read_verb(alloc: Global, verb: &[u8], words: &[&[u8]]) -> Result<Request, LineFault>
    ensures { Gives (λ request. request) result (verb_of verb.now (map (λ w. w.now) words.now)) }
{
    if verb == b"create".as_slice() {
        return read_create(alloc, words);
    }
    if verb == b"write".as_slice() {
        return read_write(alloc, words);
    }
    if verb == b"read".as_slice() {
        return read_read(alloc, words);
    }
    read_leaf_verb(alloc, verb, words)
}

/// The lines that name a leaf of a pool.
#[tactic(auto, unfolding(crate::specs::Reading::leaf_verb_of))]
fn read_leaf_verb(alloc: Global, verb: &[u8], words: &[&[u8]]) -> Result<Request, LineFault>
    ensures { Gives (λ request. request) result (leaf_verb_of verb.now (map (λ w. w.now) words.now)) }
{
    if verb == b"offline".as_slice() {
        return read_offline(alloc, words);
    }
    if verb == b"online".as_slice() {
        return read_online(alloc, words);
    }
    read_pool_verb(alloc, verb, words)
}

/// The lines that name a pool and nothing else.
#[tactic(auto, unfolding(crate::specs::Reading::pool_verb_of))]
fn read_pool_verb(alloc: Global, verb: &[u8], words: &[&[u8]]) -> Result<Request, LineFault>
    ensures { Gives (λ request. request) result (pool_verb_of verb.now (map (λ w. w.now) words.now)) }
{
    let pool = one(words)?;
    let pool = read_name(alloc, pool)?;
    of_pool(verb, pool)
}

#[tactic(auto, unfolding(crate::specs::Reading::of_pool))]
fn of_pool(verb: &[u8], pool: Name) -> Result<Request, LineFault>
    ensures { Gives (λ request. request) result (of_pool verb.now pool) }
{
    if verb == b"import".as_slice() {
        return Ok(Request::Import { pool });
    }
    if verb == b"freeze".as_slice() {
        return Ok(Request::Freeze { pool });
    }
    if verb == b"turn".as_slice() {
        return Ok(Request::Turn { pool });
    }
    if verb == b"sync".as_slice() {
        return Ok(Request::Sync { pool });
    }
    if verb == b"logs".as_slice() {
        return Ok(Request::Logs { pool });
    }
    Err(LineFault::Bad)
}

#[tactic(auto, unfolding(crate::specs::Reading::create_of))]
fn read_create(alloc: Global, words: &[&[u8]]) -> Result<Request, LineFault>
    ensures { Gives (λ request. request) result (create_of (map (λ w. w.now) words.now)) }
{
    let (pool, words) = first(words)?;
    let (blocks, vdevs) = first(words)?;
    Ok(Request::Create {
        pool: read_name(alloc, pool)?,
        blocks: read_number(blocks)?,
        tops: read_tops(alloc, vdevs)?,
    })
}

#[tactic(auto, unfolding(crate::specs::Reading::write_of))]
fn read_write(alloc: Global, words: &[&[u8]]) -> Result<Request, LineFault>
    ensures { Gives (λ request. request) result (write_of (map (λ w. w.now) words.now)) }
{
    let (pool, words) = first(words)?;
    let (address, data) = two(words)?;
    Ok(Request::Write {
        pool: read_name(alloc, pool)?,
        address: read_number(address)?,
        block: read_data(alloc, data)?,
    })
}

#[tactic(auto, unfolding(crate::specs::Reading::read_of))]
fn read_read(alloc: Global, words: &[&[u8]]) -> Result<Request, LineFault>
    ensures { Gives (λ request. request) result (read_of (map (λ w. w.now) words.now)) }
{
    let (pool, address) = two(words)?;
    Ok(Request::Read {
        pool: read_name(alloc, pool)?,
        address: read_number(address)?,
    })
}

#[tactic(auto, unfolding(crate::specs::Reading::offline_of))]
fn read_offline(alloc: Global, words: &[&[u8]]) -> Result<Request, LineFault>
    ensures { Gives (λ request. request) result (offline_of (map (λ w. w.now) words.now)) }
{
    let (word, behind) = first(words)?;
    if word == b"-t".as_slice() {
        return read_away(alloc, true, behind);
    }
    read_away(alloc, false, words)
}

#[tactic(auto, unfolding(crate::specs::Reading::away_of))]
fn read_away(alloc: Global, temporary: bool, words: &[&[u8]]) -> Result<Request, LineFault>
    ensures { Gives (λ request. request) result (away_of temporary (map (λ w. w.now) words.now)) }
{
    let (pool, device) = read_leaf(alloc, words)?;
    Ok(Request::Offline {
        pool,
        device,
        temporary,
    })
}

#[tactic(auto, unfolding(crate::specs::Reading::online_of))]
fn read_online(alloc: Global, words: &[&[u8]]) -> Result<Request, LineFault>
    ensures { Gives (λ request. request) result (online_of (map (λ w. w.now) words.now)) }
{
    let (pool, device) = read_leaf(alloc, words)?;
    Ok(Request::Online { pool, device })
}

/// The names of a pool and of a device, and no further word.
#[tactic(auto, unfolding(crate::specs::Reading::leaf_in))]
fn read_leaf(alloc: Global, words: &[&[u8]]) -> Result<(Name, Name), LineFault>
    ensures { Gives (λ leaf. leaf) result (leaf_in (map (λ w. w.now) words.now)) }
{
    let (pool, device) = two(words)?;
    Ok((read_name(alloc, pool)?, read_name(alloc, device)?))
}
