//! The pages that a commit of dirty blocks writes besides: those above them.
ghost use Rattle.std.specs.Prelude.{◌≡◌, ℕ, ◌+◌, ◌^◌, ◌<◌, ◌≤◌, ◌++◌, [], ◌∷◌, nat_lt, length, if◌then◌else◌};
ghost use Rattle.std.specs.Vec.{vec_capacity};
ghost use Rattle.block_map.specs.Dirty.{page_above, pages_above};

use mp_base::Key;

/// Appends the pages of a level, 1 to 3, above blocks whose addresses rise: each once, by rising index. It takes no
/// memory, so there is room for as many as there are blocks.
pub fn pages_above(level: u32, addrs: &[u64], out: &mut Vec<Key>)
    requires low { 1 ≤ level }
    requires high { level ≤ 3 }
    requires room { length out.old.items + length addrs.now ≤ vec_capacity out.old }
    ensures pages { out.new.items ≡ out.old.items ++ pages_above level addrs.now }
    ensures room { vec_capacity out.old ≤ vec_capacity out.new }
{
    let mut next = 0;
    for addr in addrs {
        next = push_from(out, next, page_above(level, *addr));
    }
}

/// Appends the page where its index isn't below `next`, and answers which index is the next then.
fn push_from(out: &mut Vec<Key>, next: u64, page: Key) -> u64
    requires index { page.index < 2 ^ 60 }
    requires room { length out.old.items < vec_capacity out.old }
    ensures next { result ≡ (if nat_lt page.index next then next else page.index + 1) }
    ensures pages { out.new.items ≡ (if nat_lt page.index next then out.old.items else out.old.items ++ page ∷ []) }
    ensures room { vec_capacity out.old ≤ vec_capacity out.new }
{
    if page.index < next {
        return next;
    }
    let _ = out.push(page);
    page.index + 1
}

/// How many pages of a level lie above blocks whose addresses rise.
pub(crate) fn count_above(level: u32, addrs: &[u64]) -> u64
    requires low { 1 ≤ level }
    requires high { level ≤ 3 }
    ensures count { result ≡ length (pages_above level addrs.now) }
    ensures most { result ≤ length addrs.now }
{
    let mut next = 0;
    let mut count = 0;
    for addr in addrs {
        let behind = index_behind(next, page_above(level, *addr));
        count += u64::from(behind != next);
        next = behind;
    }
    count
}

/// The least index that is neither below `next` nor the page's or one before it.
fn index_behind(next: u64, page: Key) -> u64
    requires { page.index < 2 ^ 60 }
    ensures { result ≡ (if nat_lt page.index next then next else page.index + 1) }
{
    if page.index < next {
        next
    } else {
        page.index + 1
    }
}

/// The page of a level above a block.
#[tactic(auto, unfolding(crate::specs::Dirty::page_above))]
fn page_above(level: u32, addr: u64) -> Key
    requires low { 1 ≤ level }
    requires high { level ≤ 3 }
    ensures page { result ≡ page_above level addr }
    ensures small { result.index < 2 ^ 60 }
{
    Key {
        level,
        index: addr >> (6 * level),
    }
}
