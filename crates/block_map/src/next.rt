//! The search for the next key of a scan.
ghost use Rattle.std.specs.Prelude.{◌≡◌, ℕ, ◌≤◌, false, slice_index_or, IfSome, IfNone};
ghost use Rattle.block_map.specs.Keys.{IsVolume, IsKey};
ghost use Rattle.block_map.specs.Pointers.{hole, born_within};
ghost use Rattle.block_map.specs.Numbers.{number_behind};
ghost use Rattle.block_map.specs.Map.{IsNextBorn};

use crate::numbers::key_number;
use mp_base::{Group, Key, Pointer};

/// The first number behind a key's, or of all.
pub(crate) fn number_behind(blocks: u64, after: Option<Key>) -> usize
    requires volume { IsVolume blocks }
    requires key { IfSome after (λ key. IsKey blocks key) }
    ensures { result ≡ number_behind blocks after }
{
    let Some(key) = after else {
        return 0;
    };
    key_number(blocks, key) + 1
}

/// The first number from `from` on whose pointer is born in a group up to `hi`.
pub(crate) fn next_born(pointers: &[Pointer], from: usize, hi: Group) -> Option<usize>
    ensures next { IfSome result (λ at. IsNextBorn pointers.now from hi.0 at) }
    ensures none { IfNone result ((i : ℕ) → from ≤ i → born_within hi.0 (slice_index_or pointers.now i hole) ≡ false) }
{
    for at in from..pointers.len() {
        if is_born_within(&pointers[at], hi) {
            return Some(at);
        }
    }
    None
}

fn is_born_within(pointer: &Pointer, hi: Group) -> bool
    ensures { result ≡ born_within hi.0 pointer.now }
{
    !pointer.is_hole() && pointer.birth.0 <= hi.0
}
