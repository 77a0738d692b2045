//! The page that an opening reads next.
ghost use Rattle.std.specs.Prelude.{◌≡◌, ℕ, ◌<◌, ◌≤◌, IfSome, IfNone};
ghost use Rattle.block_map.specs.Keys.{IsVolume, IsPage};
ghost use Rattle.block_map.specs.Pointers.{hole};
ghost use Rattle.block_map.specs.Map.{pointer_at};
ghost use Rattle.block_map.specs.Reading.{NextPage, IsFirstStored, NoneStored};

use crate::map::BlockMap;
use crate::numbers::keys_at;
use mp_base::Key;

/// The page behind this one in the order of reading, the first that is no hole.
pub(crate) fn next_page(map: &BlockMap, after: Key) -> Option<Key>
    requires volume { IsVolume map.now.blocks }
    requires page { IsPage map.now.blocks after }
    ensures { NextPage map.now after result }
{
    if let Some(page) = first_stored(map, after.level, after.index + 1) {
        return Some(page);
    }
    let mut level = after.level;
    while level > 1 {
        level -= 1;
        if let Some(page) = first_stored(map, level, 0) {
            return Some(page);
        }
    }
    None
}

/// The first page of a level, from an index on, that is no hole.
fn first_stored(map: &BlockMap, level: u32, from: u64) -> Option<Key>
    requires low { 1 ≤ level }
    requires high { level ≤ 3 }
    ensures page { IfSome result (λ page. IsFirstStored map.now level from page) }
    ensures none { IfNone result (NoneStored map.now level from) }
{
    for index in from..keys_at(map.blocks(), level) {
        let page = Key { level, index };
        if map.get(page).is_some() {
            return Some(page);
        }
    }
    None
}
