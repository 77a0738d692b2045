//! What a freeze of txg_engine is to the pool's row (docs/MODEL.md, "The open pool").
ghost use Rattle.std.specs.Prelude.{◌≡◌, ℕ, ◌+◌, List, None};
ghost use Rattle.block_map.specs.Map.{Map};
ghost use Rattle.pool_codec.specs.Codecs.{pool_codec};
ghost use Rattle.pool_moves.specs.FreezeRow.{AreDirtyKeys, ArePlacesGiven};
ghost use Rattle.pool_moves.specs.States.{Sums};
ghost use Rattle.txg_engine.specs.declared.item.Item.{Item};
ghost use Rattle.txg_engine.specs.Freezing.{IsFreeze};
ghost use Rattle.txg_engine.specs.Frozen.{KeysRise};
ghost use Rattle.open_pool.specs.Form.{HasPlaces};
ghost use Rattle.open_pool.specs.Freezing.{HasForms};
ghost use Rattle.open_pool.specs.Parts.{PoolParts};
ghost use Rattle.open_pool.specs.State.{ArePinned, cells_of, sectors_in, seen_of, state_of};

/// The keys of a freeze and their places are those of the pool's row. It computes nothing: its clauses are the law.
///
/// `places`: key by key each gets the least place in the tops' rooms that no key of the record has which the pool reads, that
/// isn't pinned, and that no key before it got. `keys`: they are the open writes and just the pages above them, each page with
/// the pointers that then are below it. `HasForms` are the facts on the map and the group that hold of all of them.
pub fn freezes_are_rows()
    ensures places { (p : PoolParts) (held : List Sums) (number : ℕ) (new : Map) (items : List Item)
        → HasPlaces p → ArePinned held p → p.frozen ≡ None → p.map.sectors ≡ sectors_in p.tops
        → IsFreeze number p.map new p.unfrozen.writes items → KeysRise items
        → ArePlacesGiven (seen_of held p) (cells_of items) }
    ensures keys { (p : PoolParts) (held : List Sums) (new : Map) (items : List Item)
        → HasForms p items → IsFreeze (p.highest + 1) p.map new p.unfrozen.writes items
        → AreDirtyKeys pool_codec (state_of held p) (cells_of items) }
{}
