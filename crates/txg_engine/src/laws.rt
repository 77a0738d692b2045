//! What follows of the definitions alone: the clauses of functions with empty bodies.
ghost use Rattle.std.specs.Prelude.{◌≡◌, ℕ, ◌+◌, ◌<◌, ◌==◌, Bool, true, List, [], length, map, Some, is_some, if◌then◌else◌};
ghost use Rattle.mp_base.specs.declared.number.Group.{Group};
ghost use Rattle.mp_base.specs.declared.number.Guid.{Guid};
ghost use Rattle.label_store.specs.declared.member.Member.{Member};
ghost use Rattle.vdev_tree.specs.declared.top.Top.{Top};
ghost use Rattle.block_map.specs.Map.{Map};
ghost use Rattle.txg_engine.specs.declared.item.Item.{Item};
ghost use Rattle.txg_engine.specs.declared.seat.Seat.{Seat};
ghost use Rattle.txg_engine.specs.declared.write.Write.{Write};
ghost use Rattle.txg_engine.specs.Boards.{as_taken, behind_turn, failed, has_seat, without};
ghost use Rattle.txg_engine.specs.Ending.{fresh_count};
ghost use Rattle.txg_engine.specs.Freezing.{IsFreeze};
ghost use Rattle.txg_engine.specs.Frozen.{FrozenGroup, KeysRise};
ghost use Rattle.txg_engine.specs.Items.{frozen_block};
ghost use Rattle.txg_engine.specs.Refusing.{BeginsGroup};
ghost use Rattle.txg_engine.specs.Writes.{block_at, is_written};

/// A group that was just frozen has a seat for each top, and what turns, leavers and failed calls make of a board keeps them. So
/// each suspension of it tells at least one failed call.
pub fn groups_seat_each_top()
    ensures frozen { (number : Group) (writes : List Write) (old new : Map) (tops : List Top) (group : FrozenGroup)
        → BeginsGroup number writes old new tops group → (top : ℕ) → top < length tops → has_seat top group.board ≡ true }
    ensures turns { (ms : List Member) (done : List Bool) (top : ℕ) (seats : List Seat)
        → has_seat top (behind_turn ms done seats) ≡ has_seat top seats }
    ensures taken { (m : Guid) (top : ℕ) (seats : List Seat)
        → has_seat top (map (without m) (map (as_taken m) seats)) ≡ has_seat top seats }
    ensures counted { (m : Guid) (top : ℕ) (seats : List Seat) → has_seat top (map (failed m) seats) ≡ has_seat top seats }
{}

/// How many addresses an open group and a frozen one have together is the open one's count of writes, and `fresh_count` of the
/// blocks of the frozen one that it lacks. A group that was just frozen has as many as were written. A write that takes an
/// address which neither group had adds one to them, and any other one adds none.
pub fn groups_count_their_addresses()
    ensures frozen { (number : ℕ) (old new : Map) (writes : List Write) (items : List Item) → IsFreeze number old new writes items
        → fresh_count [] items ≡ length writes }
    ensures put { (items : List Item) (old new : List Write) (addr : ℕ) (block : List ℕ) → KeysRise items
        → ((a : ℕ) → block_at new a ≡ (if addr == a then Some block else block_at old a))
        → fresh_count new items + (if is_written old addr then 0 else (if is_some (frozen_block items addr) then 1 else 0))
        ≡ fresh_count old items }
{}
