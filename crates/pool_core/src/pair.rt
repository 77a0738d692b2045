//! The tree of a pool at this stage: one top, a mirror of two leaves.
ghost use Rattle.std.specs.Prelude.{◌≡◌, ◌≢◌, ◌+◌, ◌<◌, ◌≤◌, ◌^◌, ◌++◌, [], ℕ, Some, IfOk, IfSome, IfNone, cond, length, slice_get};
ghost use Rattle.std.specs.Bool.{beq};
ghost use Rattle.std.specs.Option.{option_map, option_to_list};
ghost use Rattle.pool_core.specs.Keeping.{IsLeaf};
ghost use Rattle.pool_core.specs.Pairs.{both};
ghost use Rattle.pool_core.specs.State.{LeafState, seat_of};
ghost use Rattle.mp_base.specs.declared.number.Guid.{Guid};

use crate::board::Board;
use dtl_rules::{fit_one, required};
use label_store::Member;
use mp_base::{Group, Guid, MemFault, Name};
use std::alloc::Global;
use std::marker::Model;
use vdev_tree::{LeafVdev, State, Top};

/// A mirror of two leaves.
#[derive(Drop)]
pub struct Pair {
    top: Top,
}

impl Model for Pair {
    ghost use Rattle.pool_core.specs.Pairs.{PairState, pair_in, HasTwo};

    ghost Value = { PairState };

    ghost view = { λ pair. pair_in pair.top };

    ghost invariant = { λ pair. HasTwo pair.top };
}

impl Pair {
    ghost use Rattle.pool_core.specs.Away.{LeastOut, IsRequired, others, leaf_named, with_leaf, taken_offline, brought, marked};
    ghost use Rattle.pool_core.specs.Keeping.{Stands};
    ghost use Rattle.pool_core.specs.Logs.{drawn};
    ghost use Rattle.pool_core.specs.Pairs.{IsLoggedTo};
    ghost use Rattle.pool_core.specs.Reading.{tries};
    ghost use Rattle.pool_core.specs.State.{PoolState, leaves, board};

    pub(crate) fn new(
        alloc: Global,
        mirror: Guid,
        sectors: u64,
        first: LeafVdev,
        second: LeafVdev,
    ) -> Result<Pair, MemFault>
        ensures mirror { IfOk result (λ pair. pair.mirror ≡ mirror) }
        ensures sectors { IfOk result (λ pair. pair.sectors ≡ sectors) }
        ensures first { IfOk result (λ pair. pair.first ≡ first) }
        ensures second { IfOk result (λ pair. pair.second ≡ second) }
    {
        Ok(Pair {
            top: Top::pair(alloc, mirror, sectors, first, second)?,
        })
    }

    pub(crate) fn mirror(&self) -> Guid
        ensures { result ≡ self.now.mirror }
    {
        self.top.mirror.guid()
    }

    pub(crate) fn sectors(&self) -> u64
        ensures { result ≡ self.now.sectors }
    {
        self.top.sectors
    }

    pub(crate) fn first(&self) -> &LeafVdev
        ensures { result.now ≡ self.now.first }
    {
        self.leaf(0)
    }

    pub(crate) fn second(&self) -> &LeafVdev
        ensures { result.now ≡ self.now.second }
    {
        self.leaf(1)
    }

    // The leaves that a commit is made on.
    pub(crate) fn board(&self) -> Board
        ensures { (s : PoolState) → Stands self.now s → result ≡ board s }
    {
        let mut board = Board::new();
        push_seat(&mut board, self.first());
        push_seat(&mut board, self.second());
        board
    }

    // The copies of a block of this birth in the order in which they are tried: those of the readable leaves that
    // don't owe it, and behind them those of the readable ones that do, each in tree order.
    pub(crate) fn tries(&self, birth: Group) -> Board
        ensures { (s : PoolState) → Stands self.now s → result ≡ tries birth.0 (leaves s) }
    {
        let mut tries = Board::new();
        push_copy(&mut tries, self.first(), birth, false);
        push_copy(&mut tries, self.second(), birth, false);
        push_copy(&mut tries, self.first(), birth, true);
        push_copy(&mut tries, self.second(), birth, true);
        tries
    }

    // The number of the leaf on the device of this name.
    pub(crate) fn named(&self, name: &Name) -> Option<Guid>
        ensures { (s : PoolState) → Stands self.now s → result ≡ option_map (λ leaf. leaf.member) (leaf_named name.now (leaves s)) }
    {
        self.top.find(name)
    }

    // The least group that could be read from no other leaf.
    pub(crate) fn required(&self, at: Guid) -> Option<Group>
        requires not_root { at.0 ≢ 0 }
        requires not_mirror { at ≢ self.now.mirror }
        ensures some { (s : PoolState) → Stands self.now s → IfSome result (λ g. LeastOut (others at (leaves s)) g.0) }
        ensures none { (s : PoolState) → Stands self.now s → IfNone result (¬ (IsRequired s at)) }
    {
        required(&self.top, at)
    }

    pub(crate) fn take_offline(&mut self, at: Guid, temporary: bool)
        ensures { (s : PoolState) → Stands self.old s → Stands self.new (with_leaf at (taken_offline temporary) s) }
    {
        self.top.set_state(at, State::Offline, temporary);
    }

    // The leaf is back, on this device.
    pub(crate) fn bring(&mut self, at: Guid, dev: u32)
        ensures { (s : PoolState) → Stands self.old s → Stands self.new (with_leaf at (brought dev) s) }
    {
        self.top.bring(at, dev);
    }

    pub(crate) fn mark(&mut self, at: Guid)
        ensures { (s : PoolState) → Stands self.old s → Stands self.new (with_leaf at marked s) }
    {
        self.top.mark(at);
    }

    // The pair behind the draw of this number: each leaf that is away owes it, and logs of too many ranges are widened.
    pub(crate) fn drawn(&self, alloc: Global, number: Group) -> Result<Pair, MemFault>
        requires first { 1 ≤ number.0 }
        requires last { number.0 ≤ 2 ^ 62 }
        requires first_log { IsLoggedTo number.0 self.now.first }
        requires second_log { IsLoggedTo number.0 self.now.second }
        ensures { (s : PoolState) → Stands self.now s → s.number + 1 ≡ number.0 → IfOk result (λ next. Stands next (drawn s)) }
    {
        let mut top = self.top.copy(alloc)?;
        top.reserve(1)?;
        top.owe(number);
        fit_one(&mut top);
        Ok(Pair { top })
    }

    fn leaf(&self, place: usize) -> &LeafVdev
        requires { place < 2 }
        ensures { Some result.now ≡ slice_get (both self.now) place }
    {
        match self.top.leaf_at(place) {
            Some(leaf) => leaf,
            None => unreachable!(),
        }
    }
}

// The leaf's member on its device, where it is readable.
fn seat_of(leaf: &LeafVdev) -> Option<Member>
    ensures { (state : LeafState) → IsLeaf leaf.now state → result ≡ seat_of state }
{
    if !leaf.state.is_up() {
        return None;
    }
    let dev = leaf.dev?;
    Some(Member {
        dev,
        guid: leaf.guid,
    })
}

// Adds the leaf's member, where it is readable.
fn push_seat(board: &mut Board, leaf: &LeafVdev)
    requires { length board.old < 32 }
    ensures { (state : LeafState) → IsLeaf leaf.now state → board.new ≡ board.old ++ option_to_list (seat_of state) }
{
    if let Some(member) = seat_of(leaf) {
        board.push(member);
    }
}

// Adds it where it owes this group, or where it doesn't.
fn push_copy(board: &mut Board, leaf: &LeafVdev, group: Group, owing: bool)
    requires { length board.old < 32 }
    ensures { (state : LeafState) → IsLeaf leaf.now state
        → board.new ≡ board.old ++ cond (beq (state.owes group.0) owing) (option_to_list (seat_of state)) [] }
{
    if leaf.log.contains(group) == owing {
        push_seat(board, leaf);
    }
}
