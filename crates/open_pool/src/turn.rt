//! Turns: the frozen group comes onto the devices, one small step after another.
ghost use Rattle.std.specs.Prelude.{◌≡◌, ℕ, ◌<◌, ◌≤◌, true, false, length, map, is_some, All, IfErr, OnErr};
ghost use Rattle.block_map.specs.Keys.{root};
ghost use Rattle.block_map.specs.Map.{pointer_at};
ghost use Rattle.dtl_rules.specs.Widening.{leaves_of, marks_of, sectors_of};
ghost use Rattle.pool_config.specs.Seen.{ConfigSeen, parts_seen};
ghost use Rattle.pool_config.specs.Validity.{IsValid};
ghost use Rattle.pool_codec.specs.Codecs.{pool_codec};
ghost use Rattle.pool_moves.specs.LineRows.{RowTurn};
ghost use Rattle.pool_moves.specs.States.{PoolState};
ghost use Rattle.txg_engine.specs.Frozen.{AreSeated, is_written_out};
ghost use Rattle.txg_engine.specs.Items.{laid};
ghost use Rattle.txg_engine.specs.Logs.{IsReady};
ghost use Rattle.txg_engine.specs.Turns.{Scene, KeepsKeys, is_suspended, numbers_of};
ghost use Rattle.open_pool.specs.Turning.{WritesKey, FlushesBoard, ClosesRound, IsDue, goes_on, is_committed_turn, turns_in};

use crate::Pool;
use bank_core::Bank;
use block_map::BlockMap;
use mp_base::{BLOCK_BYTES, Group, Guid, Name};
use pool_codec::ConfigRule;
use pool_config::encode_into;
use std::mem::replace;
use txg_engine::{Closed, Frozen, Open, Suspended};
use vdev_tree::Top;

/// What a turn did.
#[derive(Clone, Copy, Debug, PartialEq, Eq)]
pub enum TurnDone {
    /// No group is frozen.
    Idle,
    /// A key's bytes were written on the board's leaves under its top.
    Write,
    /// The board's leaves were flushed.
    Flush,
    /// A leaf failed in the round of this number, and a further one was drawn.
    Round(Group),
    /// The record of this number is acknowledged.
    Committed(Group),
}

// A write turn, as a pool answers it.
fn write_next<B: Bank>(
    bank: &mut B,
    frozen: &mut Frozen,
    tops: &mut [Top],
) -> Result<TurnDone, Suspended>
    requires left { frozen.old.written < length frozen.old.items }
    requires unacked { frozen.old.acked ≡ false }
    requires seated { AreSeated (B.view bank.old).size (sectors_of tops.old) frozen.old }
    requires tops { length tops.old ≤ 8 }
    requires ready { All (IsReady frozen.old.board frozen.old.numbers.last.0) (leaves_of tops.old) }
    ensures turn { WritesKey (numbers_of tops.new) (record { group = frozen.old; leaves = leaves_of tops.old; bank = B.view bank.old })
        (record { group = frozen.new; leaves = leaves_of tops.new; bank = B.view bank.new }) result }
    ensures ready { All (IsReady frozen.new.board frozen.new.numbers.last.0) (leaves_of tops.new) }
    ensures keys { KeepsKeys frozen.old frozen.new }
    ensures suspended { OnErr result (is_suspended (numbers_of tops.new) frozen.new ≡ true) }
    ensures acked { frozen.new.acked ≡ is_committed_turn result }
    ensures built { marks_of tops.new ≡ marks_of tops.old }
    ensures sectors { sectors_of tops.new ≡ sectors_of tops.old }
{
    frozen.write_turn(bank, tops)?;
    Ok(TurnDone::Write)
}

// The flush turn, as a pool answers it.
fn flush_next<B: Bank>(
    bank: &mut B,
    frozen: &mut Frozen,
    tops: &mut [Top],
) -> Result<TurnDone, Suspended>
    requires written { frozen.old.written ≡ length frozen.old.items }
    requires unflushed { frozen.old.flushed ≡ false }
    requires unacked { frozen.old.acked ≡ false }
    requires seated { AreSeated (B.view bank.old).size (sectors_of tops.old) frozen.old }
    requires tops { length tops.old ≤ 8 }
    requires ready { All (IsReady frozen.old.board frozen.old.numbers.last.0) (leaves_of tops.old) }
    ensures turn { FlushesBoard (numbers_of tops.new) (record { group = frozen.old; leaves = leaves_of tops.old; bank = B.view bank.old })
        (record { group = frozen.new; leaves = leaves_of tops.new; bank = B.view bank.new }) result }
    ensures ready { All (IsReady frozen.new.board frozen.new.numbers.last.0) (leaves_of tops.new) }
    ensures keys { KeepsKeys frozen.old frozen.new }
    ensures suspended { OnErr result (is_suspended (numbers_of tops.new) frozen.new ≡ true) }
    ensures acked { frozen.new.acked ≡ is_committed_turn result }
    ensures built { marks_of tops.new ≡ marks_of tops.old }
    ensures sectors { sectors_of tops.new ≡ sectors_of tops.old }
{
    frozen.flush_turn(bank, tops)?;
    Ok(TurnDone::Flush)
}

/// What a record says of its pool besides its number, its tops and its root.
#[derive(Drop)]
pub(crate) struct Title<'a> {
    pub(crate) pool: Guid,
    pub(crate) name: &'a Name,
    pub(crate) blocks: u64,
    pub(crate) next: u64,
    pub(crate) spares: &'a [Name],
}

// A round, as a pool answers it, of the record that is drawn up from the tops as they are.
pub(crate) fn close_next<B: Bank>(
    bank: &mut B,
    frozen: &mut Frozen,
    tops: &mut [Top],
    map: &BlockMap,
    title: &Title,
    config: &mut [u8],
) -> Result<TurnDone, Suspended>
    requires flushed { frozen.old.flushed ≡ true }
    requires unacked { frozen.old.acked ≡ false }
    requires seated { AreSeated (B.view bank.old).size (sectors_of tops.old) frozen.old }
    requires tops { length tops.old ≤ 8 }
    requires ready { All (IsReady frozen.old.board frozen.old.numbers.last.0) (leaves_of tops.old) }
    requires valid { IsValid (parts_seen title.now.pool title.now.name.now title.now.blocks frozen.old.numbers.last title.now.next
        (laid frozen.old.items (pointer_at map.now) root) tops.old title.now.spares.now) }
    requires part { length config.old ≡ 114688 }
    ensures turn { ClosesRound (parts_seen title.now.pool title.now.name.now title.now.blocks frozen.old.numbers.last title.now.next
        (laid frozen.old.items (pointer_at map.now) root) tops.old title.now.spares.now) (numbers_of tops.new)
        (record { group = frozen.old; leaves = leaves_of tops.old; bank = B.view bank.old })
        (record { group = frozen.new; leaves = leaves_of tops.new; bank = B.view bank.new }) result }
    ensures ready { All (IsReady frozen.new.board frozen.new.numbers.last.0) (leaves_of tops.new) }
    ensures keys { KeepsKeys frozen.old frozen.new }
    ensures suspended { OnErr result (is_suspended (numbers_of tops.new) frozen.new ≡ true) }
    ensures acked { frozen.new.acked ≡ is_committed_turn result }
    ensures built { marks_of tops.new ≡ marks_of tops.old }
    ensures sectors { sectors_of tops.new ≡ sectors_of tops.old }
    ensures part { length config.new ≡ length config.old }
{
    let root = frozen.root(map);
    let number = frozen.numbers().last;
    let length = encode_into(
        title.pool,
        title.name,
        title.blocks,
        number,
        title.next,
        &root,
        tops,
        title.spares,
        config,
    );
    let blob = &config[..length.next_multiple_of(BLOCK_BYTES)];
    match frozen.close_turn::<B, ConfigRule>(bank, tops, title.pool, blob, length)? {
        Closed::Committed(number) => Ok(TurnDone::Committed(number)),
        Closed::Round(number) => Ok(TurnDone::Round(number)),
    }
}

// The turn that is due, as a pool answers it.
fn make_turn<B: Bank>(
    bank: &mut B,
    frozen: &mut Frozen,
    tops: &mut [Top],
    map: &BlockMap,
    title: &Title,
    config: &mut [u8],
) -> Result<TurnDone, Suspended>
    requires unacked { frozen.old.acked ≡ false }
    requires seated { AreSeated (B.view bank.old).size (sectors_of tops.old) frozen.old }
    requires tops { length tops.old ≤ 8 }
    requires ready { All (IsReady frozen.old.board frozen.old.numbers.last.0) (leaves_of tops.old) }
    requires valid { IsValid (parts_seen title.now.pool title.now.name.now title.now.blocks frozen.old.numbers.last title.now.next
        (laid frozen.old.items (pointer_at map.now) root) tops.old title.now.spares.now) }
    requires part { length config.old ≡ 114688 }
    ensures turn { IsDue (parts_seen title.now.pool title.now.name.now title.now.blocks frozen.old.numbers.last title.now.next
        (laid frozen.old.items (pointer_at map.now) root) tops.old title.now.spares.now) (numbers_of tops.new)
        (record { group = frozen.old; leaves = leaves_of tops.old; bank = B.view bank.old })
        (record { group = frozen.new; leaves = leaves_of tops.new; bank = B.view bank.new }) result }
    ensures ready { All (IsReady frozen.new.board frozen.new.numbers.last.0) (leaves_of tops.new) }
    ensures keys { KeepsKeys frozen.old frozen.new }
    ensures suspended { OnErr result (is_suspended (numbers_of tops.new) frozen.new ≡ true) }
    ensures acked { frozen.new.acked ≡ is_committed_turn result }
    ensures built { marks_of tops.new ≡ marks_of tops.old }
    ensures sectors { sectors_of tops.new ≡ sectors_of tops.old }
    ensures part { length config.new ≡ length config.old }
{
    frozen.keeps_its_form();
    if !frozen.is_written_out() {
        return write_next(bank, frozen, tops);
    }
    if !frozen.is_flushed() {
        return flush_next(bank, frozen, tops);
    }
    close_next(bank, frozen, tops, map, title, config)
}

impl Pool {
    ghost use Rattle.open_pool.specs.Answering.{Does};
    ghost use Rattle.open_pool.specs.Committing.{turn_says};
    ghost use Rattle.open_pool.specs.Here.{AreHere};
    ghost use Rattle.open_pool.specs.State.{Stands};

    /// One turn of the frozen group: a write turn for each of its keys, then the flush turn, then rounds up to one in which no
    /// leaf failed. It takes no memory.
    ///
    /// At `Err` the group is suspended, since a top has nobody left on its board: its writes stand in the open group again, where
    /// newer ones win, and a later `sync` tries them anew.
    pub fn turn<B: Bank>(&mut self, bank: &mut B) -> Result<TurnDone, Suspended>
        requires { AreHere (B.view bank.old).size self.old.tops }
        ensures row { (s : PoolState) → Stands self.old s
            → Does (RowTurn pool_codec (B.view bank.old).size s) turn_says result s self.new (B.view bank.old) (B.view bank.new) }
        ensures told { IfErr result (λ suspended. 1 ≤ suspended.faults) }
        ensures here { (size : ℕ → ℕ) → AreHere size self.old.tops → AreHere size self.new.tops }
        ensures goes_on { is_some self.new.frozen ≡ goes_on result }
        ensures fewer { is_some self.old.frozen ≡ true → turns_in self.new.frozen < turns_in self.old.frozen }
    {
        self.keeps_its_form();
        let Some(mut frozen) = self.frozen.take() else {
            return Ok(TurnDone::Idle);
        };
        let title = Title {
            pool: self.pool,
            name: &self.name,
            blocks: self.map.blocks(),
            next: self.next,
            spares: &self.spares,
        };
        let turn = make_turn(
            bank,
            &mut frozen,
            &mut self.tops,
            &self.map,
            &title,
            &mut self.config,
        );
        frozen.keeps_its_form();
        self.highest = frozen.numbers().last;
        let done = match turn {
            Ok(done) => done,
            Err(suspended) => {
                let newer = replace(&mut self.open, Open::without_room(self.alloc));
                self.open = frozen.burn(newer, &mut self.map, &mut self.tops, &mut self.pins);
                self.open.keeps_its_form();
                self.dirty = self.open.len();
                return Err(suspended);
            }
        };
        let TurnDone::Committed(number) = done else {
            self.frozen = Some(frozen);
            return Ok(done);
        };
        frozen.adopt(&mut self.map, &mut self.pins);
        self.read = number;
        self.dirty = self.open.len();
        Ok(done)
    }
}
