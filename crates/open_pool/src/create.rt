//! A create: the members of a new pool are stamped, and its first record is committed.
ghost use Rattle.std.specs.Prelude.{◌≡◌, ◌<◌, slice_get, ◌≤◌, ℕ, List, Some, length, All, IfOk, IfSome, IfNone, Ok, false};
ghost use Rattle.pool_moves.specs.StampRow.{NewMember};
ghost use Rattle.open_pool.specs.Creating.{Creates, CreatesOrStops, IsAsked, IsBegun, MayCommit, StampsSeats, first_off, members_of, names_of};
ghost use Rattle.open_pool.specs.Here.{AreHere};
ghost use Rattle.open_pool.specs.Turning.{is_committed_turn};

use crate::Pool;
use crate::freeze::freeze_parts;
use crate::new_tops::{NewLeaf, NewTops, new_tops};
use crate::pages::sectors_of;
use crate::reopening::part;
use crate::turn::{Title, TurnDone, close_next};
use bank_core::Bank;
use block_map::BlockMap;
use label_store::stamp;
use mp_base::{Group, Guid, MemFault, Name};
use std::alloc::Global;
use txg_engine::{Frozen, Open, Pins, Seat, Suspended};
use vdev_tree::Top;

/// Why no pool is there.
#[derive(Clone, Copy)]
pub enum CreateFault<'a> {
    /// This device is the first that failed.
    Device(&'a Name),
    /// There was no memory.
    Memory,
}

/// A pool before its first commit, with all memory that it takes: its first group, which has no keys, is frozen.
#[derive(Drop)]
struct Begun {
    name: Name,
    next: u64,
    map: BlockMap,
    pins: Pins,
    tops: Vec<Top>,
    unfrozen: Open,
    frozen: Frozen,
    config: Vec<u8>,
}

impl Pool {
    /// A new pool of so many blocks over these tops. Each leaf's device is stamped with the leaf's identity, in tree order, and
    /// then record 1 is committed by one round over all of them.
    ///
    /// Where a stamp or the round fails, no pool is there, and the first device that failed is named. At `Memory` no call was
    /// made.
    pub fn create<'a, B: Bank>(
        alloc: Global,
        bank: &mut B,
        name: &Name,
        pool: Guid,
        blocks: u64,
        tops: &'a [Vec<NewLeaf>],
    ) -> Result<Pool, CreateFault<'a>>
        requires { IsAsked (B.view bank.old).size blocks (members_of tops.now) }
        ensures row { CreatesOrStops name.now pool blocks (members_of tops.now) result (B.view bank.old) (B.view bank.new) }
        ensures here { IfOk result (λ pool. AreHere (B.view bank.new).size pool.tops) }
    {
        let Ok(begun) = begin(alloc, bank, name, blocks, tops) else {
            return Err(CreateFault::Memory);
        };
        match begun.commit(alloc, bank, pool, blocks) {
            Ok(pool) => Ok(pool),
            Err(place) => Err(CreateFault::Device(name_at(tops, place))),
        }
    }
}

// The name of the leaf at this place in tree order.
fn name_at(tops: &[Vec<NewLeaf>], place: usize) -> &Name
    requires { place < length (names_of tops.now) }
    ensures { slice_get (names_of tops.now) place ≡ Some result.now }
{
    let mut rest = place;
    for i in 0..tops.len() {
        let leaves: &[NewLeaf] = &tops[i];
        if rest < leaves.len() {
            return &leaves[rest].name;
        }
        rest -= leaves.len();
    }
    unreachable!()
}

// Takes all memory of a create.
fn begin<B: Bank>(
    alloc: Global,
    bank: &B,
    name: &Name,
    blocks: u64,
    tops: &[Vec<NewLeaf>],
) -> Result<Begun, MemFault>
    requires { IsAsked (B.view bank.now).size blocks (members_of tops.now) }
    ensures { IfOk result (IsBegun (B.view bank.now).size name.now blocks (members_of tops.now)) }
{
    let name = name.copy(alloc)?;
    let NewTops { mut tops, next } = new_tops(alloc, bank, tops)?;
    let sectors = sectors_of(&tops);
    let mut map = BlockMap::new(alloc, blocks, &sectors[..tops.len()])?;
    let mut pins = Pins::new(alloc);
    let mut unfrozen = Open::new(alloc)?;
    let config = part(alloc)?;
    let number = Group(1);
    // All leaves may be written and no key asks for a place, so memory alone may be wanting.
    let Ok(frozen) = freeze_parts(alloc, &mut unfrozen, &mut map, &mut tops, &mut pins, number)
    else {
        return Err(MemFault);
    };
    Ok(Begun {
        name,
        next,
        map,
        pins,
        tops,
        unfrozen,
        frozen,
        config,
    })
}

impl Begun {
    // Stamps the members, and commits the first record. At `Err` the device of the leaf at this place failed.
    fn commit<B: Bank>(
        mut self,
        alloc: Global,
        bank: &mut B,
        pool: Guid,
        blocks: u64,
    ) -> Result<Pool, usize>
        requires { MayCommit (B.view bank.old).size blocks self }
        ensures row { (asked : List (List NewMember)) → IsAsked (B.view bank.old).size blocks asked
            → IsBegun (B.view bank.old).size self.name blocks asked self
            → Creates self.name pool blocks asked result (B.view bank.old) (B.view bank.new) }
        ensures here { IfOk result (λ pool. AreHere (B.view bank.new).size pool.tops) }
    {
        self.name.spells_a_name();
        if let Err(place) = stamp_board(bank, pool, self.frozen.board().seats()) {
            return Err(place);
        }
        self.frozen.skip_flush();
        self.frozen.keeps_its_form();
        let title = Title {
            pool,
            name: &self.name,
            blocks,
            next: self.next,
            spares: &[],
        };
        let turn = close_next(
            bank,
            &mut self.frozen,
            &mut self.tops,
            &self.map,
            &title,
            &mut self.config,
        );
        let Some(number) = committed(turn) else {
            return Err(first_off(self.frozen.board().seats()));
        };
        self.frozen.adopt(&mut self.map, &mut self.pins);
        Ok(Pool {
            alloc,
            name: self.name,
            pool,
            next: self.next,
            highest: number,
            read: number,
            map: self.map,
            pins: self.pins,
            tops: self.tops,
            spares: Vec::new(alloc),
            open: self.unfrozen,
            frozen: None,
            dirty: 0,
            scan: None,
            config: self.config,
        })
    }
}

// The record that was acknowledged.
fn committed(turn: Result<TurnDone, Suspended>) -> Option<Group>
    ensures some { IfSome result (λ number. turn ≡ Ok (TurnDone.Committed number)) }
    ensures none { IfNone result (is_committed_turn turn ≡ false) }
{
    match turn {
        Ok(TurnDone::Committed(number)) => Some(number),
        _ => None,
    }
}

// Stamps the members of a board, up to the first whose stamp fails; it is at this place.
fn stamp_board<B: Bank>(bank: &mut B, pool: Guid, seats: &[Seat]) -> Result<(), usize>
    requires { All (λ seat. 320 ≤ (B.view bank.old).size seat.member.dev) seats.now }
    ensures { StampsSeats pool seats.now result (B.view bank.old) (B.view bank.new) }
{
    for i in 0..seats.len() {
        let member = seats[i].member;
        if stamp(bank, member.dev, pool, member.guid).is_err() {
            return Err(i);
        }
    }
    Ok(())
}

// The place of the first leaf that left the board.
fn first_off(seats: &[Seat]) -> usize
    ensures { result ≡ first_off seats.now }
{
    for i in 0..seats.len() {
        if !seats[i].on {
            return i;
        }
    }
    seats.len()
}
