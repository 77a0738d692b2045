//! The board of a frozen group: the leaves that made each of its calls so far.
ghost use Rattle.std.specs.Prelude.{◌≡◌, ◌+◌, ◌-◌, ◌^◌, ◌≤◌, ◌<◌, ◌∷◌, ◌++◌, [], min, length, map, IfOk, IfSome, OnOk};
ghost use Rattle.std.specs.List.{filter_map};
ghost use Rattle.vdev_tree.specs.Tree.{leaves};
ghost use Rattle.vdev_tree.specs.declared.vdev.LeafVdev.{LeafVdev};
ghost use Rattle.dtl_rules.specs.Widening.{leaves_of};
ghost use Rattle.txg_engine.specs.Boards.{is_on_under, board_of, board_under, has_on, on_board, emptied, faults_under};
ghost use Rattle.txg_engine.specs.Boards.{without, as_taken, failed, seat_of, seats_of};

use crate::members::Members;
use crate::seat::{MOST_LEAVES, Seat};
use label_store::Member;
use mp_base::{Guid, MemFault};
use std::alloc::Global;
use std::marker::Model;
use vdev_tree::{LeafVdev, Top};

/// The leaves that were on the board at the freeze, in tree order, and which of them are on it still.
#[derive(Drop)]
pub struct Board {
    seats: Vec<Seat>,
}

impl Model for Board {
    ghost use Rattle.std.specs.Prelude.{◌≤◌, List, length};
    ghost use Rattle.txg_engine.specs.declared.seat.Seat.{Seat};

    ghost Value = { List Seat };

    ghost view = { λ board. board.seats.items };

    ghost invariant = { λ board. length board.seats.items ≤ 32 };
}

impl Board {
    /// Each readable leaf that has a device.
    pub(crate) fn over(alloc: Global, tops: &[Top]) -> Result<Board, MemFault>
        requires tops { length tops.now ≤ 8 }
        requires few { length (leaves_of tops.now) ≤ 32 }
        ensures { IfOk result (λ board. board ≡ seats_of 0 tops.now) }
    {
        let mut seats = Vec::with_capacity(alloc, MOST_LEAVES)?;
        for i in 0..tops.len() {
            seat_all(&mut seats, &tops[i], i as u32)?;
        }
        Ok(Board { seats })
    }

    /// The leaves, in tree order.
    pub fn seats(&self) -> &[Seat]
        ensures { result.now ≡ self.now }
    {
        &self.seats
    }

    /// Whether the leaf of this number is on the board.
    pub fn has(&self, member: Guid) -> bool
        ensures { result ≡ on_board self.now member }
    {
        self.seats
            .iter()
            .any(|seat| seat.on && seat.member.guid == member)
    }

    /// Who is on the board.
    pub(crate) fn members(&self) -> Members
        ensures members { result ≡ board_of self.now }
        ensures few { length result ≤ 32 }
    {
        members_of(&self.seats)
    }

    /// Who is on the board under a top.
    pub(crate) fn members_under(&self, top: u32) -> Members
        ensures members { result ≡ board_under top self.now }
        ensures few { length result ≤ 32 }
    {
        members_of_top(&self.seats, top)
    }

    fn has_under(&self, top: u32) -> bool
        ensures { result ≡ has_on top self.now }
    {
        self.seats.iter().any(|seat| seat.on && seat.top == top)
    }

    /// The first of so many tops that has nobody on the board.
    pub(crate) fn emptied(&self, tops: u32) -> Option<u32>
        ensures top { result ≡ emptied tops self.now }
        ensures inside { IfSome result (λ top. top < tops) }
    {
        for top in 0..tops {
            if !self.has_under(top) {
                return Some(top);
            }
        }
        None
    }

    /// How many calls failed on the leaves of a top.
    pub(crate) fn faults_under(&self, top: u32) -> u64
        ensures { result ≡ min (2 ^ 64 - 1) (faults_under top self.now) }
    {
        faults_of_top(&self.seats, top)
    }

    /// The leaf of this number is off the board.
    pub(crate) fn remove(&mut self, member: Guid)
        ensures { self.new ≡ map (without member) self.old }
    {
        remove_from(&mut self.seats, member);
    }

    /// The leaf of this number, where it is on the board, is taken off by its pool.
    pub(crate) fn mark_taken(&mut self, member: Guid)
        ensures { self.new ≡ map (as_taken member) self.old }
    {
        mark_taken_in(&mut self.seats, member);
    }

    /// A call on the leaf of this number failed.
    pub(crate) fn count_fault(&mut self, member: Guid)
        ensures { self.new ≡ map (failed member) self.old }
    {
        count_in(&mut self.seats, member);
    }
}

fn members_of(seats: &[Seat]) -> Members
    requires { length seats.now ≤ 32 }
    ensures members { result ≡ board_of seats.now }
    ensures few { length result ≤ 32 }
{
    let mut members = Members::new();
    for seat in seats {
        if seat.on {
            members.push(seat.member);
        }
    }
    members
}

fn members_of_top(seats: &[Seat], top: u32) -> Members
    requires { length seats.now ≤ 32 }
    ensures members { result ≡ board_under top seats.now }
    ensures few { length result ≤ 32 }
{
    let mut members = Members::new();
    for seat in seats {
        if seat.on && seat.top == top {
            members.push(seat.member);
        }
    }
    members
}

fn faults_of_top(seats: &[Seat], top: u32) -> u64
    ensures { result ≡ min (2 ^ 64 - 1) (faults_under top seats.now) }
{
    let mut faults = 0;
    for seat in seats {
        faults = with_faults(faults, seat, top);
    }
    faults
}

// One leaf more, where it is under this top.
fn with_faults(faults: u64, seat: &Seat, top: u32) -> u64
    ensures { result ≡ min (2 ^ 64 - 1) (faults + faults_under top (seat.now ∷ [])) }
{
    if seat.top == top {
        faults.saturating_add(seat.faults)
    } else {
        faults
    }
}

fn remove_from(seats: &mut Vec<Seat>, member: Guid)
    ensures { seats.new.items ≡ map (without member) seats.old.items }
{
    for i in 0..seats.len() {
        seats[i] = without(seats[i], member);
    }
}

fn without(seat: Seat, member: Guid) -> Seat
    ensures { result ≡ without member seat }
{
    Seat {
        on: seat.on && seat.member.guid != member,
        ..seat
    }
}

fn mark_taken_in(seats: &mut Vec<Seat>, member: Guid)
    ensures { seats.new.items ≡ map (as_taken member) seats.old.items }
{
    for i in 0..seats.len() {
        seats[i] = as_taken(seats[i], member);
    }
}

fn as_taken(seat: Seat, member: Guid) -> Seat
    ensures { result ≡ as_taken member seat }
{
    if seat.on && seat.member.guid == member {
        Seat {
            taken: true,
            ..seat
        }
    } else {
        seat
    }
}

fn count_in(seats: &mut Vec<Seat>, member: Guid)
    ensures { seats.new.items ≡ map (failed member) seats.old.items }
{
    for i in 0..seats.len() {
        seats[i] = failed(seats[i], member);
    }
}

fn failed(seat: Seat, member: Guid) -> Seat
    ensures { result ≡ failed member seat }
{
    if seat.member.guid != member {
        return seat;
    }
    Seat {
        faults: seat.faults.saturating_add(1),
        ..seat
    }
}

// Gives each leaf of a top that may be written a seat.
fn seat_all(seats: &mut Vec<Seat>, top: &Top, number: u32) -> Result<(), MemFault>
    requires { length (leaves top.now.mirror) ≤ 32 }
    ensures { OnOk result (seats.new.items ≡ seats.old.items ++ filter_map (seat_of number) (leaves top.now.mirror)) }
{
    for place in 0..MOST_LEAVES {
        let Some(leaf) = top.leaf_at(place) else {
            return Ok(());
        };
        seat_one(seats, leaf, number)?;
    }
    Ok(())
}

fn seat_one(seats: &mut Vec<Seat>, leaf: &LeafVdev, number: u32) -> Result<(), MemFault>
    ensures { OnOk result (seats.new.items ≡ seats.old.items ++ filter_map (seat_of number) (leaf.now ∷ [])) }
{
    if let Some(seat) = seat_of(leaf, number) {
        seats.push(seat)?;
    }
    Ok(())
}

fn seat_of(leaf: &LeafVdev, top: u32) -> Option<Seat>
    ensures { result ≡ seat_of top leaf.now }
{
    if !leaf.state.is_up() {
        return None;
    }
    let dev = leaf.dev?;
    Some(Seat {
        member: Member {
            dev,
            guid: leaf.guid,
        },
        top,
        on: true,
        taken: false,
        faults: 0,
    })
}
