//! The end of a commit: the round of the pool's record over its board.
ghost use Rattle.std.specs.Prelude.{◌≡◌, ℕ, ◌≤◌, List, length};
ghost use Rattle.bank_core.specs.Story.{fault_in};
ghost use Rattle.config_codec.specs.Fields.{parts_fields, parts_leaf};
ghost use Rattle.config_codec.specs.Validity.{IsValid};
ghost use Rattle.group_set.specs.Groups.{holds};
ghost use Rattle.group_set.specs.Ranges.{ranges_upto};
ghost use Rattle.label_store.specs.Seats.{AreSeated, AreApart};
ghost use Rattle.pool_core.specs.Commits.{failures};
ghost use Rattle.pool_core.specs.Pairs.{fields_from, leaf_fields};
ghost use Rattle.pool_core.specs.Recorded.{kept_of};
ghost use Rattle.pool_core.specs.Steps.{MakesRoundOf};

use crate::Pool;
use crate::board::{Board, MOST};
use crate::draft::Outline;
use crate::rule::ConfigRule;
use bank_core::{Bank, Fault};
use config_codec::{KeptState, LeafParts, Parts, encode_into};
use label_store::{Member, commit_record};
use mp_base::{BLOCK_BYTES, Group, GroupRange, Refusal};
use vdev_tree::{LeafVdev, State};

impl Pool {
    ghost use Rattle.mp_base.specs.declared.refusal.Refusal.TheVariants.{Suspended};
    ghost use Rattle.pool_core.specs.Drafts.{HasLogs};
    ghost use Rattle.pool_core.specs.Keeping.{Represents, IsSeated, Stands};
    ghost use Rattle.pool_core.specs.State.{PoolState, board};
    ghost use Rattle.pool_core.specs.Steps.{MakesOwnRound, FailsIn, EndsCommit};

    // Ends a commit over this board. Where a call failed before, or a leaf leaves the round, the pool is of no further use.
    pub(crate) fn end_commit<B: Bank>(
        &self,
        bank: &mut B,
        members: &Board,
        outline: Outline,
        before: Result<(), Fault>,
    ) -> Result<Group, Refusal>
        requires seated { IsSeated (B.view bank.old).size self.now }
        requires logs { HasLogs self.now.pair outline }
        requires board { (s : PoolState) → Stands self.now.pair s → members.now ≡ board s }
        ensures size { (d : ℕ) → (B.view bank.new).size d ≡ (B.view bank.old).size d }
        ensures numbers { (name : List ℕ) → (B.view bank.new).number_of name ≡ (B.view bank.old).number_of name }
        ensures lookups { (B.view bank.new).lookup_faults ≡ (B.view bank.old).lookup_faults }
        ensures ends { (s : PoolState) → Represents self.now s → EndsCommit (B.view bank.old).size s (fault_in before)
            (B.view bank.old).told (B.view bank.new).told (B.view bank.old).faults (B.view bank.new).faults result }
    {
        if before.is_err() {
            return Err(self.suspended(1));
        }
        match self.count_failures(bank, members, outline, &mut [true; MOST]) {
            0 => Ok(self.number),
            faults => Err(self.suspended(faults)),
        }
    }

    fn suspended(&self, faults: u64) -> Refusal
        ensures { result ≡ Suspended self.now.number self.now.pair.mirror faults }
    {
        Refusal::Suspended {
            group: self.number,
            top: self.pair.mirror(),
            faults,
        }
    }

    // Commits the record as it stands on this board by one round, and counts the leaves that left it.
    fn count_failures<B: Bank>(
        &self,
        bank: &mut B,
        members: &Board,
        outline: Outline,
        stayed: &mut [bool],
    ) -> u64
        requires seated { IsSeated (B.view bank.old).size self.now }
        requires logs { HasLogs self.now.pair outline }
        requires board { (s : PoolState) → Stands self.now.pair s → members.now ≡ board s }
        requires results { length members.now ≤ length stayed.old }
        ensures size { (d : ℕ) → (B.view bank.new).size d ≡ (B.view bank.old).size d }
        ensures numbers { (name : List ℕ) → (B.view bank.new).number_of name ≡ (B.view bank.old).number_of name }
        ensures lookups { (B.view bank.new).lookup_faults ≡ (B.view bank.old).lookup_faults }
        ensures round { (s : PoolState) → Represents self.now s → FailsIn (B.view bank.old).size s result
            (B.view bank.old).told (B.view bank.new).told (B.view bank.old).faults (B.view bank.new).faults }
    {
        let stayed = &mut stayed[..members.as_slice().len()];
        self.commit_round(bank, members, outline, stayed);
        failures(stayed)
    }

    // Commits the record as it stands on this board by one round; false for a leaf that left it.
    pub(crate) fn commit_round<B: Bank>(
        &self,
        bank: &mut B,
        members: &Board,
        outline: Outline,
        stayed: &mut [bool],
    )
        requires seated { IsSeated (B.view bank.old).size self.now }
        requires logs { HasLogs self.now.pair outline }
        requires board { (s : PoolState) → Stands self.now.pair s → members.now ≡ board s }
        requires results { length stayed.old ≡ length members.now }
        ensures size { (d : ℕ) → (B.view bank.new).size d ≡ (B.view bank.old).size d }
        ensures numbers { (name : List ℕ) → (B.view bank.new).number_of name ≡ (B.view bank.old).number_of name }
        ensures lookups { (B.view bank.new).lookup_faults ≡ (B.view bank.old).lookup_faults }
        ensures round { (s : PoolState) → Represents self.now s → MakesOwnRound (B.view bank.old).size s stayed.new
            (B.view bank.old).told (B.view bank.new).told (B.view bank.old).faults (B.view bank.new).faults }
    {
        let mut part = outline.part;
        let parts = self.parts(outline.first_log.as_slice(), outline.second_log.as_slice());
        commit_parts(bank, members.as_slice(), &parts, &mut part, stayed);
    }

    // The parts of its configuration, with these logs.
    fn parts<'a>(&'a self, first_log: &'a [GroupRange], second_log: &'a [GroupRange]) -> Parts<'a>
        requires first { first_log.now ≡ ranges_upto (holds self.now.pair.first.log) self.now.number.0 }
        requires second { second_log.now ≡ ranges_upto (holds self.now.pair.second.log) self.now.number.0 }
        ensures { parts_fields result ≡ fields_from self.now.pool self.now.name self.now.blocks self.now.number
            self.now.next_member self.now.pointers.items self.now.pair }
    {
        Parts {
            pool: self.pool,
            name: &self.name,
            blocks: self.blocks,
            number: self.number,
            next_member: self.next_member,
            pointers: &self.pointers,
            sectors: self.pair.sectors(),
            mirror: self.pair.mirror(),
            first: leaf_parts(self.pair.first(), first_log),
            second: leaf_parts(self.pair.second(), second_log),
        }
    }
}

// Commits the record of a configuration on these members by one round; false for one that left it.
fn commit_parts<B: Bank>(
    bank: &mut B,
    members: &[Member],
    parts: &Parts,
    part: &mut [u8],
    stayed: &mut [bool],
)
    requires valid { IsValid (parts_fields parts.now) }
    requires seated { AreSeated (B.view bank.old).size members.now }
    requires apart { AreApart members.now }
    requires part { length part.old ≡ 114688 }
    requires results { length stayed.old ≡ length members.now }
    ensures size { (d : ℕ) → (B.view bank.new).size d ≡ (B.view bank.old).size d }
    ensures numbers { (name : List ℕ) → (B.view bank.new).number_of name ≡ (B.view bank.old).number_of name }
    ensures lookups { (B.view bank.new).lookup_faults ≡ (B.view bank.old).lookup_faults }
    ensures round { MakesRoundOf (B.view bank.old).size (parts_fields parts.now) members.now stayed.new
        (B.view bank.old).told (B.view bank.new).told (B.view bank.old).faults (B.view bank.new).faults }
{
    let length = encode_into(parts, part);
    let sectors = length.div_ceil(BLOCK_BYTES);
    commit_record::<B, ConfigRule>(
        bank,
        members,
        parts.pool,
        parts.number,
        &part[..sectors * BLOCK_BYTES],
        length,
        stayed,
    );
}

// What a record keeps of a leaf, with this log.
fn leaf_parts<'a>(leaf: &'a LeafVdev, log: &'a [GroupRange]) -> LeafParts<'a>
    ensures { (n : ℕ) → log.now ≡ ranges_upto (holds leaf.now.log) n → parts_leaf result ≡ leaf_fields n leaf.now }
{
    LeafParts {
        member: leaf.guid,
        name: &leaf.name,
        kept: kept_of(leaf.state, leaf.temporary),
        marked: leaf.marked,
        log,
    }
}

// The state that a record keeps of a leaf.
fn kept_of(state: State, temporary: bool) -> KeptState
    ensures { result ≡ kept_of state temporary }
{
    match (state, temporary) {
        (State::Degraded, _) => KeptState::Degraded,
        (State::Faulted, _) => KeptState::Faulted,
        (State::Offline, false) => KeptState::Offline,
        _ => KeptState::Online,
    }
}

// How many members left a round.
fn failures(stayed: &[bool]) -> u64
    ensures { result ≡ failures stayed.now }
{
    stayed.iter().filter(|stays| !**stays).count() as u64
}
