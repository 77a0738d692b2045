//! Rounds: how a configuration comes onto the labels of a pool's members. At each moment a member that
//! had a record has it still, or has the new one.
ghost use Rattle.std.specs.Prelude.{◌≡◌, ℕ, ◌^◌, ◌≤◌, List, length, take};
ghost use Rattle.bank_core.specs.Parts.{Part};
ghost use Rattle.bank_core.specs.Story.{fault_in};
ghost use Rattle.label_store.specs.Rounds.{uberblock_of};
ghost use Rattle.label_store.specs.Committing.{IsSealed, Commits, AreExcused};
ghost use Rattle.label_store.specs.Records.{IsHeaded};
ghost use Rattle.label_store.specs.Seats.{AreSeated, AreApart};
ghost use Rattle.label_store.specs.Turns.{commit_of, plan_of, MakesTurn, MakesPhase, MakesRound};

use crate::label::{write_config, write_rings};
use crate::layout::{even_labels, odd_labels};
use crate::member::Member;
use crate::round::{Phase, Round};
use crate::rule::BlobRule;
use crate::uberblock::Uberblock;
use bank_core::{Bank, Fault};
use mp_base::{Group, Guid};
use sha2::{Digest, Sha256};

/// Commits a configuration, the first `config_bytes` of `blob`, on each of these members, in order.
/// `blob` is whole sectors, at most 28: the configuration ends in the last one, and zeros follow it. The
/// number is 1 to 2^62, and `results` has a place for each member.
///
/// A member whose call failed leaves the round, and its result is false; the others go on. Whatever moment
/// a crash comes at, a member that had a record at rest, its uberblock in another slot, has it still or
/// has the new one, as long as none of its label sectors is damaged then (docs/MODEL.md, "Labels"). One
/// whose result is true has the new one.
pub fn commit_record<B: Bank, R: BlobRule>(
    bank: &mut B,
    devs: &[Member],
    pool: Guid,
    number: Group,
    blob: &[u8],
    config_bytes: usize,
    results: &mut [bool],
)
    requires seated { AreSeated (B.view bank.old).size devs.now }
    requires apart { AreApart devs.now }
    requires paired { length results.old ≡ length devs.now }
    requires least { 1 ≤ number.0 }
    requires most { number.0 ≤ 2 ^ 62 }
    requires sealed { IsSealed blob.now config_bytes }
    requires headed { IsHeaded R.head_of pool number (take config_bytes blob.now) }
    ensures { Commits R.head_of (B.view bank.old).size
        (record { pool = pool; number = number; blob = blob.now; length = config_bytes }) devs.now results.new
        (B.view bank.old) (B.view bank.new) }
{
    let round = Round {
        pool,
        number,
        blob,
        config_bytes,
        sum: Sha256::digest(&blob[..config_bytes]),
    };
    run_round(bank, &round, devs, results);
}

// The three phases, over all members.
fn run_round<B: Bank>(bank: &mut B, round: &Round, members: &[Member], board: &mut [bool])
    requires seated { AreSeated (B.view bank.old).size members.now }
    requires paired { length board.old ≡ length members.now }
    ensures { MakesRound (B.view bank.old).size (commit_of round.now) members.now board.new
        (B.view bank.old) (B.view bank.new) }
{
    board.fill(true);
    run_phase(bank, Phase::First, round, members, board);
    run_phase(bank, Phase::Second, round, members, board);
    run_phase(bank, Phase::Third, round, members, board);
}

// The turns of a phase, in the order of the members. One that is not on the board any more has none.
fn run_phase<B: Bank>(
    bank: &mut B,
    phase: Phase,
    round: &Round,
    members: &[Member],
    board: &mut [bool],
)
    requires seated { AreSeated (B.view bank.old).size members.now }
    requires paired { length board.old ≡ length members.now }
    ensures { MakesPhase (plan_of phase (B.view bank.old).size (commit_of round.now)) members.now board.old board.new
        (B.view bank.old) (B.view bank.new) }
{
    for i in 0..members.len() {
        board[i] = take_turn(bank, phase, round, members[i], board[i]);
    }
}

// A member's turn, and whether it stays on the board.
fn take_turn<B: Bank>(
    bank: &mut B,
    phase: Phase,
    round: &Round,
    member: Member,
    on_board: bool,
) -> bool
    requires device { 320 ≤ (B.view bank.old).size member.dev }
    ensures { MakesTurn (plan_of phase (B.view bank.old).size (commit_of round.now) member) on_board result
        (B.view bank.old) (B.view bank.new) }
{
    if !on_board {
        return false;
    }
    write_phase(bank, phase, round, member).is_ok()
}

fn write_phase<B: Bank>(
    bank: &mut B,
    phase: Phase,
    round: &Round,
    member: Member,
) -> Result<(), Fault>
    requires device { 320 ≤ (B.view bank.old).size member.dev }
    ensures { Part member.dev (plan_of phase (B.view bank.old).size (commit_of round.now) member)
        (B.view bank.old) (B.view bank.new) (fault_in result) }
{
    match phase {
        Phase::First => {
            let even = even_labels(bank.sectors(member.dev));
            write_config(bank, member.dev, &even, round.blob)
        }
        Phase::Second => write_rings(bank, member.dev, &uberblock_of(round, member)),
        Phase::Third => {
            let odd = odd_labels(bank.sectors(member.dev));
            write_config(bank, member.dev, &odd, round.blob)
        }
    }
}

fn uberblock_of(round: &Round, member: Member) -> Uberblock
    ensures { result ≡ uberblock_of (commit_of round.now) member }
{
    Uberblock {
        pool: round.pool,
        member: member.guid,
        number: round.number,
        length: round.config_bytes as u64,
        sum: round.sum,
    }
}
