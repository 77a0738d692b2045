//! A set of groups.
ghost use Rattle.std.specs.Prelude.{◌≡◌, ℕ, ◌+◌, ◌-◌, ◌^◌, ◌<◌, ◌≤◌, ◌==◌, ◌&&◌, ◌||◌, min, nat_le, nat_lt, true, false, length, List, map, IfOk, OnOk, OnErr, IfSome, IfNone};
ghost use Rattle.std.specs.List.{list_all};
ghost use Rattle.group_set.specs.Runs.{between};
ghost use Rattle.group_set.specs.Groups.{holds, run_count, SameGroups, begins, IsMaximalRun, CountsRuns, KeepsRoom, IsWidened};
ghost use Rattle.mp_base.specs.Ranges.{Rises};
ghost use Rattle.group_set.specs.Ranges.{in_ranges, ranges_upto};

use crate::choice::{first_from, hull, is_in, next_in};
use crate::ranges::{ranges_of, runs_of};
use crate::run::{Run, append, keep_within, place, place_all, push_common};
use mp_base::{Group, GroupRange, MemFault, Ranges};
use std::alloc::Global;
use std::marker::Model;

/// A set of groups from 1 to 2^62, kept as runs from a low to a high group. It has room for further runs,
/// so that a change which needs one takes no memory.
#[derive(Drop)]
pub struct GroupSet {
    runs: Vec<Run>,
}

impl Model for GroupSet {
    ghost use Rattle.std.specs.Prelude.{◌-◌, vec_len};
    ghost use Rattle.std.specs.Vec.{vec_capacity};
    ghost use Rattle.group_set.specs.Groups.{Groups};
    ghost use Rattle.group_set.specs.Runs.{AreRuns};

    ghost Value = { Groups };

    ghost view = { λ s. record { runs = s.runs.items; spare = vec_capacity s.runs - vec_len s.runs } };

    ghost invariant = { λ s. AreRuns s.runs.items };
}

#[tactic(auto, unfolding(crate::specs::Groups::holds, crate::specs::Groups::run_count))]
impl GroupSet {
    /// The empty set, with room for no run.
    pub fn new(alloc: Global) -> GroupSet
        ensures groups { (g : ℕ) → holds result g ≡ false }
        ensures none { run_count result ≡ 0 }
    {
        GroupSet {
            runs: Vec::new(alloc),
        }
    }

    /// Makes room for at least `n` further runs.
    pub fn reserve(&mut self, n: usize) -> Result<(), MemFault>
        ensures ok { OnOk result (n ≤ self.new.spare) }
        ensures groups { SameGroups self.new self.old }
        ensures ranges { run_count self.new ≡ run_count self.old }
        ensures room { KeepsRoom self.old self.new }
        ensures err { OnErr result (self.new ≡ self.old) }
    {
        self.runs.reserve(n)?;
        Ok(())
    }

    pub fn contains(&self, g: Group) -> bool
        ensures value { result ≡ holds self.now g.0 }
        ensures in_range { result ≡ true → (1 ≤ g.0) × (g.0 ≤ 2 ^ 62) }
    {
        is_in(&self.runs, g.0)
    }

    /// How many maximal runs the groups make.
    pub fn ranges(&self) -> usize
        ensures count { result ≡ run_count self.now }
        ensures runs { CountsRuns self.now result }
    {
        self.runs.len()
    }

    /// The least group.
    pub fn least(&self) -> Option<Group>
        ensures holds { IfSome result (λ g. holds self.now g.0 ≡ true) }
        ensures least { IfSome result (λ g. (h : ℕ) → h < g.0 → holds self.now h ≡ false) }
        ensures in_range { IfSome result (λ g. (1 ≤ g.0) × (g.0 ≤ 2 ^ 62)) }
        ensures none { IfNone result ((h : ℕ) → holds self.now h ≡ false) }
    {
        self.next_group(Group(0))
    }

    /// The least group from this one on.
    pub fn next_group(&self, from: Group) -> Option<Group>
        ensures holds { IfSome result (λ g. holds self.now g.0 ≡ true) }
        ensures from { IfSome result (λ g. from.0 ≤ g.0) }
        ensures least { IfSome result (λ g. (h : ℕ) → from.0 ≤ h → h < g.0 → holds self.now h ≡ false) }
        ensures in_range { IfSome result (λ g. (1 ≤ g.0) × (g.0 ≤ 2 ^ 62)) }
        ensures none { IfNone result ((h : ℕ) → from.0 ≤ h → holds self.now h ≡ false) }
    {
        next_in(&self.runs, from.0).map(Group)
    }

    /// The maximal run that begins at or behind this group, the first of them.
    pub fn next_run(&self, from: Group) -> Option<(Group, Group)>
        ensures run { IfSome result (λ r. IsMaximalRun self.now r.0.0 r.1.0) }
        ensures from { IfSome result (λ r. from.0 ≤ r.0.0) }
        ensures first { IfSome result (λ r. (g : ℕ) → from.0 ≤ g → g < r.0.0 → begins self.now g ≡ false) }
        ensures in_range { IfSome result (λ r. (1 ≤ r.0.0) × (r.1.0 ≤ 2 ^ 62)) }
        ensures none { IfNone result ((g : ℕ) → from.0 ≤ g → begins self.now g ≡ false) }
    {
        let run = first_from(&self.runs, from.0)?;
        Some((Group(run.low), Group(run.high)))
    }

    /// An equal set with at least as much room.
    pub fn copy(&self) -> Result<GroupSet, MemFault>
        ensures groups { IfOk result (λ set. SameGroups set self.now) }
        ensures ranges { IfOk result (λ set. run_count set ≡ run_count self.now) }
        ensures room { IfOk result (λ set. self.now.spare ≤ set.spare) }
    {
        let mut runs = Vec::with_capacity(*self.runs.allocator(), self.runs.capacity())?;
        runs.extend_from_slice(&self.runs)?;
        Ok(GroupSet { runs })
    }

    /// Makes this set equal to the other.
    pub fn assign(&mut self, other: &GroupSet)
        requires { run_count other.now ≤ self.old.spare + run_count self.old }
        ensures groups { SameGroups self.new other.now }
        ensures ranges { run_count self.new ≡ run_count other.now }
        ensures room { KeepsRoom self.old self.new }
    {
        self.runs.clear();
        let _ = self.runs.extend_from_slice(&other.runs);
    }

    pub fn insert(&mut self, g: Group)
        requires low { 1 ≤ g.0 }
        requires high { g.0 ≤ 2 ^ 62 }
        requires room { 1 ≤ self.old.spare }
        ensures groups { (h : ℕ) → holds self.new h ≡ (holds self.old h || (g.0 == h)) }
        ensures ranges { run_count self.new ≤ run_count self.old + 1 }

        // Next to a group that is there it only lengthens a run, which takes no room.
        ensures lengthens { (h : ℕ) → g.0 ≤ h + 1 → h ≤ g.0 + 1 → holds self.old h ≡ true → run_count self.new ≤ run_count self.old }
        ensures room { KeepsRoom self.old self.new }
    {
        self.insert_range(g, g);
    }

    /// Adds the groups from `lo` to `hi`, both included.
    pub fn insert_range(&mut self, lo: Group, hi: Group)
        requires low { 1 ≤ lo.0 }
        requires order { lo.0 ≤ hi.0 }
        requires high { hi.0 ≤ 2 ^ 62 }
        requires room { 1 ≤ self.old.spare }
        ensures groups { (h : ℕ) → holds self.new h ≡ (holds self.old h || between lo.0 hi.0 h) }
        ensures ranges { run_count self.new ≤ run_count self.old + 1 }

        // Next to a group that is there they only lengthen runs, which takes no room.
        ensures lengthens { (h : ℕ) → lo.0 ≤ h + 1 → h ≤ hi.0 + 1 → holds self.old h ≡ true → run_count self.new ≤ run_count self.old }
        ensures room { KeepsRoom self.old self.new }
    {
        let run = Run {
            low: lo.0,
            high: hi.0,
        };
        place(&mut self.runs, run);
    }

    /// Leaves the groups below `g`.
    pub fn cut_from(&mut self, g: Group)
        ensures groups { (h : ℕ) → holds self.new h ≡ (holds self.old h && nat_lt h g.0) }
        ensures ranges { run_count self.new ≤ run_count self.old }
        ensures room { KeepsRoom self.old self.new }
    {
        keep_within(&mut self.runs, 0, g.0.saturating_sub(1));
    }

    /// Leaves the groups from `g` on.
    pub fn cut_below(&mut self, g: Group)
        ensures groups { (h : ℕ) → holds self.new h ≡ (holds self.old h && nat_le g.0 h) }
        ensures ranges { run_count self.new ≤ run_count self.old }
        ensures room { KeepsRoom self.old self.new }
    {
        keep_within(&mut self.runs, g.0, u64::MAX);
    }

    /// Adds the groups of the other set.
    pub fn union(&mut self, other: &GroupSet) -> Result<(), MemFault>
        ensures ok { OnOk result ((g : ℕ) → holds self.new g ≡ (holds self.old g || holds other.now g)) }
        ensures room { KeepsRoom self.old self.new }
        ensures err { OnErr result (self.new ≡ self.old) }
    {
        self.runs.reserve(other.runs.len())?;
        place_all(&mut self.runs, &other.runs);
        Ok(())
    }

    /// Leaves the groups that the other set has too.
    pub fn meet(&mut self, other: &GroupSet) -> Result<(), MemFault>
        ensures ok { OnOk result ((g : ℕ) → holds self.new g ≡ (holds self.old g && holds other.now g)) }
        ensures room { KeepsRoom self.old self.new }
        ensures err { OnErr result (self.new ≡ self.old) }
    {
        let mut runs = Vec::with_capacity(*self.runs.allocator(), self.runs.capacity())?;
        push_common(&mut runs, &self.runs, &other.runs)?;
        self.runs = runs;
        Ok(())
    }

    /// Makes the groups one run, from the least to the greatest. An empty set stays as it is.
    pub fn widen(&mut self)
        ensures groups { IsWidened self.old self.new }
        ensures ranges { run_count self.new ≡ min 1 (run_count self.old) }
        ensures room { KeepsRoom self.old self.new }
    {
        if let Some(all) = hull(&self.runs) {
            self.runs.clear();
            append(&mut self.runs, all);
        }
    }

    /// The groups as ranges, in rising order, as many as there are maximal runs.
    pub fn to_ranges(&self, alloc: Global) -> Result<Ranges, MemFault>
        ensures ranges { IfOk result (λ ranges. (n : ℕ) → ((g : ℕ) → holds self.now g ≡ true → g ≤ n) → ranges ≡ ranges_upto (holds self.now) n) }
        ensures groups { IfOk result (λ ranges. (g : ℕ) → in_ranges ranges g ≡ holds self.now g) }
        ensures rises { IfOk result (Rises 1 (2 ^ 62)) }
        ensures count { IfOk result (λ ranges. length ranges ≡ run_count self.now) }
    {
        ranges_of(alloc, &self.runs)
    }

    /// The groups of these ranges, with room for no further run.
    pub fn from_ranges(alloc: Global, ranges: &[GroupRange]) -> Result<GroupSet, MemFault>
        requires { Rises 1 (2 ^ 62) ranges.now }
        ensures groups { IfOk result (λ set. (g : ℕ) → holds set g ≡ in_ranges ranges.now g) }
        ensures ranges { IfOk result (λ set. run_count set ≡ length ranges.now) }
    {
        Ok(GroupSet {
            runs: runs_of(alloc, ranges)?,
        })
    }

    /// The groups that all the sets have.
    pub fn covered_by_all(alloc: Global, sets: &[GroupSet]) -> Result<GroupSet, MemFault>
        requires { 0 < length sets.now }
        ensures { IfOk result (λ all. (g : ℕ) → holds all g ≡ list_all (λ set. holds set g) sets.now) }
    {
        let mut all = GroupSet::new(alloc);
        all.union(&sets[0])?;
        all.meet_all(&sets[1..])?;
        Ok(all)
    }

    fn meet_all(&mut self, sets: &[GroupSet]) -> Result<(), MemFault>
        ensures { OnOk result ((g : ℕ) → holds self.new g ≡ (holds self.old g && list_all (λ set. holds set g) sets.now)) }
    {
        for set in sets {
            self.meet(set)?;
        }
        Ok(())
    }
}
