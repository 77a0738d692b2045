//! The logs of inner vdevs, which are not kept but derived from those of the leaves under them.
ghost use Rattle.std.specs.Prelude.{◌≡◌, ℕ, ◌&&◌, IfOk, OnOk};
ghost use Rattle.group_set.specs.Groups.{holds};
ghost use Rattle.vdev_tree.specs.Leaf.{is_readable};
ghost use Rattle.dtl_rules.specs.Rules.{is_out, outage, partial_log, missing_log};
ghost use Rattle.dtl_rules.specs.Logs.{in_extent, log_of};

use group_set::GroupSet;
use mp_base::MemFault;
use std::alloc::Global;
use vdev_tree::{LeafVdev, Vdev};

/// Which log of a vdev (a dirty time log, DTL).
#[derive(Clone, Copy, Debug, PartialEq, Eq)]
pub enum LogKind {
    /// Of a leaf its log. Of an inner vdev its outage.
    Missing,
    /// The groups that some leaf under it owes.
    Partial,
    /// The groups that can be read from no leaf under it.
    Outage,
}

/// Some of the groups from 1 on.
#[derive(Drop)]
pub enum Extent {
    /// Every group.
    All,
    Set(GroupSet),
}

impl Extent {
    /// Leaves the groups that the other one has too.
    fn narrow(&mut self, other: Extent) -> Result<(), MemFault>
        ensures { OnOk result ((g : ℕ) → in_extent self.new g ≡ (in_extent self.old g && in_extent other g)) }
    {
        match other {
            Extent::All => {}
            Extent::Set(other) => match self {
                Extent::All => *self = Extent::Set(other),
                Extent::Set(set) => set.meet(&other)?,
            },
        }
        Ok(())
    }
}

/// This log of the vdev.
pub fn logs_of(alloc: Global, v: &Vdev, kind: LogKind) -> Result<Extent, MemFault>
    ensures { IfOk result (λ extent. (g : ℕ) → in_extent extent g ≡ log_of kind v.now g) }
{
    match kind {
        LogKind::Missing => missing(alloc, v),
        LogKind::Partial => Ok(Extent::Set(partial(alloc, v)?)),
        LogKind::Outage => outage(alloc, v),
    }
}

fn missing(alloc: Global, vdev: &Vdev) -> Result<Extent, MemFault>
    ensures { IfOk result (λ extent. (g : ℕ) → in_extent extent g ≡ missing_log vdev.now g) }
{
    match vdev {
        Vdev::Leaf(leaf) => Ok(Extent::Set(leaf.log.copy()?)),
        Vdev::Inner(_) => outage(alloc, vdev),
    }
}

#[tactic(auto, using(crate::proofs::Sweeps::at_vdev))]
fn outage(alloc: Global, vdev: &Vdev) -> Result<Extent, MemFault>
    ensures { IfOk result (λ extent. (g : ℕ) → in_extent extent g ≡ outage vdev.now g) }
{
    match vdev {
        Vdev::Leaf(leaf) => outage_of_leaf(leaf),
        Vdev::Inner(inner) => {
            let mut all = Extent::All;
            for child in &inner.children {
                all.narrow(outage(alloc, child)?)?;
            }
            Ok(all)
        }
    }
}

fn outage_of_leaf(leaf: &LeafVdev) -> Result<Extent, MemFault>
    ensures { IfOk result (λ extent. (g : ℕ) → in_extent extent g ≡ is_out leaf.now g) }
{
    if leaf.state.is_up() {
        Ok(Extent::Set(leaf.log.copy()?))
    } else {
        Ok(Extent::All)
    }
}

#[tactic(auto, using(crate::proofs::Sweeps::at_vdev))]
fn partial(alloc: Global, vdev: &Vdev) -> Result<GroupSet, MemFault>
    ensures { IfOk result (λ set. (g : ℕ) → holds set g ≡ partial_log vdev.now g) }
{
    match vdev {
        Vdev::Leaf(leaf) => leaf.log.copy(),
        Vdev::Inner(inner) => {
            let mut all = GroupSet::new(alloc);
            for child in &inner.children {
                let log = partial(alloc, child)?;
                all.union(&log)?;
            }
            Ok(all)
        }
    }
}
