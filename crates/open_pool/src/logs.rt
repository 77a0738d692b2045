//! The logs of the leaves, as they are told.
ghost use Rattle.std.specs.Prelude.{◌≡◌, ◌≤◌, ◌++◌, [], length, map, All, OnOk, IfOk};
ghost use Rattle.vdev_tree.specs.Tree.{leaves};
ghost use Rattle.dtl_rules.specs.Widening.{leaves_of};
ghost use Rattle.pool_moves.specs.CommitRows.{RowLogs};
ghost use Rattle.pool_moves.specs.States.{PoolState};
ghost use Rattle.open_pool.specs.Telling.{IsRising, log_of, log_told, logs_told};

use crate::Pool;
use mp_base::{MemFault, Name, Ranges};
use std::alloc::Global;
use txg_engine::MOST_LEAVES;
use vdev_tree::{LeafVdev, Top};

/// The log of a leaf: the groups of which it lacks a valid copy, with the leaf's name.
#[derive(Drop)]
pub struct LeafLog {
    pub name: Name,
    pub log: Ranges,
}

impl Pool {
    ghost use Rattle.open_pool.specs.State.{Stands};

    /// The log of each leaf, in tree order. It makes no device call.
    pub fn logs(&self) -> Result<Vec<LeafLog>, MemFault>
        ensures row { (s : PoolState) → Stands self.now s → IfOk result (λ logs. RowLogs s [] (logs_told logs.items)) }
        ensures rise { IfOk result (λ logs. All IsRising logs.items) }
    {
        self.keeps_its_form();
        logs_of(self.alloc, &self.tops)
    }
}

fn logs_of(alloc: Global, tops: &[Top]) -> Result<Vec<LeafLog>, MemFault>
    requires { length (leaves_of tops.now) ≤ 32 }
    ensures logs { IfOk result (λ logs. logs_told logs.items ≡ map log_of (leaves_of tops.now)) }
    ensures rise { IfOk result (λ logs. All IsRising logs.items) }
{
    let mut logs = Vec::new(alloc);
    for i in 0..tops.len() {
        push_logs(&mut logs, alloc, &tops[i])?;
    }
    Ok(logs)
}

// Those of a top's leaves come behind the others.
fn push_logs(logs: &mut Vec<LeafLog>, alloc: Global, top: &Top) -> Result<(), MemFault>
    requires few { length (leaves top.now.mirror) ≤ 32 }
    requires rise { All IsRising logs.old.items }
    ensures logs { OnOk result (logs_told logs.new.items ≡ logs_told logs.old.items ++ map log_of (leaves top.now.mirror)) }
    ensures rise { OnOk result (All IsRising logs.new.items) }
{
    for place in 0..MOST_LEAVES {
        let Some(leaf) = top.leaf_at(place) else {
            return Ok(());
        };
        logs.push(leaf_log(alloc, leaf)?)?;
    }
    Ok(())
}

fn leaf_log(alloc: Global, leaf: &LeafVdev) -> Result<LeafLog, MemFault>
    ensures log { IfOk result (λ log. log_told log ≡ log_of leaf.now) }
    ensures rise { IfOk result IsRising }
{
    Ok(LeafLog {
        name: leaf.name.copy(alloc)?,
        log: leaf.log.to_ranges(alloc)?,
    })
}
