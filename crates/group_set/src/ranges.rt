//! Runs as ranges in rising order, and back.
ghost use Rattle.std.specs.Prelude.{◌≡◌, ℕ, ◌^◌, ◌≤◌, true, length, map, IfOk};
ghost use Rattle.mp_base.specs.Ranges.{Rises};
ghost use Rattle.group_set.specs.Ranges.{in_ranges, range_of, ranges_upto, run_of};
ghost use Rattle.group_set.specs.Runs.{in_runs, AreRuns};

use crate::choice::first_from;
use crate::run::Run;
use mp_base::{Group, GroupRange, MemFault, Ranges};
use std::alloc::Global;

impl Run {
    fn of(range: &GroupRange) -> Run
        ensures { result ≡ run_of range.now }
    {
        Run {
            low: range.low.0,
            high: range.high.0,
        }
    }

    fn range(self) -> GroupRange
        ensures { result ≡ range_of self }
    {
        GroupRange {
            low: Group(self.low),
            high: Group(self.high),
        }
    }
}

/// The ranges of these runs, in rising order.
pub(crate) fn ranges_of(alloc: Global, runs: &[Run]) -> Result<Ranges, MemFault>
    requires { AreRuns runs.now }
    ensures ranges { IfOk result (λ ranges. (n : ℕ) → ((g : ℕ) → in_runs runs.now g ≡ true → g ≤ n) → ranges ≡ ranges_upto (in_runs runs.now) n) }
    ensures rises { IfOk result (Rises 1 (2 ^ 62)) }
    ensures groups { IfOk result (λ ranges. (g : ℕ) → in_ranges ranges g ≡ in_runs runs.now g) }
    ensures count { IfOk result (λ ranges. length ranges ≡ length runs.now) }
{
    let mut ranges = Ranges::new(alloc);
    let mut from = 1;
    while let Some(run) = first_from(runs, from) {
        ranges.push(run.range())?;
        from = run.high + 2;
    }
    Ok(ranges)
}

/// The runs of these ranges.
pub(crate) fn runs_of(alloc: Global, ranges: &[GroupRange]) -> Result<Vec<Run>, MemFault>
    ensures { IfOk result (λ runs. runs.items ≡ map run_of ranges.now) }
{
    Ok(ranges.iter().map(Run::of).collect(alloc)?)
}
