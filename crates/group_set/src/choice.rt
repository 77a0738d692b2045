//! What is looked for among runs.
ghost use Rattle.std.specs.Prelude.{◌≡◌, ◌^◌, ◌≤◌, IfSome};
ghost use Rattle.group_set.specs.Runs.{in_runs, AreRuns};
ghost use Rattle.group_set.specs.Choice.{nearest, sooner, wider, IsLeastFrom, IsFirstFrom, IsHull};

use crate::run::Run;

/// Whether the group lies in one of the runs.
pub(crate) fn is_in(runs: &[Run], group: u64) -> bool
    ensures { result ≡ in_runs runs.now group }
{
    runs.iter().any(|run| run.spans(group))
}

/// The least group from this one on.
pub(crate) fn next_in(runs: &[Run], from: u64) -> Option<u64>
    requires { AreRuns runs.now }
    ensures least { IsLeastFrom (in_runs runs.now) from result }
    ensures in_range { IfSome result (λ group. (1 ≤ group) × (group ≤ 2 ^ 62)) }
{
    let mut next = None;
    for run in runs {
        next = nearest(next, run, from);
    }
    next
}

fn nearest(next: Option<u64>, run: &Run, from: u64) -> Option<u64>
    ensures { result ≡ nearest from next run.now }
{
    if run.high < from {
        return next;
    }
    let group = run.low.max(from);
    match next {
        None => Some(group),
        Some(next) => Some(next.min(group)),
    }
}

/// The run with the least low end of those that begin at or behind this group.
pub(crate) fn first_from(runs: &[Run], from: u64) -> Option<Run>
    ensures { IsFirstFrom runs.now from result }
{
    let mut first = None;
    for run in runs {
        first = sooner(first, *run, from);
    }
    first
}

fn sooner(first: Option<Run>, run: Run, from: u64) -> Option<Run>
    ensures { result ≡ sooner from first run }
{
    if run.low < from {
        return first;
    }
    match first {
        Some(first) if first.low <= run.low => Some(first),
        _ => Some(run),
    }
}

/// The run from the least to the greatest group.
pub(crate) fn hull(runs: &[Run]) -> Option<Run>
    requires { AreRuns runs.now }
    ensures { IsHull runs.now result }
{
    let mut hull = None;
    for run in runs {
        hull = wider(hull, *run);
    }
    hull
}

fn wider(hull: Option<Run>, run: Run) -> Option<Run>
    ensures { result ≡ wider hull run }
{
    match hull {
        None => Some(run),
        Some(hull) => Some(hull.joined(run)),
    }
}
