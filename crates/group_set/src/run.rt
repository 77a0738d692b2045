//! Runs of groups, and lists of them that neither overlap nor touch.
ghost use Rattle.std.specs.Prelude.{◌≡◌, ℕ, ◌+◌, ◌<◌, ◌≤◌, ◌&&◌, ◌||◌, ◌∷◌, ◌++◌, [], true, Bool, length, vec_len, IfOk, OnOk, OnErr};
ghost use Rattle.std.specs.Vec.{vec_capacity};
ghost use Rattle.std.specs.List.{filter_map};
ghost use Rattle.std.specs.Option.{option_to_list};
ghost use Rattle.group_set.specs.Runs.{spans, in_runs, between, lies_before, touches, joined, part, common, IsRun, AreRuns};

use mp_base::MemFault;

/// The groups from `low` to `high`, both included.
#[derive(Clone, Copy)]
pub(crate) struct Run {
    pub(crate) low: u64,
    pub(crate) high: u64,
}

impl Run {
    pub(crate) fn spans(&self, group: u64) -> bool
        ensures { result ≡ spans self.now group }
    {
        self.low <= group && group <= self.high
    }

    /// Whether the two share a group or one goes on where the other ends.
    pub(crate) fn touches(&self, other: &Run) -> bool
        ensures { result ≡ touches self.now other.now }
    {
        !lies_before(self, other) && !lies_before(other, self)
    }

    /// The run from the lesser low end to the greater high end.
    pub(crate) fn joined(self, other: Run) -> Run
        ensures { result ≡ joined self other }
    {
        Run {
            low: self.low.min(other.low),
            high: self.high.max(other.high),
        }
    }

    /// The part between two groups, both included.
    pub(crate) fn part(self, low: u64, high: u64) -> Option<Run>
        ensures { result ≡ part low high self }
    {
        let low = self.low.max(low);
        let high = self.high.min(high);
        if low <= high {
            Some(Run { low, high })
        } else {
            None
        }
    }
}

fn lies_before(a: &Run, b: &Run) -> bool
    ensures { result ≡ lies_before a.now b.now }
{
    a.high < b.low && b.low - a.high > 1
}

/// Puts the groups of a run among the runs. Those that it touches become one with it.
pub(crate) fn place(runs: &mut Vec<Run>, mut run: Run)
    requires apart { AreRuns runs.old.items }
    requires run { IsRun run }
    requires room { vec_len runs.old < vec_capacity runs.old }
    ensures groups { (g : ℕ) → in_runs runs.new.items g ≡ (in_runs runs.old.items g || spans run g) }
    ensures apart { AreRuns runs.new.items }
    ensures len { vec_len runs.new ≤ vec_len runs.old + 1 }
    ensures lengthens { (g : ℕ) → run.low ≤ g + 1 → g ≤ run.high + 1 → in_runs runs.old.items g ≡ true → vec_len runs.new ≤ vec_len runs.old }
    ensures capacity { vec_capacity runs.old ≤ vec_capacity runs.new }
{
    let mut i = 0;
    while i < runs.len() {
        if run.touches(&runs[i]) {
            run = run.joined(runs.remove(i));
        } else {
            i += 1;
        }
    }
    append(runs, run);
}

/// Adds a run at the end, where there is room for it.
pub(crate) fn append(runs: &mut Vec<Run>, run: Run)
    requires { vec_len runs.old < vec_capacity runs.old }
    ensures items { runs.new.items ≡ runs.old.items ++ run ∷ [] }
    ensures len { vec_len runs.new ≡ vec_len runs.old + 1 }
    ensures capacity { vec_capacity runs.old ≤ vec_capacity runs.new }
{
    let _ = runs.push(run);
}

/// Keeps the groups from `low` to `high`, both included.
pub(crate) fn keep_within(runs: &mut Vec<Run>, low: u64, high: u64)
    requires { AreRuns runs.old.items }
    ensures groups { (g : ℕ) → in_runs runs.new.items g ≡ (in_runs runs.old.items g && between low high g) }
    ensures apart { AreRuns runs.new.items }
    ensures len { vec_len runs.new ≤ vec_len runs.old }
    ensures capacity { vec_capacity runs.new ≡ vec_capacity runs.old }
{
    let mut i = 0;
    while i < runs.len() {
        match runs[i].part(low, high) {
            Some(part) => {
                runs[i] = part;
                i += 1;
            }
            None => {
                let _ = runs.remove(i);
            }
        }
    }
}

/// Adds the parts of the runs from `low` to `high` behind `out`.
fn push_parts(out: &mut Vec<Run>, runs: &[Run], low: u64, high: u64) -> Result<(), MemFault>
    ensures parts { OnOk result (out.new.items ≡ out.old.items ++ filter_map (part low high) runs.now) }
    ensures capacity { vec_capacity out.old ≤ vec_capacity out.new }
{
    for run in runs {
        push_some(out, run.part(low, high))?;
    }
    Ok(())
}

fn push_some(out: &mut Vec<Run>, run: Option<Run>) -> Result<(), MemFault>
    ensures some { OnOk result (out.new.items ≡ out.old.items ++ option_to_list run) }
    ensures capacity { vec_capacity out.old ≤ vec_capacity out.new }
{
    if let Some(run) = run {
        out.push(run)?;
    }
    Ok(())
}

/// Adds to `out` the parts that each two runs of the two lists have in common.
pub(crate) fn push_common(out: &mut Vec<Run>, a: &[Run], b: &[Run]) -> Result<(), MemFault>
    ensures parts { OnOk result (out.new.items ≡ out.old.items ++ common a.now b.now) }
    ensures capacity { vec_capacity out.old ≤ vec_capacity out.new }
{
    for run in b {
        push_parts(out, a, run.low, run.high)?;
    }
    Ok(())
}

/// Puts the groups of all these runs among the first ones, which have room for as many.
pub(crate) fn place_all(runs: &mut Vec<Run>, others: &[Run])
    requires apart { AreRuns runs.old.items }
    requires others_apart { AreRuns others.now }
    requires room { vec_len runs.old + length others.now ≤ vec_capacity runs.old }
    ensures groups { (g : ℕ) → in_runs runs.new.items g ≡ (in_runs runs.old.items g || in_runs others.now g) }
    ensures apart { AreRuns runs.new.items }
    ensures capacity { vec_capacity runs.old ≤ vec_capacity runs.new }
{
    for run in others {
        place(runs, *run);
    }
}
