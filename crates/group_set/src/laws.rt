//! What holds of ranges without any code: the clauses of functions with empty bodies.
ghost use Rattle.std.specs.Prelude.{◌≡◌, ℕ, ◌+◌, ◌<◌, ◌≤◌, Bool, false, ◌&&◌, List};
ghost use Rattle.mp_base.specs.declared.range.GroupRange.{GroupRange};
ghost use Rattle.group_set.specs.Runs.{between};
ghost use Rattle.mp_base.specs.Ranges.{Rises};
ghost use Rattle.group_set.specs.Ranges.{in_ranges, ranges_upto};

/// Rising ranges are those of their groups, and a set's ranges have its groups. So each set has one list
/// of ranges up to a group, which is the same for all sets that have the same groups there.
pub fn ranges_are_exact()
    ensures back { (most : ℕ) (ranges : List GroupRange) → Rises 1 most ranges → ranges_upto (in_ranges ranges) most ≡ ranges }
    ensures has { (set : ℕ → Bool) (n g : ℕ) → in_ranges (ranges_upto set n) g ≡ (between 1 n g && set g) }
    ensures rises { (set : ℕ → Bool) (n : ℕ) → Rises 1 n (ranges_upto set n) }
    ensures same { (one other : ℕ → Bool) (n : ℕ) → ((g : ℕ) → 1 ≤ g → g ≤ n → one g ≡ other g) → ranges_upto one n ≡ ranges_upto other n }

    // Behind the last group of a set there are no further ranges.
    ensures further { (set : ℕ → Bool) (n k : ℕ) → ((g : ℕ) → n < g → set g ≡ false) → ranges_upto set (n + k) ≡ ranges_upto set n }
{}
