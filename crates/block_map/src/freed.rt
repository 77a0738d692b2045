//! The places of a new map, of which each is free.
ghost use Rattle.std.specs.Prelude.{◌≡◌, ◌≢◌, ℕ, ◌*◌, ◌<◌, ◌≤◌, false, length};
ghost use Rattle.std.specs.List.{All};
ghost use Rattle.block_map.specs.Bits.{holds};
ghost use Rattle.block_map.specs.NumberSet.{has};
ghost use Rattle.block_map.specs.Places.{AreTops};
ghost use Rattle.block_map.specs.Map.{is_number, is_freed};

use crate::bits::Bits;
use crate::number_set::NumberSet;

/// How many numbers the places take: as many for each top as the longest has sectors.
pub(crate) fn places(sectors: &[u64]) -> usize
    requires { AreTops sectors.now }
    ensures room { All (λ s. s * length sectors.now ≤ result) sectors.now }
    ensures small { result ≤ 8386560 }
{
    let mut most = 0;
    for count in sectors {
        most = most.max(*count);
    }
    most as usize * sectors.len()
}

/// Frees each place of the tops.
pub(crate) fn free_all(sectors: &[u64], room: usize, free: &mut Bits, opened: &mut NumberSet)
    requires tops { AreTops sectors.now }
    requires free { room < 64 * length free.old }
    requires opened { room < 64 * length opened.old.members }
    requires none { (at : ℕ) → holds free.old at ≡ false }
    requires shut { (at : ℕ) → has opened.old at ≡ false }
    ensures free { (at : ℕ) → holds free.new at ≡ is_freed sectors.now room at }
    ensures opened { (at : ℕ) → has opened.new at ≡ is_freed sectors.now room at }
    ensures size { length free.new ≡ length free.old }
    ensures opened_size { length opened.new.members ≡ length opened.old.members }
{
    for at in 0..room {
        free_one(sectors, at, free, opened);
    }
}

/// Frees the place of a number, where there is one.
fn free_one(sectors: &[u64], at: usize, free: &mut Bits, opened: &mut NumberSet)
    requires tops { AreTops sectors.now }
    requires free { at < 64 * length free.old }
    requires opened { at < 64 * length opened.old.members }
    requires none { holds free.old at ≡ false }
    requires shut { has opened.old at ≡ false }
    ensures now { holds free.new at ≡ is_number sectors.now at }
    ensures now_open { has opened.new at ≡ is_number sectors.now at }
    ensures others { (i : ℕ) → i ≢ at → holds free.new i ≡ holds free.old i }
    ensures others_open { (i : ℕ) → i ≢ at → has opened.new i ≡ has opened.old i }
    ensures size { length free.new ≡ length free.old }
    ensures opened_size { length opened.new.members ≡ length opened.old.members }
{
    let tops = sectors.len();
    if (at / tops) as u64 >= sectors[at % tops] {
        return;
    }
    free.insert(at);
    opened.insert(at);
}
