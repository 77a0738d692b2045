//! The number of a pool.
ghost use Rattle.std.specs.Prelude.{◌≡◌, length};
ghost use Rattle.std.specs.Prelude.{◌==◌, cond, take};
ghost use Rattle.std.specs.Int.{from_be_bytes, w64};
ghost use Rattle.pool_core.specs.Making.{pool_number};

use mp_base::{Guid, Name};
use sha2::{Digest, Sha256};

/// The number of a pool that is made in this second: the first eight bytes of the SHA-256 (FIPS 180-4) of
/// its name and of the second in eight bytes, the high one first; 1 where that is 0.
#[tactic(auto, unfolding(crate::specs::Making::pool_sum))]
pub fn pool_number(name: &Name, second: u64) -> Guid
    ensures { result ≡ pool_number name.now second }
{
    let mut digest = Sha256::new();
    digest.update(name.as_bytes());
    digest.update(&second.to_be_bytes());
    Guid(some_number(first_number(&digest.finalize())))
}

// The number of the first eight bytes.
fn first_number(sum: &[u8; 32]) -> u64
    ensures { result ≡ from_be_bytes w64 (take 8 sum.now) }
{
    let mut word = [0; 8];
    word.copy_from_slice(&sum[..8]);
    u64::from_be_bytes(word)
}

fn some_number(number: u64) -> u64
    ensures { result ≡ cond (number == 0) 1 number }
{
    if number == 0 { 1 } else { number }
}
