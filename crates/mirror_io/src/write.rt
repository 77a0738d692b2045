//! Writes of a block to its copies.
ghost use Rattle.std.specs.Prelude.{◌≡◌, ◌<◌, length};
ghost use Rattle.std.specs.List.{All, AllZip};
ghost use Rattle.mirror_io.specs.Mirror.{WritesBlock, IsExcused};

use bank_core::Bank;

/// Writes a block of 4,096 bytes to each of these devices, in order, all at the same sector, and says of each
/// whether it took it. `done` has a place for each device. One that failed doesn't stop the others.
pub fn write_block<B: Bank>(bank: &mut B, devs: &[u32], at: u64, bytes: &[u8], done: &mut [bool])
    requires block { length bytes.now ≡ 4096 }
    requires paired { length done.old ≡ length devs.now }
    requires within { All (λ dev. at < (B.view bank.old).size dev) devs.now }
    ensures writes { WritesBlock devs.now at bytes.now done.new (B.view bank.old) (B.view bank.new) }
    ensures causes { AllZip (IsExcused (B.view bank.old).faults (B.view bank.new).faults) devs.now done.new }
{
    for i in 0..devs.len() {
        done[i] = bank.write(devs[i], at, bytes).is_ok();
    }
}
