//! The bytes of one sector.
ghost use Rattle.std.specs.Prelude.{◌≡◌, ◌<◌, length};
ghost use Rattle.bank_core.specs.Disk.{sectors_in, sector_of};

use crate::bank::SECTOR_BYTES;

/// The bytes of one sector, within those of a call or of a device.
#[derive(Clone, Copy)]
pub(crate) struct SectorBytes<'a> {
    pub(crate) bytes: &'a [u8],
    ghost whole: { length bytes.now ≡ 4096 },
}

/// Sector `i` of these bytes.
#[tactic(auto, unfolding(crate::specs::Disk::sector_size))]
pub(crate) fn sector_at<'a>(bytes: &'a [u8], i: usize) -> SectorBytes<'a>
    requires { i < sectors_in bytes.now }
    ensures { result.bytes.now ≡ sector_of i bytes.entry.now }
{
    let from = i * SECTOR_BYTES;
    SectorBytes {
        bytes: &bytes[from..from + SECTOR_BYTES],
    }
}
