//! What a line asks.
ghost use Rattle.std.specs.Prelude.{◌≡◌};
ghost use Rattle.pool_lines.specs.declared.request.LineFault.TheVariants.{Memory};

use crate::Tops;
use mp_base::{Block, MemFault, Name};
use std::alloc::AllocError;

/// What a line asks (docs/FORMATS.md, "Lines").
#[derive(Drop)]
pub enum Request {
    /// An empty line, or one that begins with `#`.
    Nothing,
    /// `create POOL BLOCKS VDEVS`: a pool of that many blocks over these tops.
    Create {
        pool: Name,
        blocks: u64,
        tops: Tops,
    },
    /// `import POOL`: that the pool, which stands on devices of the host, is opened.
    Import {
        pool: Name,
    },
    /// `write POOL ADDR DATA`
    Write {
        pool: Name,
        address: u64,
        block: Block,
    },
    /// `read POOL ADDR`
    Read {
        pool: Name,
        address: u64,
    },
    /// `freeze POOL`: that what was written so far becomes the group that turns commit.
    Freeze {
        pool: Name,
    },
    /// `turn POOL`: one turn of the frozen group.
    Turn {
        pool: Name,
    },
    /// `sync POOL`
    Sync {
        pool: Name,
    },
    /// `offline POOL DEV`, or `offline -t POOL DEV`, which is temporary: until the pool is opened again.
    Offline {
        pool: Name,
        device: Name,
        temporary: bool,
    },
    /// `online POOL DEV`
    Online {
        pool: Name,
        device: Name,
    },
    /// `logs POOL`: which groups each leaf lacks.
    Logs {
        pool: Name,
    },
}

/// Why a line asks nothing that could be read.
#[derive(Clone, Copy, Debug, PartialEq, Eq)]
pub enum LineFault {
    /// The line has none of the forms that are built.
    Bad,
    /// There was no memory for what it asks.
    Memory,
}

impl From<MemFault> for LineFault {
    ghost from_gives = { λ _ fault. fault ≡ Memory };

    fn from(_: MemFault) -> LineFault {
        LineFault::Memory
    }
}

impl From<AllocError> for LineFault {
    ghost from_gives = { λ _ fault. fault ≡ Memory };

    fn from(_: AllocError) -> LineFault {
        LineFault::Memory
    }
}
