//! The calls that a bank in memory keeps in its list.
ghost use Rattle.std.specs.Prelude.{◌≡◌};
ghost use Rattle.bank_core.specs.Memory.{is_damaged};

use crate::bank::Fault;

/// What a call does.
#[derive(Clone, Copy, Debug, PartialEq, Eq)]
pub enum CallKind {
    Read,
    Write,
    Flush,
}

/// Damage on the sectors `from..=to` of a device. A read of them gives the byte `fill`.
#[derive(Clone, Copy, Debug, PartialEq, Eq)]
pub struct Damage {
    pub dev: u32,
    pub from: u64,
    pub to: u64,
    pub fill: u8,
}

/// A call on a bank with its answer, and the damage that came with it. The bytes are those that were
/// written, or that the buffer of a read held at its end. A flush has none.
#[derive(Drop)]
pub struct MemCall {
    pub kind: CallKind,
    pub dev: u32,
    pub at: u64,
    pub bytes: Vec<u8>,
    pub fault: Option<Fault>,
    pub damage: Vec<Damage>,
}

impl Damage {
    fn covers(&self, dev: u32, sector: u64) -> bool {
        self.dev == dev && self.from <= sector && sector <= self.to
    }
}

/// Whether one of the damages lies on the sector.
pub(crate) fn is_damaged(damages: &[Damage], dev: u32, sector: u64) -> bool
    ensures { result ≡ is_damaged damages.now dev sector }
{
    damages
        .iter()
        .any(|x| x.dev == dev && x.from <= sector && sector <= x.to)
}

/// The byte that a read of the damaged sector gives.
pub(crate) fn fill_of(damages: &[Damage], dev: u32, sector: u64) -> u8 {
    for x in damages {
        if x.covers(dev, sector) {
            return x.fill;
        }
    }
    0
}
