//! The copies of a block, and what a read shows of them.

/// A copy of a block, by the number of its device. Its leaf lacks the block where the leaf's log holds the block's
/// birth.
#[derive(Clone, Copy, Debug, PartialEq, Eq)]
pub struct CopyOf {
    pub dev: u32,
    pub lacks: bool,
    pub readable: bool,
}

impl CopyOf {
    ghost use Rattle.std.specs.Prelude.{◌≡◌};
    ghost use Rattle.mirror_io.specs.Copies.{is_due};
    ghost use Rattle.mirror_io.specs.Seen.{unread};

    // Whether it is read along with those that owe the block, or with the others.
    pub(crate) fn is_due(self, owing: bool) -> bool
        ensures { result ≡ is_due owing self }
    {
        self.readable && self.lacks == owing
    }

    // What is known of it before any call.
    pub(crate) fn unread(self) -> CopySeen
        ensures { result ≡ unread self }
    {
        if self.readable {
            CopySeen::NotTried
        } else {
            CopySeen::NotReadable
        }
    }
}

/// What a read of a block did with a copy. A copy that gave wrong bytes stays a mismatch where its leaf lacks the
/// block, where no copy was good, and where the rewriting failed.
#[derive(Clone, Copy, Debug, PartialEq, Eq)]
pub enum CopySeen {
    /// A copy before it was good.
    NotTried,
    /// Its leaf isn't readable.
    NotReadable,
    /// The read failed.
    Failed,
    /// It gave other bytes than the block's.
    Mismatch,
    /// It gave the block.
    Good,
    /// It gave other bytes, and was rewritten with the block.
    Healed,
}

impl CopySeen {
    ghost use Rattle.std.specs.Prelude.{◌≡◌};
    ghost use Rattle.mirror_io.specs.Seen.{is_good, is_mismatch};

    pub(crate) fn is_good(self) -> bool
        ensures { result ≡ is_good self }
    {
        matches!(self, CopySeen::Good)
    }

    pub(crate) fn is_mismatch(self) -> bool
        ensures { result ≡ is_mismatch self }
    {
        matches!(self, CopySeen::Mismatch)
    }
}

/// No copy gave the block.
#[derive(Clone, Copy, Debug, PartialEq, Eq)]
pub struct Exhausted;
