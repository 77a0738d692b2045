//! Which bytes of a copy are good.
ghost use Rattle.std.specs.Prelude.{◌≡◌, ℕ, true, false, List, length};

use sha2::{Digest, Sha256};

/// The rule which bytes are good. It may go on behind bytes that it took, as one that reads a tree page by page does.
pub trait Judge {
    /// These bytes are good.
    ghost Good: { Self → List ℕ → Type 0 };

    /// What it is behind bytes that it took.
    ghost Behind: { Self → List ℕ → Self → Type 0 };

    /// Takes a block where it is good. Of any other it says so, and stays as it was.
    fn takes(&mut self, bytes: &[u8]) -> bool
        requires { length bytes.now ≡ 4096 }
        ensures good { result ≡ true → Good self.old bytes.now }
        ensures behind { result ≡ true → Behind self.old bytes.now self.new }
        ensures wrong { result ≡ false → Good self.old bytes.now → ⊥ }
        ensures unchanged { result ≡ false → self.new ≡ self.old };
}

/// Bytes of one sum are good.
#[derive(Drop)]
pub(crate) struct SumRule {
    pub(crate) sum: [u8; 32],
}

impl Judge for SumRule {
    ghost use Rattle.mirror_io.specs.Reads.{HasSum};

    ghost Good = { λ rule bytes. HasSum rule.sum bytes };

    ghost Behind = { λ rule bytes behind. behind ≡ rule };

    fn takes(&mut self, bytes: &[u8]) -> bool {
        Sha256::digest(bytes) == self.sum
    }
}
