//! What a read of a block means, whatever code there is.
ghost use Rattle.std.specs.Prelude.{◌≡◌, ◌⊎◌, ℕ, true, List, Contains, Some, None};
ghost use Rattle.sha2.specs.Sha256.{sha256};
ghost use Rattle.mp_base.specs.Outside.{Rose};
ghost use Rattle.bank_core.specs.BankView.{BankView};
ghost use Rattle.bank_core.specs.Disk.{IsClean};
ghost use Rattle.bank_core.specs.Story.{Story, now};
ghost use Rattle.mirror_io.specs.declared.copies.CopyOf.{CopyOf};
ghost use Rattle.mirror_io.specs.declared.copies.CopySeen.{CopySeen};
ghost use Rattle.mirror_io.specs.Clash.{Clashes};
ghost use Rattle.mirror_io.specs.Mirror.{ReadsBlock};
ghost use Rattle.mirror_io.specs.Reading.{MirrorBlock};

/// A read that answers gives the block that its sum is of, or these very bytes and that block have one sum; and a
/// read that is exhausted passed over no good copy: where a readable copy's sector holds bytes of the sum, stable,
/// with nothing on the way and undamaged, a read of its device failed. It computes nothing: its clauses are the law.
pub fn reads_give_the_block()
    ensures right { (b : MirrorBlock) (seen : List CopySeen) (given block : List ℕ) (old new : BankView)
        → (r : ReadsBlock b seen (Some given) old new) → b.sum ≡ sha256 block → (given ≡ block) ⊎ Clashes r.reads given block }
    ensures found { (b : MirrorBlock) (seen : List CopySeen) (old new : BankView) → ReadsBlock b seen None old new
        → (story : Story) → new.told ≡ Some story → (copy : CopyOf) → Contains b.copies copy → copy.readable ≡ true
        → IsClean (now story copy.dev b.at) → sha256 (now story copy.dev b.at).stable ≡ b.sum
        → Rose (old.faults copy.dev) (new.faults copy.dev) }
{}
