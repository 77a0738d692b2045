//! Which trees a top may have.
ghost use Rattle.std.specs.Prelude.{◌≡◌, map};
ghost use Rattle.std.specs.List.{list_all};
ghost use Rattle.vdev_tree.specs.Tree.{is_mirror_kind, is_replacing_kind, is_spare_kind, form_of, form_of_replacing, form_of_spare, form_of_mirror, is_leaf, is_replacing, is_spare, is_mirror, may_be_mirrored, may_be_spared, is_top};

use crate::vdev::{Kind, Vdev};

impl Kind {
    fn is_mirror(self) -> bool
        ensures { result ≡ is_mirror_kind self }
    {
        self == Kind::Mirror
    }

    fn is_replacing(self) -> bool
        ensures { result ≡ is_replacing_kind self }
    {
        self == Kind::Replacing
    }

    pub(crate) fn is_spare(self) -> bool
        ensures { result ≡ is_spare_kind self }
    {
        self == Kind::Spare
    }
}

#[tactic(auto, using(crate::proofs::Forms::forms))]
impl Vdev {
    pub(crate) fn is_leaf(&self) -> bool
        ensures { result ≡ is_leaf (form_of self.now) }
    {
        match self {
            Vdev::Leaf(_) => true,
            Vdev::Inner(_) => false,
        }
    }

    fn is_replacing(&self) -> bool
        ensures { result ≡ is_replacing (form_of self.now) }
    {
        match self {
            Vdev::Leaf(_) => false,
            Vdev::Inner(inner) => inner.kind.is_replacing() & are_two_leaves(&inner.children),
        }
    }

    fn is_spare(&self) -> bool
        ensures { result ≡ is_spare (form_of self.now) }
    {
        match self {
            Vdev::Leaf(_) => false,
            Vdev::Inner(inner) => inner.kind.is_spare() & are_spared(&inner.children),
        }
    }

    /// Whether it may be the first child of a spare vdev.
    fn may_be_spared(&self) -> bool
        ensures { result ≡ may_be_spared (form_of self.now) }
    {
        self.is_leaf() || self.is_replacing()
    }

    /// Whether it may be the child of a mirror.
    fn may_be_mirrored(&self) -> bool
        ensures { result ≡ may_be_mirrored (form_of self.now) }
    {
        self.is_leaf() || self.is_replacing() || self.is_spare()
    }

    /// Whether it is a valid tree of a top.
    pub fn is_top(&self) -> bool
        ensures { result ≡ is_top self.now }
    {
        match self {
            Vdev::Leaf(_) => false,
            Vdev::Inner(inner) => inner.kind.is_mirror() & are_mirrored(&inner.children),
        }
    }
}

/// Whether these are the two leaves of a vdev that replaces.
#[tactic(auto, using(crate::proofs::Forms::forms))]
fn are_two_leaves(vdevs: &[Vdev]) -> bool
    ensures { result ≡ is_replacing (form_of_replacing (map form_of vdevs.now)) }
{
    all_are_leaves(vdevs) && vdevs.len() == 2
}

fn all_are_leaves(vdevs: &[Vdev]) -> bool
    ensures { result ≡ list_all (λ vdev. is_leaf (form_of vdev)) vdevs.now }
{
    vdevs.iter().all(|vdev| vdev.is_leaf())
}

fn all_may_be_mirrored(vdevs: &[Vdev]) -> bool
    ensures { result ≡ list_all (λ vdev. may_be_mirrored (form_of vdev)) vdevs.now }
{
    vdevs.iter().all(|vdev| vdev.may_be_mirrored())
}

/// Whether these are a first child and one or two spare leaves.
#[tactic(auto, using(crate::proofs::Forms::forms))]
fn are_spared(vdevs: &[Vdev]) -> bool
    ensures { result ≡ is_spare (form_of_spare (map form_of vdevs.now)) }
{
    match vdevs {
        [] => false,
        [first, spares @ ..] => {
            first.may_be_spared()
                && all_are_leaves(spares)
                && 1 <= spares.len()
                && spares.len() <= 2
        }
    }
}

/// Whether these are 1 to 8 vdevs that a mirror may have.
#[tactic(auto, using(crate::proofs::Forms::forms))]
fn are_mirrored(vdevs: &[Vdev]) -> bool
    ensures { result ≡ is_mirror (form_of_mirror (map form_of vdevs.now)) }
{
    all_may_be_mirrored(vdevs) && 1 <= vdevs.len() && vdevs.len() <= 8
}
