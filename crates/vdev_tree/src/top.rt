//! Tops: the mirrors over which a pool spreads its blocks.
ghost use Rattle.std.specs.Prelude.{◌≡◌, ◌↔◌, ◌∷◌, [], true, slice_get, IfOk, IfSome, IsSome};
ghost use Rattle.std.specs.Option.{option_copied, option_map};
ghost use Rattle.std.specs.List.{find};
ghost use Rattle.vdev_tree.specs.Tree.{leaves, marks, pair_marks, state_of, is_named, leaf_guid, is_top, IsCopy};

use crate::vdev::{InnerVdev, Kind, LeafVdev, State, Vdev};
use mp_base::{Guid, MemFault, Name};
use std::alloc::Global;

/// A top of a pool: a mirror of 1 to 8 children. A child is a leaf, a replacing vdev of two leaves, or a
/// spare vdev of a leaf or a replacing vdev with one or two spare leaves behind it.
#[derive(Drop)]
pub struct Top {
    pub mirror: Vdev,
    /// How many data sectors each of its members has.
    pub sectors: u64,
    pub ghost valid: { is_top mirror ≡ true },
}

impl Top {
    /// The top over this tree, where it is a valid one.
    pub fn new(mirror: Vdev, sectors: u64) -> Option<Top>
        ensures some { IsSome result ↔ (is_top mirror ≡ true) }
        ensures mirror { IfSome result (λ top. top.mirror ≡ mirror) }
        ensures sectors { IfSome result (λ top. top.sectors ≡ sectors) }
    {
        if mirror.is_top() {
            Some(Top { mirror, sectors })
        } else {
            None
        }
    }

    /// A mirror of these two leaves, in this order.
    pub fn pair(
        alloc: Global,
        mirror: Guid,
        sectors: u64,
        first: LeafVdev,
        second: LeafVdev,
    ) -> Result<Top, MemFault>
        ensures leaves { IfOk result (λ top. leaves top.mirror ≡ first ∷ second ∷ []) }
        ensures built { IfOk result (λ top. marks top.mirror ≡ pair_marks mirror) }
        ensures sectors { IfOk result (λ top. top.sectors ≡ sectors) }
    {
        let children = vec![in alloc; Vdev::Leaf(first), Vdev::Leaf(second)]?;
        Ok(Top {
            mirror: Vdev::Inner(InnerVdev {
                guid: mirror,
                kind: Kind::Mirror,
                children,
            }),
            sectors,
        })
    }

    /// The state of its mirror.
    pub fn state(&self) -> State
        ensures { result ≡ state_of self.now.mirror }
    {
        self.mirror.state()
    }

    /// The number of the leaf of this name, the first in tree order.
    pub fn find(&self, name: &Name) -> Option<Guid>
        ensures { result ≡ option_map leaf_guid (find (is_named name.now) (leaves self.now.mirror)) }
    {
        self.mirror.find(name)
    }

    /// The leaf at this place in tree order.
    pub fn leaf_at(&self, place: usize) -> Option<&LeafVdev>
        ensures { option_copied result ≡ slice_get (leaves self.now.mirror) place }
    {
        self.mirror.leaf_or_rest(place).ok()
    }

    /// An equal top, whose sets have at least as much room.
    pub fn copy(&self, alloc: Global) -> Result<Top, MemFault>
        ensures mirror { IfOk result (λ top. IsCopy top.mirror self.now.mirror) }
        ensures sectors { IfOk result (λ top. top.sectors ≡ self.now.sectors) }
    {
        Ok(Top {
            mirror: self.mirror.copy(alloc)?,
            sectors: self.sectors,
        })
    }
}
