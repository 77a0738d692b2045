//! The spare leaves of a top's tree, and the spares that a pool lists.
ghost use Rattle.std.specs.Prelude.{◌≡◌, ℕ, suc, List, Some, drop, slice_get};
ghost use Rattle.std.specs.List.{list_any, AllZip};
ghost use Rattle.std.specs.Str.{bytes_eq};
ghost use Rattle.vdev_tree.specs.Children.{Child, IsChild};
ghost use Rattle.vdev_tree.specs.Tree.{guid_of};
ghost use Rattle.vdev_tree.specs.declared.top.Top.{Top};
ghost use Rattle.pool_codec.specs.Numbered.{by_numbers};
ghost use Rattle.pool_codec.specs.Tops.{children_of};
ghost use Rattle.pool_moves.specs.Trees.{is_spare_of, is_spare_leaf, same_number};
ghost use Rattle.open_pool.specs.Parts.{all_parts};
ghost use Rattle.open_pool.specs.State.{vdevs_in};

use mp_base::{Guid, Name};
use vdev_tree::{Kind, Top, Vdev};

/// Whether the leaf of this number is a spare leaf of a spare vdev.
pub(crate) fn is_spare_leaf(top: &Top, at: Guid) -> bool
    ensures { (place : ℕ) (tops : List Top) → slice_get tops place ≡ Some top.now → result ≡ is_spare_leaf at (children_of (vdevs_in (all_parts tops)) (suc place)) }
{
    match &top.mirror {
        Vdev::Leaf(_) => false,
        Vdev::Inner(mirror) => is_spare_among(&mirror.children, at),
    }
}

// Whether it is one of a child of a mirror.
fn is_spare_among(children: &[Vdev], at: Guid) -> bool
    ensures { (cs : List Child) → AllZip IsChild children.now cs → result ≡ list_any (λ c. is_spare_of at (by_numbers c)) cs }
{
    for child in children {
        if is_spare_of(child, at) {
            return true;
        }
    }
    false
}

// Whether it is one of this child. Behind the first child of a spare vdev stand its spare leaves.
fn is_spare_of(child: &Vdev, at: Guid) -> bool
    ensures { (c : Child) → IsChild child.now c → result ≡ is_spare_of at (by_numbers c) }
{
    match child {
        Vdev::Leaf(_) => false,
        Vdev::Inner(inner) => inner.kind == Kind::Spare && is_behind_first(&inner.children, at),
    }
}

fn is_behind_first(children: &[Vdev], at: Guid) -> bool
    ensures { result ≡ list_any (λ vdev. same_number at (guid_of vdev)) (drop 1 children.now) }
{
    children.iter().skip(1).any(|spare| at == spare.guid())
}

/// Whether a spare of this name is listed.
pub(crate) fn is_listed(spares: &[Name], name: &Name) -> bool
    ensures { result ≡ list_any (λ spare. bytes_eq spare name.now) spares.now }
{
    spares.iter().any(|spare| *spare == *name)
}
