//! Where a leaf stands in a tree, and what may be done there.
ghost use Rattle.std.specs.Prelude.{◌≡◌, ◌<◌, ◌≤◌, ◌++◌, ◌∷◌, [], List, true, false, Some, None, length, get_or, cond, IfOk, IfErr, IfSome, OnOk, IfNone};
ghost use Rattle.std.specs.List.{list_any, flat_map, AllZip};
ghost use Rattle.mp_base.specs.declared.refusal.Refusal.TheVariants.{WrongPlace, NoVdev};
ghost use Rattle.mp_base.specs.declared.refusal.PlaceRule.TheVariants.{Role};
ghost use Rattle.vdev_tree.specs.declared.vdev.Vdev.TheVariants.{Leaf, Inner};
ghost use Rattle.vdev_tree.specs.declared.vdev.Kind.TheVariants.{Mirror};
ghost use Rattle.vdev_tree.specs.declared.vdev.LeafVdev.{LeafVdev};
ghost use Rattle.vdev_tree.specs.declared.vdev.InnerVdev.{InnerVdev};
ghost use Rattle.vdev_tree.specs.Tree.{leaves, marks, guid_of, opening, closing};
ghost use Rattle.vdev_tree.specs.Children.{Child, children_of, child_leaves, child_marks, IsChild};
ghost use Rattle.vdev_tree.specs.Edits.{is_at, may_be_replaced, may_get_spare, allows, is_single, limit_of, mirror_limit, prune_limit, refusal_of};

use crate::top::Top;
use crate::vdev::{Kind, Vdev};
use mp_base::{Guid, PlaceRule, Refusal};

/// The children of a mirror are the whole tree of its top: they give its leaves in tree order and how it is
/// built, and there are 1 to 8 of them.
pub fn children_are_the_tree(top: &Top)
    ensures leaves { leaves top.now.mirror ≡ flat_map child_leaves (children_of top.now.mirror) }
    ensures built { marks top.now.mirror ≡ opening (guid_of top.now.mirror) Mirror ∷ (flat_map child_marks (children_of top.now.mirror) ++ closing ∷ []) }
    ensures some { 1 ≤ length (children_of top.now.mirror) }
    ensures few { length (children_of top.now.mirror) ≤ 8 }
{
    let _ = top;
}

/// What is done at a leaf of a tree.
#[derive(Clone, Copy, Debug, PartialEq, Eq)]
pub(crate) enum Edit {
    /// Another leaf becomes the last child of its mirror.
    Attach,
    /// Another leaf takes over from it.
    Replace,
    /// A spare leaf comes behind it.
    AddSpare,
    /// It is taken out.
    Prune,
}

impl Top {
    /// The child of the mirror in which this is done, or why it can't be.
    pub(crate) fn seat(&self, edit: Edit, at: Guid) -> Result<usize, Refusal>
        ensures none { OnOk result (refusal_of edit at (children_of self.now.mirror) ≡ None) }
        ensures inside { IfOk result (λ i. i < length (children_of self.now.mirror)) }
        ensures allowed { IfOk result (λ i. (d : Child) → allows edit at (get_or (children_of self.now.mirror) i d) ≡ true) }
        ensures why { IfErr result (λ why. refusal_of edit at (children_of self.now.mirror) ≡ Some why) }
    {
        let children = self.mirror.children();
        let Some(place) = first_that_allows(children, edit, at) else {
            return Err(misplaced(&self.mirror, at));
        };
        match limit_of(children, edit) {
            Some(refusal) => Err(refusal),
            None => Ok(place),
        }
    }
}

/// The first child in which this may be done.
fn first_that_allows(children: &[Vdev], edit: Edit, at: Guid) -> Option<usize>
    requires { (cs : List Child) × AllZip IsChild children.now cs }
    ensures inside { IfSome result (λ i. (cs : List Child) → AllZip IsChild children.now cs → i < length cs) }
    ensures some { IfSome result (λ i. (cs : List Child) (d : Child) → AllZip IsChild children.now cs → allows edit at (get_or cs i d) ≡ true) }
    ensures none { IfNone result ((cs : List Child) → AllZip IsChild children.now cs → list_any (allows edit at) cs ≡ false) }
{
    for (i, child) in children.iter().enumerate() {
        if child.allows(edit, at) {
            return Some(i);
        }
    }
    None
}

/// No child allows it: the leaf of this number stands elsewhere, or there is none.
fn misplaced(mirror: &Vdev, at: Guid) -> Refusal
    ensures { result ≡ cond (list_any (is_at at) (leaves mirror.now)) (WrongPlace Role) NoVdev }
{
    if mirror.has(at) {
        Refusal::WrongPlace {
            rule: PlaceRule::Role,
        }
    } else {
        Refusal::NoVdev
    }
}

/// Why there is no room for it, or nothing that would stay.
fn limit_of(children: &[Vdev], edit: Edit) -> Option<Refusal>
    ensures { (cs : List Child) → AllZip IsChild children.now cs → result ≡ limit_of edit cs }
{
    match edit {
        Edit::Attach => mirror_limit(children),
        Edit::Prune => prune_limit(children),
        Edit::Replace | Edit::AddSpare => None,
    }
}

fn mirror_limit(children: &[Vdev]) -> Option<Refusal>
    ensures { (cs : List Child) → AllZip IsChild children.now cs → result ≡ mirror_limit cs }
{
    if children.len() == 8 {
        Some(Refusal::TreeFull { limit: 8, count: 9 })
    } else {
        None
    }
}

fn prune_limit(children: &[Vdev]) -> Option<Refusal>
    ensures { (cs : List Child) → AllZip IsChild children.now cs → result ≡ prune_limit cs }
{
    if is_single(children) {
        Some(Refusal::WrongPlace {
            rule: PlaceRule::Role,
        })
    } else {
        None
    }
}

/// Whether this is one leaf alone.
fn is_single(children: &[Vdev]) -> bool
    ensures { (cs : List Child) → AllZip IsChild children.now cs → result ≡ is_single cs }
{
    match children {
        [child] => child.is_leaf(),
        _ => false,
    }
}

#[tactic(auto, using(crate::proofs::Folds::at_vdev))]
impl Vdev {
    /// The children of an inner vdev.
    pub(crate) fn children(&self) -> &[Vdev]
        ensures { (inner : InnerVdev) → self.now ≡ Inner inner → result.now ≡ inner.children.items }
    {
        match self {
            Vdev::Leaf(_) => &[],
            Vdev::Inner(inner) => &inner.children,
        }
    }

    /// Whether a leaf under it has this number.
    pub fn has(&self, at: Guid) -> bool
        ensures { result ≡ list_any (is_at at) (leaves self.now) }
    {
        match self {
            Vdev::Leaf(leaf) => leaf.guid == at,
            Vdev::Inner(inner) => {
                let mut some = false;
                for child in &inner.children {
                    some = some | child.has(at);
                }
                some
            }
        }
    }

    /// Whether it is the leaf of this number.
    pub(crate) fn is_leaf_at(&self, at: Guid) -> bool
        ensures leaf { (leaf : LeafVdev) → self.now ≡ Leaf leaf → result ≡ is_at at leaf }
        ensures inner { (inner : InnerVdev) → self.now ≡ Inner inner → result ≡ false }
    {
        match self {
            Vdev::Leaf(leaf) => leaf.guid == at,
            Vdev::Inner(_) => false,
        }
    }

    /// Whether this may be done in this child of a mirror.
    fn allows(&self, edit: Edit, at: Guid) -> bool
        requires { (c : Child) × IsChild self.now c }
        ensures { (c : Child) → IsChild self.now c → result ≡ allows edit at c }
    {
        match edit {
            Edit::Attach => self.is_leaf_at(at),
            Edit::Replace => self.may_be_replaced(at),
            Edit::AddSpare => self.may_get_spare(at),
            Edit::Prune => self.has(at),
        }
    }

    fn may_be_replaced(&self, at: Guid) -> bool
        requires { (c : Child) × IsChild self.now c }
        ensures { (c : Child) → IsChild self.now c → result ≡ may_be_replaced at c }
    {
        match self {
            Vdev::Leaf(leaf) => leaf.guid == at,
            Vdev::Inner(inner) => inner.kind == Kind::Spare && inner.children[0].is_leaf_at(at),
        }
    }

    fn may_get_spare(&self, at: Guid) -> bool
        requires { (c : Child) × IsChild self.now c }
        ensures { (c : Child) → IsChild self.now c → result ≡ may_get_spare at c }
    {
        match self {
            Vdev::Leaf(leaf) => leaf.guid == at,
            Vdev::Inner(inner) => {
                inner.kind == Kind::Spare
                    && inner.children.len() == 2
                    && inner.children[1].is_leaf_at(at)
            }
        }
    }
}
