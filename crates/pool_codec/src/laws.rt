//! The laws of the codec (docs/MODEL.md, "The codec of the history").
ghost use Rattle.std.specs.Prelude.{◌≡◌, ◌↔◌, ℕ, ◌<◌, List, length, map, true, Some, slice_index_or};
ghost use Rattle.std.specs.List.{list_all, list_any};
ghost use Rattle.mp_base.specs.declared.place.Key.{Key};
ghost use Rattle.mp_base.specs.declared.place.Pointer.{Pointer};
ghost use Rattle.group_set.specs.Groups.{holds};
ghost use Rattle.vdev_tree.specs.declared.vdev.InnerVdev.{InnerVdev};
ghost use Rattle.vdev_tree.specs.declared.vdev.Kind.TheVariants.{Mirror};
ghost use Rattle.vdev_tree.specs.declared.vdev.LeafVdev.{LeafVdev};
ghost use Rattle.vdev_tree.specs.declared.vdev.Vdev.{Vdev};
ghost use Rattle.vdev_tree.specs.declared.vdev.Vdev.TheVariants.{Leaf, Inner};
ghost use Rattle.vdev_tree.specs.declared.top.Top.{Top};
ghost use Rattle.vdev_tree.specs.Children.{children_of as children_under};
ghost use Rattle.vdev_tree.specs.Tree.{guid_of, is_top};
ghost use Rattle.block_map.specs.Keys.{IsKey};
ghost use Rattle.block_map.specs.Pages.{AreInForm, page_bytes, pointers_in};
ghost use Rattle.block_map.specs.Pointers.{hole};
ghost use Rattle.pool_config.specs.Seen.{ConfigSeen, top_vdevs, top_seen, vdevs_of, mirror_vdevs};
ghost use Rattle.pool_config.specs.Spelling.{config_bytes};
ghost use Rattle.pool_config.specs.Validity.{IsValid};
ghost use Rattle.txg_history.specs.Pages.{IsOfVolume};
ghost use Rattle.txg_history.specs.Trees.{Single, Plain};
ghost use Rattle.pool_codec.specs.Codecs.{pool_codec, head_of_seen, is_formed, is_written};
ghost use Rattle.pool_codec.specs.Numbered.{by_numbers};
ghost use Rattle.pool_codec.specs.Pointers.{sum_in};
ghost use Rattle.pool_codec.specs.Tops.{top_sectors, room_of, number_of, children_of, kept_from, LiesWithin, kept_of, kept_leaves_from};
ghost use Rattle.pool_codec.specs.Vdevs.{nodes, mirror_number, mirror_children};

/// The bytes of a valid configuration tell the history what it says. It computes nothing: its clauses are the law.
pub fn configurations_tell_the_pool()
    ensures head { (c : ConfigSeen) → IsValid c → pool_codec.head_of (config_bytes c) ≡ Some (head_of_seen c) }
    ensures blocks { (c : ConfigSeen) → IsValid c → pool_codec.blocks (config_bytes c) ≡ c.blocks }
    ensures room { (c : ConfigSeen) → IsValid c → pool_codec.room (config_bytes c) ≡ room_of (map top_sectors c.tops) }
    ensures numbers { (c : ConfigSeen) → IsValid c → pool_codec.top_number (config_bytes c) ≡ number_of (map top_vdevs c.tops) }
    ensures next { (c : ConfigSeen) → IsValid c → pool_codec.next_member (config_bytes c) ≡ c.next_guid }
    ensures children { (c : ConfigSeen) → IsValid c → pool_codec.children (config_bytes c) ≡ children_of (map top_vdevs c.tops) }
    ensures spares { (c : ConfigSeen) → IsValid c → pool_codec.spares (config_bytes c) ≡ c.spares }
    ensures root { (c : ConfigSeen) → IsValid c → pool_codec.root (config_bytes c) ≡ sum_in c.root }
    ensures leaves { (c : ConfigSeen) → IsValid c → pool_codec.leaves (config_bytes c) ≡ kept_from 1 (map top_vdevs c.tops) }
{}

/// The bytes of a page tell the history its pointers. It computes nothing: its clauses are the law.
///
/// `is`: pointers in their form, not all of them holes, are a page. `pointer`: it has just these. `only`: no other bytes are
/// one.
pub fn pages_tell_their_pointers()
    ensures is { (pointers : List Pointer) → AreInForm pointers → list_all is_formed pointers ≡ true → list_any is_written pointers ≡ true
        → pool_codec.is_page (page_bytes pointers) ≡ true }
    ensures pointer { (pointers : List Pointer) (j : ℕ) → AreInForm pointers → j < 64
        → pool_codec.pointer (page_bytes pointers) j ≡ sum_in (slice_index_or pointers j hole) }
    ensures only { (bytes : List ℕ) → length bytes ≡ 4096 → pool_codec.is_page bytes ≡ true
        → (pointers : List Pointer) × AreInForm pointers × (bytes ≡ page_bytes pointers) × (list_all is_formed pointers ≡ true)
        × (list_any is_written pointers ≡ true) }
{}

/// What is seen of tops: the vdevs of their trees, and their sectors.
pub fn tops_are_seen()
    ensures vdevs { (tops : List Top) → map top_vdevs (map top_seen tops) ≡ map mirror_vdevs tops }
    ensures sectors { (tops : List Top) → map top_sectors (map top_seen tops) ≡ map (λ top. top.sectors) tops }
{}

/// The leaves that are read of tops are those of their trees, in tree order, as a record keeps them. Where a record can
/// have all groups of a leaf's log (`LiesWithin`), what the leaf owes is just its log.
pub fn leaves_are_kept()
    ensures all { (tops : List Top) → kept_from 1 (map mirror_vdevs tops) ≡ kept_leaves_from 1 tops }
    ensures log { (top : ℕ) (leaf : LeafVdev) → LiesWithin leaf.log → (kept_of top leaf).owes ≡ holds leaf.log }
{}

/// The tree that is read of a top is its tree, by the numbers of its vdevs.
pub fn trees_are_told()
    ensures number { (mirror : Vdev) → is_top mirror ≡ true → mirror_number (nodes (vdevs_of mirror)) ≡ guid_of mirror }
    ensures children { (mirror : Vdev) → mirror_children (nodes (vdevs_of mirror)) ≡ map by_numbers (children_under mirror) }
{}

/// Of a mirror over leaves alone its number is read, and each leaf as a child.
pub fn a_new_mirror_has_its_leaves()
    ensures number { (mirror : InnerVdev) (leaves : List LeafVdev) → mirror.kind ≡ Mirror
        → mirror.children.items ≡ map Leaf leaves → mirror_number (nodes (vdevs_of (Inner mirror))) ≡ mirror.guid }
    ensures children { (mirror : InnerVdev) (leaves : List LeafVdev) → mirror.kind ≡ Mirror
        → mirror.children.items ≡ map Leaf leaves
        → mirror_children (nodes (vdevs_of (Inner mirror))) ≡ map (λ leaf. Plain (Single leaf.guid)) leaves }
{}

/// The keys of a volume are those that the history has of it.
pub fn keys_are_of_the_volume()
    ensures { (blocks : ℕ) (key : Key) → IsKey blocks key ↔ IsOfVolume blocks key }
{}
