//! What holds of pages and keys without any code: the clauses of functions with empty bodies.
ghost use Rattle.std.specs.Prelude.{◌≡◌, ℕ, ◌<◌, ◌≤◌, List, length, slice_index_or};
ghost use Rattle.mp_base.specs.declared.place.Key.{Key};
ghost use Rattle.mp_base.specs.declared.place.Pointer.{Pointer};
ghost use Rattle.block_map.specs.Keys.{IsKey, IsBefore, child};
ghost use Rattle.block_map.specs.Dirty.{page_above, pages_above, Rises, ArePagesAbove};
ghost use Rattle.block_map.specs.Pages.{page_bytes, pointers_in, AreInForm};
ghost use Rattle.block_map.specs.Map.{children};

/// The pages of a level above blocks are each page that has one of them below it, once and by rising index; and they
/// are keys of the volume.
pub fn pages_above_are_exact()
    ensures pages { (level : ℕ) (addrs : List ℕ) → Rises addrs → ArePagesAbove level addrs (pages_above level addrs) }
    ensures keys { (blocks level addr : ℕ) → level ≤ 3 → addr < blocks → IsKey blocks (page_above level addr) }
{}

/// Two lists of pointers with one page's bytes are one, and its pointers are those that stand at their offsets. A page
/// has 4,096 bytes, and 4,096 bytes that are spelled by the pointers which stand in them are a page of pointers in
/// their form.
pub fn pages_are_spelled_once()
    ensures once { (one other : List Pointer) → AreInForm one → AreInForm other
        → page_bytes one ≡ page_bytes other → one ≡ other }
    ensures back { (pointers : List Pointer) → AreInForm pointers → pointers_in (page_bytes pointers) ≡ pointers }
    ensures long { (pointers : List Pointer) → AreInForm pointers → length (page_bytes pointers) ≡ 4096 }
    ensures form { (bytes : List ℕ) → length bytes ≡ 4096 → page_bytes (pointers_in bytes) ≡ bytes
        → AreInForm (pointers_in bytes) }
{}

/// A page's pointers are those of its 64 keys, which come before the page. So what is put at other keys, as at all that
/// come behind the page, changes none of them.
pub fn children_come_before_their_page()
    ensures each { (at : Key → Pointer) (page : Key) (j : ℕ) (d : Pointer) → j < 64
        → slice_index_or (children at page) j d ≡ at (child page j) }
    ensures count { (at : Key → Pointer) (page : Key) → length (children at page) ≡ 64 }
    ensures before { (page : Key) (j : ℕ) → 1 ≤ page.level → IsBefore (child page j) page }
    ensures same { (one other : Key → Pointer) (page : Key)
        → ((j : ℕ) → j < 64 → one (child page j) ≡ other (child page j)) → children one page ≡ children other page }
{}
