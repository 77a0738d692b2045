//! The map of a record is read back from its pages: from level 3 down to level 1, and on each level by rising index, each page
//! from the copies on the leaves of its top. A copy that isn't the page is rewritten with one that is.
ghost use Rattle.std.specs.Prelude.{◌≡◌, ℕ, ◌≤◌, ◌<◌, List, Some, length, map, take, All, AllPairs, IfOk, IfErr, OnOk, IfSome};
ghost use Rattle.mp_base.specs.declared.place.Key.{Key};
ghost use Rattle.bank_core.specs.BankView.{BankView};
ghost use Rattle.vdev_tree.specs.declared.top.Top.{Top};
ghost use Rattle.dtl_rules.specs.Widening.{leaves_of, sectors_of};
ghost use Rattle.block_map.specs.Keys.{IsVolume};
ghost use Rattle.block_map.specs.Map.{pointer_at};
ghost use Rattle.block_map.specs.Places.{AreTops, IsPlace};
ghost use Rattle.block_map.specs.Pointers.{IsPointer};
ghost use Rattle.block_map.specs.Reading.{NamesPlaces, IsWritten};
ghost use Rattle.open_pool.specs.Here.{AreHere};
ghost use Rattle.open_pool.specs.Pages.{HaveOwnDevices, MapSource, source_of, ReadsUpTo, ReadsWhole, StopsBy, GoesOn, pages_left};
ghost use Rattle.open_pool.specs.Parts.{all_parts};
ghost use Rattle.open_pool.specs.State.{leaves_under};

use crate::copies::{DATA_START, copies_of};
use bank_core::Bank;
use block_map::{BlockMap, MapReader};
use mirror_io::{CopySeen, Judge, read_good};
use mp_base::{BLOCK_BYTES, Group, Key, MemFault, Pointer};
use sha2::{Digest, Sha256};
use std::alloc::Global;
use std::marker::Model;
use txg_engine::MOST_LEAVES;
use vdev_tree::Top;

/// The most tops of a pool.
const MOST_TOPS: usize = 8;

/// What each leaf of a top showed, in tree order, where none gave a block.
#[derive(Drop)]
pub struct Shown {
    list: [CopySeen; MOST_LEAVES],
    len: usize,
}

impl Model for Shown {
    ghost use Rattle.std.specs.Prelude.{◌≡◌, ◌≤◌, List, length, take};
    ghost use Rattle.mirror_io.specs.declared.copies.CopySeen.{CopySeen};

    ghost Value = { List CopySeen };

    ghost view = { λ shown. take shown.len shown.list };

    ghost invariant = { λ shown. (shown.len ≤ 32) × (length shown.list ≡ 32) };
}

impl Shown {
    ghost use Rattle.std.specs.Prelude.{◌≡◌, ◌≤◌, take};

    pub(crate) fn new(list: [CopySeen; MOST_LEAVES], len: usize) -> Shown
        requires { len ≤ 32 }
        ensures { result ≡ take len list }
    {
        Shown { list, len }
    }

    pub fn as_slice(&self) -> &[CopySeen]
        ensures { result.now ≡ self.now }
    {
        &self.list[..self.len]
    }
}

/// Why a map isn't read.
#[derive(Drop)]
pub enum PageFault {
    /// None of the leaves of its top, which has this place in the list of tops, gave this page.
    Lost { page: Key, top: u32, shown: Shown },
    /// There was no memory.
    Memory,
}

impl From<MemFault> for PageFault {
    ghost use Rattle.std.specs.Prelude.{◌≡◌};
    ghost use Rattle.open_pool.specs.declared.pages.PageFault.TheVariants.{Memory};

    ghost from_gives = { λ _ e. e ≡ Memory };

    fn from(_: MemFault) -> PageFault {
        PageFault::Memory
    }
}

/// The pages of a map, as they are read. A block is good where it has the sum of the next page's pointer and is a page that may
/// stand there; then that page is read.
#[derive(Drop)]
struct Pages {
    reader: MapReader,
}

impl Judge for Pages {
    ghost use Rattle.open_pool.specs.Pages.{IsRight, IsTaken};

    ghost Good = { λ pages bytes. IsRight pages.reader.next pages.reader bytes };

    ghost Behind = { λ pages bytes behind. IsTaken pages.reader.next pages.reader bytes behind.reader };

    fn takes(&mut self, bytes: &[u8]) -> bool {
        let Some((_, pointer)) = self.reader.next_page() else {
            return false;
        };
        Sha256::digest(bytes) == pointer.sum && self.reader.read_page(bytes)
    }
}

/// Reads the map of a record of this number, with so many blocks over these tops, whose root page has this pointer. It takes the
/// memory of the map and no other.
///
/// At `Ok` each page was read that has a pointer, and no other, in their order, and wrong copies of them whose leaves have them
/// were rewritten. At `Err` either there was no memory, and no call was made; or a page was lost: the pages before it were read
/// so, and none of its copies is good.
pub(crate) fn read_map<B: Bank>(
    alloc: Global,
    bank: &mut B,
    tops: &[Top],
    blocks: u64,
    number: Group,
    root: Pointer,
) -> Result<BlockMap, PageFault>
    requires volume { IsVolume blocks }
    requires tops { AreTops (sectors_of tops.now) }
    requires pointer { IsPointer (sectors_of tops.now) root }
    requires born { root.birth.0 ≤ number.0 }
    requires few { length (leaves_of tops.now) ≤ 32 }
    requires apart { HaveOwnDevices (leaves_of tops.now) }
    requires here { AreHere (B.view bank.old).size (all_parts tops.now) }
    ensures read { IfOk result (λ map. ReadsWhole (source_of tops.now blocks number.0 root) map (B.view bank.old) (B.view bank.new)) }
    ensures volume { IfOk result (λ map. (map.blocks ≡ blocks) × (map.sectors ≡ sectors_of tops.now)) }
    ensures places { IfOk result NamesPlaces }
    ensures born { IfOk result (λ map. (key : Key) → (pointer_at map key).birth.0 ≤ number.0) }
    ensures stops { IfErr result (λ fault. StopsBy (source_of tops.now blocks number.0 root) fault (B.view bank.old) (B.view bank.new)) }
{
    let sectors = sectors_of(tops);
    let reader = MapReader::new(alloc, blocks, &sectors[..tops.len()], number, root)?;
    let mut pages = Pages { reader };
    while let Some((page, pointer)) = pages.reader.next_page() {
        read_next(bank, &mut pages, tops, page, pointer)?;
    }
    Ok(pages.reader.finish())
}

// The sectors of each top, at the front.
pub(crate) fn sectors_of(tops: &[Top]) -> [u64; MOST_TOPS]
    requires { length tops.now ≤ 8 }
    ensures { take (length tops.now) result ≡ sectors_of tops.now }
{
    let mut sectors = [0; MOST_TOPS];
    for i in 0..tops.len() {
        sectors[i] = tops[i].sectors;
    }
    sectors
}

// Reads the next page, which has this pointer, from its copies.
fn read_next<B: Bank>(
    bank: &mut B,
    pages: &mut Pages,
    tops: &[Top],
    page: Key,
    pointer: Pointer,
) -> Result<(), PageFault>
    requires next { pages.old.reader.next ≡ Some page }
    requires pointer { pointer ≡ pointer_at pages.old.reader.map page }
    requires stored { IsWritten pointer }
    requires tops { AreTops (sectors_of tops.now) }
    requires place { IsPlace (sectors_of tops.now) pointer.place }
    requires few { length (leaves_of tops.now) ≤ 32 }
    requires apart { HaveOwnDevices (leaves_of tops.now) }
    requires here { AreHere (B.view bank.old).size (all_parts tops.now) }
    ensures on { (m : MapSource) (start : BankView) → m.tops ≡ leaves_under (all_parts tops.now) → ReadsUpTo m pages.old.reader start (B.view bank.old)
        → GoesOn m page result pages.new.reader start (B.view bank.new) }
    ensures sizes { (d : ℕ) → (B.view bank.new).size d ≡ (B.view bank.old).size d }
{
    let copies = copies_of(&tops[pointer.place.top as usize], pointer.birth);
    let copies = copies.as_slice();
    let at = DATA_START + pointer.place.sector;
    let mut bytes = [0; BLOCK_BYTES];
    let mut list = [CopySeen::NotTried; MOST_LEAVES];
    let len = copies.len();
    if read_good(bank, copies, at, pages, &mut bytes, &mut list[..len]).is_err() {
        return Err(PageFault::Lost {
            page,
            top: pointer.place.top,
            shown: Shown { list, len },
        });
    }
    Ok(())
}
