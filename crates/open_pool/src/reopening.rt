//! A pool whose record was read by an opening, before it is committed again.
ghost use Rattle.std.specs.Prelude.{◌≡◌, ◌<◌, ◌≤◌, ℕ, List, Option, Some, length, take, All, IfOk};
ghost use Rattle.dtl_rules.specs.Widening.{leaves_of};
ghost use Rattle.pool_config.specs.Reading.{config_in};
ghost use Rattle.pool_config.specs.Seen.{config_seen, IsRecorded};
ghost use Rattle.pool_moves.specs.OpeningRow.{last_numbers};
ghost use Rattle.open_pool.specs.Finding.{handed_to};
ghost use Rattle.open_pool.specs.Here.{AreHere};
ghost use Rattle.open_pool.specs.Opening.{AreHanded, ReopensOrStops};

use crate::finding::find_leaves;
use crate::pages::{PageFault, read_map};
use crate::placing::place_leaves;
use bank_core::Bank;
use block_map::BlockMap;
use label_store::Found;
use mp_base::{Group, Guid, MemFault, Name};
use pool_config::{Config, PART_BYTES};
use std::alloc::Global;
use std::marker::Model;
use txg_engine::{MOST_LEAVES, Open, Pins};
use vdev_tree::Top;

/// It has all that an open pool has, with an empty open group, none frozen, and no scan. Its commit makes a `Pool` of it.
#[derive(Drop)]
pub struct Reopened {
    pub(crate) alloc: Global,
    pub(crate) name: Name,
    pub(crate) pool: Guid,
    pub(crate) next: u64,
    pub(crate) number: Group,
    pub(crate) map: BlockMap,
    pub(crate) pins: Pins,
    pub(crate) tops: Vec<Top>,
    pub(crate) spares: Vec<Name>,
    pub(crate) unfrozen: Open,
    /// A buffer of a configuration part, 114,688 bytes.
    pub(crate) config: Vec<u8>,
}

impl Model for Reopened {
    ghost use Rattle.std.specs.Prelude.{◌≡◌, false, None, length};
    ghost use Rattle.open_pool.specs.Parts.{PoolParts, all_parts};
    ghost use Rattle.open_pool.specs.Opening.{IsReopened};

    ghost Value = { PoolParts };

    ghost view = { λ pool. record {
      name = pool.name;
      pool = pool.pool;
      next = pool.next;
      highest = pool.number.0;
      read = pool.number.0;
      opened = false;
      map = pool.map;
      pins = pool.pins;
      tops = all_parts pool.tops.items;
      spares = pool.spares.items;
      unfrozen = pool.unfrozen;
      frozen = None;
      scan = None;
      dirty = 0;
    } };

    ghost invariant = { λ pool. IsReopened (record {
      name = pool.name;
      pool = pool.pool;
      next = pool.next;
      highest = pool.number.0;
      read = pool.number.0;
      opened = false;
      map = pool.map;
      pins = pool.pins;
      tops = all_parts pool.tops.items;
      spares = pool.spares.items;
      unfrozen = pool.unfrozen;
      frozen = None;
      scan = None;
      dirty = 0;
    }) × (length pool.config.items ≡ 114688) };
}

impl Reopened {
    /// Reads a pool back by a record that was found, whose bytes are this configuration: each leaf is looked for on the device
    /// that was handed in under its name, then the map is read from the leaves that were found. It writes nothing but copies of
    /// pages that were wrong. At `Memory` nothing was written.
    pub fn read<B: Bank>(
        alloc: Global,
        bank: &mut B,
        found: Found,
        config: Config,
        devs: &[Option<u32>],
    ) -> Result<Reopened, PageFault>
        requires found { config_in found.blob.items ≡ Some (config_seen config) }
        requires pool { found.pool ≡ config.pool }
        requires number { found.number ≡ config.number }
        requires below { found.number.0 < last_numbers }
        requires recorded { All IsRecorded (leaves_of config.tops.items) }
        requires paired { length devs.now ≡ length (leaves_of config.tops.items) }
        requires handed { AreHanded (B.view bank.old).size devs.now }
        ensures row { (handed : List ℕ → Option ℕ) → handed_to handed (leaves_of config.tops.items) ≡ devs.now
            → ReopensOrStops handed (config_seen config).name found result (B.view bank.old) (B.view bank.new) }
        ensures here { IfOk result (λ pool. AreHere (B.view bank.new).size pool.tops) }
    {
        let pins = Pins::new(alloc);
        let unfrozen = Open::new(alloc)?;
        let part = part(alloc)?;
        let mut list = devices_of(devs);
        let list = &mut list[..devs.len()];
        find_leaves(bank, found.pool, &config.tops, list);
        let mut tops = config.tops;
        place_leaves(&mut tops, list);
        let map = read_map(
            alloc,
            bank,
            &tops,
            config.blocks,
            config.number,
            config.root,
        )?;
        map.keeps_its_form();
        Ok(Reopened {
            alloc,
            name: config.name,
            pool: config.pool,
            next: config.next_guid,
            number: config.number,
            map,
            pins,
            tops,
            spares: config.spares,
            unfrozen,
            config: part,
        })
    }
}

// A buffer of a configuration part.
pub(crate) fn part(alloc: Global) -> Result<Vec<u8>, MemFault>
    ensures { IfOk result (λ part. length part.items ≡ 114688) }
{
    Ok(vec![in alloc; 0; PART_BYTES]?)
}

// These devices, at the front.
fn devices_of(devs: &[Option<u32>]) -> [Option<u32>; MOST_LEAVES]
    requires { length devs.now ≤ 32 }
    ensures { take (length devs.now) result ≡ devs.now }
{
    let mut list = [None; MOST_LEAVES];
    for i in 0..devs.len() {
        list[i] = devs[i];
    }
    list
}
