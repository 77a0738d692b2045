//! A configuration in borrowed parts, so that writing one takes no memory.
ghost use Rattle.std.specs.Prelude.{◌≡◌};
ghost use Rattle.config_codec.specs.Fields.{config_fields, parts_fields, parts_leaf};

use crate::config::{Config, KeptState, LeafConfig, Pointer};
use mp_base::{Group, GroupRange, Guid, Name};

/// What a `LeafConfig` says, borrowed.
#[derive(Clone, Copy)]
pub struct LeafParts<'a> {
    pub member: Guid,
    pub name: &'a Name,
    pub kept: KeptState,
    pub marked: bool,
    pub log: &'a [GroupRange],
}

/// What a `Config` says, borrowed.
#[derive(Clone, Copy)]
pub struct Parts<'a> {
    pub pool: Guid,
    pub name: &'a Name,
    pub blocks: u64,
    pub number: Group,
    pub next_member: u64,
    pub pointers: &'a [Option<Pointer>],
    pub sectors: u64,
    pub mirror: Guid,
    pub first: LeafParts<'a>,
    pub second: LeafParts<'a>,
}

impl LeafConfig {
    fn parts(&self) -> LeafParts<'_>
        ensures { parts_leaf result ≡ self.now }
    {
        LeafParts {
            member: self.member,
            name: &self.name,
            kept: self.kept,
            marked: self.marked,
            log: self.log.as_slice(),
        }
    }
}

impl Config {
    /// Its parts.
    pub fn parts(&self) -> Parts<'_>
        ensures { parts_fields result ≡ config_fields self.now }
    {
        Parts {
            pool: self.pool,
            name: &self.name,
            blocks: self.blocks,
            number: self.number,
            next_member: self.next_member,
            pointers: &self.pointers,
            sectors: self.sectors,
            mirror: self.mirror,
            first: self.first.parts(),
            second: self.second.parts(),
        }
    }
}
