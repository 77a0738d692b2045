//! The labels of a device: how a pool's configuration stands on it, so that it is found again after any
//! stop (docs/FORMATS.md, "Labels").
#![tactic(auto)]

mod bytes;
mod cleared;
mod commit;
mod found;
mod label;
mod layout;
mod look;
mod member;
mod opening;
mod part;
mod round;
mod rule;
mod search;
mod stamping;
mod uberblock;

pub use cleared::{
    cleared_rings_give_one_identity, cleared_rings_hold, cleared_rings_show_no_record,
    half_cleared_rings_show_old_records, openings_pass_cleared_rings,
};
pub use commit::commit_record;
pub use found::Found;
pub use layout::LEAST_SECTORS;
pub use look::newest;
pub use member::Member;
pub use rule::{BlobRule, Head};
pub use search::identity;
pub use stamping::{mark_spare, stamp, wipe};
pub use uberblock::{Uberblock, read_uberblock, write_uberblock};
