//! Moves of a pool, and each line as a list of them (docs/MODEL.md, "Moves").
#![tactic(auto)]

mod laws;
mod openings;
mod rows;
mod scans;
mod trees;

pub use laws::{moves_step_what_is_seen, walks_keep_the_state};
pub use openings::{
    creates_make_a_pool, leaves_may_come_online, members_stand_on_a_list,
    openings_may_be_committed, openings_read_the_record, openings_seek_a_live_record,
};
pub use rows::{
    freezes_may_be_made, leaves_may_go_offline, made_pools_are_kept, pools_may_be_opened,
    reads_give_the_block, turns_may_be_made,
};
pub use scans::scans_may_be_made;
pub use trees::{trees_have_the_leaves, trees_may_be_changed};
