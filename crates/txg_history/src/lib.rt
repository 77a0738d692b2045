//! The history of a pool over any number of runs, and what its devices keep through it (docs/MODEL.md, "The history of a
//! pool").
#![tactic(auto)]

mod contents;
mod histories;
mod labels;
mod members;
mod moments;
mod moves;
mod openings;
mod pages;
mod refusals;
mod rounds;
mod scans;
mod settled;
mod turns;
mod writes;

pub use contents::{members_are_brought_in, records_have_what_was_accepted};
pub use histories::small_histories_are_allowed;
pub use labels::labels_stay_sound;
pub use members::devices_are_lost_by_stamps;
pub use moments::moments_are_fronts;
pub use moves::{
    devices_may_be_numbered_anew, histories_keep_their_records, stamped_pools_survive,
};
pub use openings::{
    identities_are_the_members, looks_show_the_labels, openings_find_a_live_record,
    premises_can_be_met, strays_were_never_acknowledged,
};
pub use pages::pages_are_read_back;
pub use refusals::wrong_moves_are_refused;
pub use rounds::rounds_may_be_made;
pub use scans::scans_clear_only_copied_groups;
pub use settled::settled_groups_were_owed_throughout;
pub use turns::{empty_groups_may_be_frozen, flush_turns_may_be_made, write_turns_may_be_made};
pub use writes::{keys_may_be_written_again, plans_may_be_made, reads_show_the_block};
