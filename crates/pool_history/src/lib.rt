//! The history of a pool over any number of runs, and what its devices keep through it
//! (docs/MODEL.md, "Stops and openings").
#![tactic(auto)]

mod commits;
mod moves;
mod openings;
mod rounds;

pub use commits::commits_may_be_made;
pub use moves::{histories_keep_their_records, stamped_pools_survive};
pub use openings::{
    labels_stay_sound, looks_show_the_labels, openings_find_a_live_record, premises_can_be_met,
};
pub use rounds::rounds_may_be_made;
