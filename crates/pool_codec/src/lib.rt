//! How the history reads a pool's bytes: the codec of its laws, by the bytes of configurations and of map pages
//! (docs/MODEL.md, "The codec of the history").
#![tactic(auto)]

mod laws;
mod rule;

pub use laws::{
    a_new_mirror_has_its_leaves, configurations_tell_the_pool, keys_are_of_the_volume,
    leaves_are_kept, pages_tell_their_pointers, tops_are_seen, trees_are_told,
};
pub use rule::ConfigRule;
