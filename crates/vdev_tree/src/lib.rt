//! The tree of a top: mirrors, replacing and spare vdevs, and the leaves, with their states and logs.
#![tactic(auto)]

mod changes;
mod form;
mod graft;
mod prune;
mod seat;
mod top;
mod vdev;

pub use changes::LeafChange;
pub use graft::GraftFault;
pub use prune::PruneFault;
pub use seat::children_are_the_tree;
pub use top::Top;
pub use vdev::{Counts, InnerVdev, Kind, LeafVdev, State, Vdev};
