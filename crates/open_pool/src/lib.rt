//! An open pool, as its code keeps it: what its record says, its tree, and its groups in memory
//! (docs/MODEL.md, "The open pool").
#![tactic(auto)]

mod copies;
mod count;
mod create;
mod finding;
mod form;
mod freeze;
mod laws;
mod logs;
mod named;
mod names;
mod new_tops;
mod offline;
mod pages;
mod placing;
mod pool;
mod read;
mod reopening;
mod resilver;
mod resuming;
mod scan;
mod seeking;
mod space;
mod spares;
mod sync;
mod turn;
mod write;

pub use create::CreateFault;
pub use freeze::{FreezeFault, LAST_NUMBER};
pub use laws::freezes_are_rows;
pub use logs::LeafLog;
pub use new_tops::NewLeaf;
pub use offline::OfflineFault;
pub use pages::{PageFault, Shown};
pub use pool::Pool;
pub use read::ReadFault;
pub use reopening::Reopened;
pub use resuming::ResumeFault;
pub use seeking::{SeekFault, seek};
pub use sync::SyncFault;
pub use turn::TurnDone;
pub use write::WriteFault;
