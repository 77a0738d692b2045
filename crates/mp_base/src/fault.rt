//! The two faults that carry nothing: want of memory, and a call on the outside that failed.
use std::alloc::{AllocError, AllocFailed};

/// There was no memory for what was asked. It is never merged with another answer.
#[derive(Clone, Copy, Debug, PartialEq, Eq)]
pub struct MemFault;

/// A call on something outside failed, and that object's count of faults rose.
#[derive(Clone, Copy, Debug, PartialEq, Eq)]
pub struct Failed;

impl From<AllocError> for MemFault {
    fn from(_: AllocError) -> Self {
        MemFault
    }
}

impl<T: Drop> From<AllocFailed<T>> for MemFault {
    fn from(_: AllocFailed<T>) -> Self {
        MemFault
    }
}
