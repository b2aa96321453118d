//! Want of memory, the one refusal that any call may have.
use std::alloc::AllocError;

/// Memory ran out. The one answer that no rule decides: any call that allocates may give it.
#[derive(Clone, Copy, Debug, PartialEq, Eq)]
pub struct NoMemory;

impl From<AllocError> for NoMemory {
    fn from(_: AllocError) -> Self {
        NoMemory
    }
}
