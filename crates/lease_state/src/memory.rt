use std::alloc::{AllocError, AllocFailed};
use thiserror::Error;

/// The one fault of a call that can only run out of memory (profile).
#[derive(Clone, Copy, Debug, PartialEq, Eq, Hash, Error)]
#[error("out of memory")]
pub struct Memory;

/// So that `?` passes a refused allocation on as `Memory`.
impl From<AllocError> for Memory {
    fn from(_refused: AllocError) -> Memory {
        Memory
    }
}

/// So that `?` passes a refused push on as `Memory`. The item that found no room is dropped.
impl<T: Drop> From<AllocFailed<T>> for Memory {
    fn from(_refused: AllocFailed<T>) -> Memory {
        Memory
    }
}

#[cfg(test)]
mod tests {
    use super::*;

    #[test]
    fn refused_allocations_become_memory(rt: HostRuntime) {
        assert_eq!(rt; Memory::from(AllocError), Memory);
        assert_eq!(rt; Memory::from(AllocFailed { value: 7u8 }), Memory);
    }
}
