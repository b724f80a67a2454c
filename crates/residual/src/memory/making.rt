// Making the memory.
use crate::memory::Residual;
use std::alloc::{AllocError, Global};

impl Residual {
    pub fn new(heap: Global) -> Result<Residual, AllocError> {
        let head = vec![in heap; 0; 2048]?;
        let next = vec![in heap; 0; 2048]?;
        let first = vec![in heap; 0; 129]?;
        let left = vec![in heap; 0; 2048]?;
        let level = vec![in heap; 0; 129]?;
        Ok(Residual {
            head,
            next,
            first,
            left,
            level,
        })
    }
}
