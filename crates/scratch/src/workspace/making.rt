// Making the memory.
ghost use Rattle.std.specs.Prelude.{◌≡◌, [], IfOk};
ghost use Rattle.drawing.specs.Records.{network};

use super::Workspace;
use drawing::Drawing;
use std::alloc::{AllocError, Global};

impl Workspace {
    // Room for 128 points and 1,024 runs, and none of either yet.
    pub fn new(heap: Global) -> Result<Workspace, AllocError>
        ensures { IfOk result (λ w. network w.drawing ≡ record { points = []; runs = [] }) }
    {
        let points = Vec::with_capacity(heap, 128)?;
        let runs = Vec::with_capacity(heap, 1024)?;
        Ok(Workspace {
            drawing: Drawing { points, runs },
        })
    }
}
