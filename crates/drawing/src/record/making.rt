// Making a record.
ghost use Rattle.std.specs.Prelude.{◌≡◌, [], IfOk};
ghost use Rattle.drawing.specs.Answers.{Short};
ghost use Rattle.drawing.specs.Records.{contents, filed};

use crate::{Record, Verdict};
use std::alloc::{AllocError, Global};

impl Record {
    // A blank record, which reads as a shortage of no points until a solve is accepted.
    pub fn new(heap: Global) -> Result<Record, AllocError>
        ensures { IfOk result (λ b. contents b ≡ filed (Short [])) }
    {
        let flows = Vec::with_capacity(heap, 1024)?;
        let supplies = Vec::with_capacity(heap, 128)?;
        let deliveries = Vec::with_capacity(heap, 128)?;
        let labels = Vec::with_capacity(heap, 128)?;
        Ok(Record {
            verdict: Verdict::Shortage,
            flows,
            supplies,
            deliveries,
            total: 0,
            labels,
        })
    }
}
