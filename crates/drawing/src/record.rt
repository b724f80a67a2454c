// The caller's answer record.
ghost use Rattle.std.specs.Prelude.{◌≤◌, vec_capacity};

use crate::{Label, Verdict};

// One answer, with room for the largest drawing that a solver takes, so that no solve allocates.
// With a shortage the flows, supplies and deliveries are empty and the total is 0.
#[derive(Drop)]
pub struct Record {
    pub verdict: Verdict,
    pub flows: Vec<i32>,
    pub supplies: Vec<u32>,
    pub deliveries: Vec<u32>,
    pub total: u32,
    pub labels: Vec<Label>,
    ghost room: { (1024 ≤ vec_capacity flows) × (128 ≤ vec_capacity supplies) × (128 ≤ vec_capacity deliveries) × (128 ≤ vec_capacity labels) },
}

mod making;
