//! Demand 3 of document 01, over the scheduler's own calls. The statement stands in specs/Demand3.antt, its proof in proofs/. There is no code.
#![tactic(auto)]

// A crate has an item.
const NOTHING: u64 = 0;
