// Run extents (layout.rs, extent_through): the length of the run of ink through each dot of a mask, along rows or columns.
#![tactic(auto)]

mod bands;
mod chunks;
mod crowded;
mod entry;
mod lengths;
mod rows;

pub use entry::{Along, run_extents};
pub use lengths::{capped, chunk_end};
