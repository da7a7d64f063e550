// Labelling: the 8-connected components of a mask, numbered by first dot (components.rs). Component is the record
// that every crate above reads and makes, by value.
#![tactic(auto)]

mod component;
mod entry;
mod link;
mod marked;
mod number;
mod paint;
mod record;
mod row_by_row;
mod runs;
mod sizes;
mod span;
mod tally;

pub use component::Component;
pub use entry::label;
pub use link::link_runs;
pub use marked::{Test, extract_marked};
pub use number::number_runs;
pub use runs::extract_runs;
pub use sizes::label_sizes;
