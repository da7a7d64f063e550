// Thin rulings (layout.rs, thin_ruling_pixels): the ink dots of long thin runs along rows and along columns.
#![tactic(auto)]

mod columns;
mod lengths;
mod plane;
mod scanlines;

pub use lengths::{run_min, thick_max, thin_rulings};
pub use scanlines::{Found, mark_rulings};
