// The printed sheet of a segmentation as text, and a refusal's line (01, "Leaves to try").
#![tactic(auto)]

mod digits;
mod entries;
mod formats;
mod sheet;

pub use digits::{LINE_FEED, put_refusal};
pub use sheet::{SheetSides, sheet_length, write_sheet_text};
