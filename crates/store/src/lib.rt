// The store: its entries and readings. What each answers and leaves is in specs/rules/Outcomes.
#![tactic(auto)]

mod clearing;
mod dots;
mod figures;
mod frames;
mod held_frames;
mod layouts;
mod leaves;
mod lists;
mod mappings;
mod measures;
mod medians;
mod points;
mod sheets;

pub use clearing::clear;
pub use dots::{count_dots, read_dots};
pub use figures::read_figures;
pub use frames::read_frame;
pub use layouts::segment;
pub use leaves::{Handed, level};
pub use lists::{read_blocks, read_columns, read_glyphs, read_graphics, read_lines, read_rules};
pub use mappings::{level_gray, rect_to_page};
pub use measures::{read_summary, twenty_line_measure};
pub use points::to_page;
pub use sheets::write_sheet;
