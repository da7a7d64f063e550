// Grouping: text lines, blocks, columns and the figures that clubs print (layout.rs). Lines, blocks and columns lie in lent words,
// as many for each record; what the functions must do is in specs/.
#![tactic(auto)]

mod block;
mod column;
mod counts;
mod dots;
mod number;
mod pitch;
mod record;
mod spans;
mod summary;

pub use block::blocks;
pub use column::{Column, columns};
pub use dots::{count_dots, write_dots};
pub use pitch::{median_pitch, twenty_line_measure};
pub use record::BLOCK_WORDS;
pub use summary::{Summary, Totals, median_glyph_height, summarize};
