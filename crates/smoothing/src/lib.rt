// Smoothing and lines: from the sorted ink to the smoothed components, the lines that they are and the glyphs of each (layout.rs). The
// stages lie in one slice of scratch, laid out in sorting's specs/Scratch.
#![tactic(auto)]

mod glyphs;
mod lines;
mod smears;
mod smooth;

pub use glyphs::{GLYPH_WORDS, write_glyphs};
pub use lines::{LINE_WORDS, LinePlaces, number_labels, order_lines, write_lines};
pub use smears::{Smears, find_smears};
