// Segmenting: a whole page, from its ink to its lists (layout.rs, segment). The stages lie in one slice of scratch, laid out in sorting's
// specs/Scratch; what they leave is in specs/.
#![tactic(auto)]

mod boxes;
mod figures;
mod groups;
mod lists;
mod page;
mod painting;
mod places;
mod results;
mod text;

pub use boxes::BOX_WORDS;
pub use figures::{measured_word, write_figures};
pub use page::segment;
pub use places::{COLUMN_WORDS, ResultPlaces, result_places, result_words};
pub use results::Segmentation;
