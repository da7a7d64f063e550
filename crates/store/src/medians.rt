// Medians over the lines of a store: counted in a table of the function's own, since a reading is lent no scratch.
ghost use Rattle.std.specs.Prelude.{◌≡◌};
ghost use Rattle.store.specs.stages.Areas.{LinesAt, pitch_read, twenty_read, height_read};

use crate::lists::{ListName, list_of};
use judging::{BLOCKS, FRAME_HEIGHT, LINES};
use memory::{MAX_CAPACITY, MAX_FRAME_HEIGHT};

// The words of the table: a count for each value below twice the greatest frame height, then a word for each of the most blocks.
const TABLE: usize = 2 * (MAX_FRAME_HEIGHT as usize) + MAX_CAPACITY as usize;

// A count for each glyph height.
const HEIGHTS: usize = MAX_FRAME_HEIGHT as usize + 1;

// The median pitch of the lines of a store, 0 where there is none.
pub fn pitch_read(store: &[u32]) -> u32
    requires { LinesAt store.now }
    ensures { result ≡ pitch_read store.now }
{
    let n = store[LINES] as usize;
    let lines = list_of(store, ListName::Lines);
    let mut table = [0u32; TABLE];
    grouping::median_pitch(
        lines,
        n,
        store[BLOCKS] as usize,
        store[FRAME_HEIGHT],
        &mut table,
    )
}

// Their twenty-line measure. Beside `pitch_read` and not one with it: a closure for the call that differs would need clauses with all that it asks.
pub fn twenty_read(store: &[u32]) -> u32
    requires { LinesAt store.now }
    ensures { result ≡ twenty_read store.now }
{
    let n = store[LINES] as usize;
    let lines = list_of(store, ListName::Lines);
    let mut table = [0u32; TABLE];
    grouping::twenty_line_measure(
        lines,
        n,
        store[BLOCKS] as usize,
        store[FRAME_HEIGHT],
        &mut table,
    )
}

// The median glyph height of the lines of a store, 0 where there is none.
pub fn height_read(store: &[u32]) -> u32
    requires { LinesAt store.now }
    ensures { result ≡ height_read store.now }
{
    let n = store[LINES] as usize;
    let lines = list_of(store, ListName::Lines);
    let mut table = [0u32; HEIGHTS];
    grouping::median_glyph_height(lines, n, store[FRAME_HEIGHT], &mut table)
}
