// The lists of a segmentation, out of a store.
ghost use Rattle.std.specs.Prelude.{◌≡◌};
ghost use Rattle.store.specs.stages.Areas.{which_of, record_words, list_start, list_size, list_read, ListsAt};
ghost use Rattle.store.specs.rules.Readings.{ResultReading, Which};
ghost use Rattle.store.specs.rules.Readings.Output.{words};
ghost use Rattle.store.specs.rules.Outcomes.{told, result_told};
ghost use Rattle.memory.specs.rules.Refusals.{answer_number, answer_value};

use grouping::BLOCK_WORDS;
use judging::{
    BLOCKS, CAPACITY, COLUMNS, FRAME_HEIGHT, FRAME_WIDTH, GLYPHS, GRAPHICS, LINES, PAGE_WIDTH,
    RULES, judge_reading, lists_at,
};
use memory::{Refusal, copy_over};
use segmenting::{BOX_WORDS, COLUMN_WORDS, result_places};
use smoothing::{GLYPH_WORDS, LINE_WORDS};

// A list of a store: the place of its first word, the words of a record, how many records it has.
#[derive(Clone, Copy, Debug, PartialEq, Eq)]
struct RecordList {
    at: usize,
    width: usize,
    count: u32,
}

// The lists of a segmentation.
#[derive(Clone, Copy, Debug, PartialEq, Eq)]
pub enum ListName {
    Columns,
    Rules,
    Graphics,
    Glyphs,
    Lines,
    Blocks,
}

// Where a list stands.
fn list_at(store: &[u32], which: ListName) -> RecordList
    requires { ListsAt store.now }
    ensures { (result.at ≡ list_start (which_of which) store.now) × (result.width ≡ record_words (which_of which)) × (result.count ≡ list_size (which_of which) store.now) }
{
    let start = lists_at(store[PAGE_WIDTH], store[FRAME_HEIGHT]);
    let places = result_places(store[FRAME_WIDTH] as usize, store[CAPACITY] as usize);
    let (place, width, count) = match which {
        ListName::Columns => (places.columns, COLUMN_WORDS, store[COLUMNS]),
        ListName::Rules => (places.rules, BOX_WORDS, store[RULES]),
        ListName::Graphics => (places.graphics, BOX_WORDS, store[GRAPHICS]),
        ListName::Glyphs => (places.glyphs, GLYPH_WORDS, store[GLYPHS]),
        ListName::Lines => (places.lines, LINE_WORDS, store[LINES]),
        ListName::Blocks => (places.blocks, BLOCK_WORDS, store[BLOCKS]),
    };
    let at = start + place;
    RecordList { at, width, count }
}

// How many records a list has.
fn count_of(store: &[u32], which: ListName) -> u32
    requires { ListsAt store.now }
    ensures { result ≡ list_size (which_of which) store.now }
{
    let list = list_at(store, which);
    list.count
}

// The words of a list.
pub fn list_of(store: &[u32], which: ListName) -> &[u32]
    requires { ListsAt store.now }
    ensures { result.now ≡ list_read (which_of which) store.now }
{
    let list = list_at(store, which);
    let at = list.at;
    let end = at + (list.count as usize) * list.width;
    &store[at..end]
}

// Reads a list: how many records, and their words over the front of the words lent.
fn read_list(
    store: &[u32],
    ink: &[u8],
    kinds: &[u8],
    which: ListName,
    out: &mut [u32],
) -> Result<u32, Refusal>
    ensures { told (answer_number result) (answer_value result) (words out.new) ≡ result_told (ResultReading.list (which_of which) out.old) store.now ink.now kinds.now }
{
    judge_reading(store, ink, kinds, false)?;
    let list = list_of(store, which);
    if out.len() < list.len() {
        return Err(Refusal::Lent);
    }
    copy_over(out, list);
    Ok(count_of(store, which))
}

pub fn read_columns(
    store: &[u32],
    ink: &[u8],
    kinds: &[u8],
    out: &mut [u32],
) -> Result<u32, Refusal>
    ensures { told (answer_number result) (answer_value result) (words out.new) ≡ result_told (ResultReading.list Which.columns out.old) store.now ink.now kinds.now }
{
    read_list(store, ink, kinds, ListName::Columns, out)
}

pub fn read_rules(store: &[u32], ink: &[u8], kinds: &[u8], out: &mut [u32]) -> Result<u32, Refusal>
    ensures { told (answer_number result) (answer_value result) (words out.new) ≡ result_told (ResultReading.list Which.rules out.old) store.now ink.now kinds.now }
{
    read_list(store, ink, kinds, ListName::Rules, out)
}

pub fn read_graphics(
    store: &[u32],
    ink: &[u8],
    kinds: &[u8],
    out: &mut [u32],
) -> Result<u32, Refusal>
    ensures { told (answer_number result) (answer_value result) (words out.new) ≡ result_told (ResultReading.list Which.graphics out.old) store.now ink.now kinds.now }
{
    read_list(store, ink, kinds, ListName::Graphics, out)
}

pub fn read_glyphs(store: &[u32], ink: &[u8], kinds: &[u8], out: &mut [u32]) -> Result<u32, Refusal>
    ensures { told (answer_number result) (answer_value result) (words out.new) ≡ result_told (ResultReading.list Which.glyphs out.old) store.now ink.now kinds.now }
{
    read_list(store, ink, kinds, ListName::Glyphs, out)
}

pub fn read_lines(store: &[u32], ink: &[u8], kinds: &[u8], out: &mut [u32]) -> Result<u32, Refusal>
    ensures { told (answer_number result) (answer_value result) (words out.new) ≡ result_told (ResultReading.list Which.lines out.old) store.now ink.now kinds.now }
{
    read_list(store, ink, kinds, ListName::Lines, out)
}

pub fn read_blocks(store: &[u32], ink: &[u8], kinds: &[u8], out: &mut [u32]) -> Result<u32, Refusal>
    ensures { told (answer_number result) (answer_value result) (words out.new) ≡ result_told (ResultReading.list Which.blocks out.old) store.now ink.now kinds.now }
{
    read_list(store, ink, kinds, ListName::Blocks, out)
}
