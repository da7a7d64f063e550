// The readings of results, under their C names. Of an answer with a value the high half is document 01's number of a refusal, or 0, and the low
// half the value.
ghost use Rattle.std.specs.Prelude.{◌≡◌};
ghost use Rattle.store.specs.rules.Outcomes.{told, result_told};
ghost use Rattle.store.specs.rules.Readings.{ResultReading, Which};
ghost use Rattle.store.specs.rules.Readings.Output.{words, floats};
ghost use Rattle.novlizeb.specs.rules.Answers.{told_word};
ghost use Rattle.novlizeb.specs.rules.Boxes.{rect_of};

use memory::{Rect, number_of, word_of};

// The unit and its case, how long each list is, the dots of ink and of each kind: fifteen words.
#[unsafe(no_mangle)]
pub extern "C" fn novlizeb_read_figures(
    store: &[u32],
    ink: &[u8],
    kinds: &[u8],
    out: &mut [u32],
) -> u32
    ensures { told result 0 (words out.new) ≡ result_told (ResultReading.figures out.old) store.now ink.now kinds.now }
{
    number_of(store::read_figures(store, ink, kinds, out))
}

// The twelve numbers of `summarize`.
#[unsafe(no_mangle)]
pub extern "C" fn novlizeb_read_summary(
    store: &[u32],
    ink: &[u8],
    kinds: &[u8],
    out: &mut [f64],
) -> u32
    ensures { told result 0 (floats out.new) ≡ result_told (ResultReading.summary out.old) store.now ink.now kinds.now }
{
    number_of(store::read_summary(store, ink, kinds, out))
}

// The lines, box, glyphs, ink, glyph height, block: how many, and their words.
#[unsafe(no_mangle)]
pub extern "C" fn novlizeb_read_lines(
    store: &[u32],
    ink: &[u8],
    kinds: &[u8],
    out: &mut [u32],
) -> u64
    ensures { (result ≡ told_word (result_told (ResultReading.list Which.lines out.old) store.now ink.now kinds.now)) × (words out.new ≡ (result_told (ResultReading.list Which.lines out.old) store.now ink.now kinds.now).output) }
{
    word_of(store::read_lines(store, ink, kinds, out))
}

// The blocks, box, line count: how many, and their words.
#[unsafe(no_mangle)]
pub extern "C" fn novlizeb_read_blocks(
    store: &[u32],
    ink: &[u8],
    kinds: &[u8],
    out: &mut [u32],
) -> u64
    ensures { (result ≡ told_word (result_told (ResultReading.list Which.blocks out.old) store.now ink.now kinds.now)) × (words out.new ≡ (result_told (ResultReading.list Which.blocks out.old) store.now ink.now kinds.now).output) }
{
    word_of(store::read_blocks(store, ink, kinds, out))
}

// The rules, box: how many, and their words.
#[unsafe(no_mangle)]
pub extern "C" fn novlizeb_read_rules(
    store: &[u32],
    ink: &[u8],
    kinds: &[u8],
    out: &mut [u32],
) -> u64
    ensures { (result ≡ told_word (result_told (ResultReading.list Which.rules out.old) store.now ink.now kinds.now)) × (words out.new ≡ (result_told (ResultReading.list Which.rules out.old) store.now ink.now kinds.now).output) }
{
    word_of(store::read_rules(store, ink, kinds, out))
}

// The graphics, box: how many, and their words.
#[unsafe(no_mangle)]
pub extern "C" fn novlizeb_read_graphics(
    store: &[u32],
    ink: &[u8],
    kinds: &[u8],
    out: &mut [u32],
) -> u64
    ensures { (result ≡ told_word (result_told (ResultReading.list Which.graphics out.old) store.now ink.now kinds.now)) × (words out.new ≡ (result_told (ResultReading.list Which.graphics out.old) store.now ink.now kinds.now).output) }
{
    word_of(store::read_graphics(store, ink, kinds, out))
}

// The glyphs, box, area, line: how many, and their words.
#[unsafe(no_mangle)]
pub extern "C" fn novlizeb_read_glyphs(
    store: &[u32],
    ink: &[u8],
    kinds: &[u8],
    out: &mut [u32],
) -> u64
    ensures { (result ≡ told_word (result_told (ResultReading.list Which.glyphs out.old) store.now ink.now kinds.now)) × (words out.new ≡ (result_told (ResultReading.list Which.glyphs out.old) store.now ink.now kinds.now).output) }
{
    word_of(store::read_glyphs(store, ink, kinds, out))
}

// The columns, both ends: how many, and their words.
#[unsafe(no_mangle)]
pub extern "C" fn novlizeb_read_columns(
    store: &[u32],
    ink: &[u8],
    kinds: &[u8],
    out: &mut [u32],
) -> u64
    ensures { (result ≡ told_word (result_told (ResultReading.list Which.columns out.old) store.now ink.now kinds.now)) × (words out.new ≡ (result_told (ResultReading.list Which.columns out.old) store.now ink.now kinds.now).output) }
{
    word_of(store::read_columns(store, ink, kinds, out))
}

// The measure of twenty lines.
#[unsafe(no_mangle)]
pub extern "C" fn novlizeb_twenty_line_measure(store: &[u32], ink: &[u8], kinds: &[u8]) -> u64
    ensures { result ≡ told_word (result_told ResultReading.twenty_lines store.now ink.now kinds.now) }
{
    word_of(store::twenty_line_measure(store, ink, kinds))
}

// How many page dots of one kind have their frame place in a box.
#[unsafe(no_mangle)]
pub extern "C" fn novlizeb_count_dots(
    store: &[u32],
    ink: &[u8],
    kinds: &[u8],
    kind: u32,
    x0: u32,
    y0: u32,
    x1: u32,
    y1: u32,
) -> u64
    ensures { result ≡ told_word (result_told (ResultReading.count_dots kind (rect_of x0 y0 x1 y1)) store.now ink.now kinds.now) }
{
    word_of(store::count_dots(store, ink, kinds, kind, Rect { x0, y0, x1, y1 }))
}

// These dots: how many, and page column and page row of each.
#[unsafe(no_mangle)]
pub extern "C" fn novlizeb_read_dots(
    store: &[u32],
    ink: &[u8],
    kinds: &[u8],
    kind: u32,
    x0: u32,
    y0: u32,
    x1: u32,
    y1: u32,
    out: &mut [u32],
) -> u64
    ensures { (result ≡ told_word (result_told (ResultReading.dots kind (rect_of x0 y0 x1 y1) out.old) store.now ink.now kinds.now)) × (words out.new ≡ (result_told (ResultReading.dots kind (rect_of x0 y0 x1 y1) out.old) store.now ink.now kinds.now).output) }
{
    word_of(store::read_dots(store, ink, kinds, kind, Rect { x0, y0, x1, y1 }, out))
}

// The printed sheet: how many bytes, and these.
#[unsafe(no_mangle)]
pub extern "C" fn novlizeb_write_sheet(
    store: &[u32],
    ink: &[u8],
    kinds: &[u8],
    out: &mut [u8],
) -> u64
    ensures { (result ≡ told_word (result_told (ResultReading.listing out.old) store.now ink.now kinds.now)) × (words out.new ≡ (result_told (ResultReading.listing out.old) store.now ink.now kinds.now).output) }
{
    word_of(store::write_sheet(store, ink, kinds, out))
}
