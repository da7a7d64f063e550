// Whether the words of results and the two planes are spoiled: loops over records that gather one flag.
ghost use Rattle.std.specs.Prelude.{ℕ, Bool, cond, not, ◌&&◌, ◌||◌, ◌≡◌, ◌+◌, ◌*◌, ◌≤◌, ◌<◌, eqb, ltb, leb, length, take};
ghost use Rattle.std.specs.Float.Ieee.{lt, le};
ghost use Rattle.std.specs.Float.Ieee.Scale.{finite};
ghost use Rattle.memory.specs.rules.Limits.{max_page_side, max_frame_width, max_frame_height, max_capacity, max_lines, no_line, store_words};
ghost use Rattle.params.specs.rules.Valid.{float_one, length_ok};
ghost use Rattle.memory.specs.rules.Masks.{is_mask};
ghost use Rattle.segmenting.specs.rules.Figures.{figures_length};
ghost use Rattle.segmenting.specs.rules.Results.{result_words};
ghost use Rattle.judging.specs.stages.Judged.{lists_ok, words_ok};
ghost use Rattle.judging.specs.rules.Header.{part, figures_at, lists_at};
ghost use Rattle.judging.specs.rules.Spoiled.{every, box_ok, boxes_ok, fields_ok, kind_ok, kinds_ok};

use crate::judging::lists_at;
use crate::words::{
    BLOCK_LINES, BLOCKS, COLUMNS, FIGURES, GLYPH_HEIGHT, GLYPH_LINE, GLYPHS, GRAPHICS, LINE_BLOCK,
    LINES, RULES, UNIT,
};
use grouping::BLOCK_WORDS;
use memory::{MAX_LINES, NO_LINE, float_at};
use segmenting::{BOX_WORDS, result_places};
use smoothing::{GLYPH_WORDS, LINE_WORDS};

// Whether the four words from p on are a box inside a frame.
fn box_ok(words: &[u32], p: usize, w: u32, h: u32) -> bool
    requires { p + 4 ≤ length words.now }
    ensures { result ≡ box_ok w h words.now p }
{
    let x0 = words[p];
    let y0 = words[p + 1];
    let x1 = words[p + 2];
    let y1 = words[p + 3];
    (x0 <= x1) & (x1 < w) & (y0 <= y1) & (y1 < h)
}

// Where the records of a list stand: the place of the first, the words of each, how many there are.
#[derive(Clone, Copy, Debug, PartialEq, Eq)]
struct Records {
    at: usize,
    width: usize,
    n: u32,
}

// Whether each record passes the test, which is told its first word. All are tested, so that the loop has no branch.
fn each_ok<F: Fn(usize) -> bool>(r: Records, test: F) -> bool
    requires { (r.at + r.n * r.width ≤ 9223372036854775807) × ((p : ℕ → Bool) × ((i : ℕ) → i < r.n → F.pre test (r.at + i * r.width) × ((b : Bool) → F.post test (r.at + i * r.width) b → b ≡ p i))) }
    ensures { (p : ℕ → Bool) → ((i : ℕ) (b : Bool) → i < r.n → F.post test (r.at + i * r.width) b → b ≡ p i) → result ≡ every p r.n }
{
    let mut ok = true;
    for i in 0..r.n {
        ok = ok & test(r.at + (i as usize) * r.width);
    }
    ok
}

// Whether the records begin with a box inside a frame.
fn boxes_ok(words: &[u32], r: Records, w: u32, h: u32) -> bool
    requires { (r.at + r.n * r.width ≤ length words.now) × (4 ≤ r.width) }
    ensures { result ≡ boxes_ok w h r.width (part r.at (r.n * r.width) words.now) r.n }
{
    each_ok(r, |p| box_ok(words, p, w, h))
}

// Whether word `field` of each of them is below a limit.
fn fields_below(words: &[u32], r: Records, field: usize, limit: u32) -> bool
    requires { (r.at + r.n * r.width ≤ length words.now) × (field < r.width) }
    ensures { result ≡ fields_ok (λ v. ltb v limit) r.width field (part r.at (r.n * r.width) words.now) r.n }
{
    each_ok(r, |p| words[p + field] < limit)
}

// Whether it is the mark of no line or below a limit.
fn fields_marked(words: &[u32], r: Records, field: usize, limit: u32) -> bool
    requires { (r.at + r.n * r.width ≤ length words.now) × (field < r.width) }
    ensures { result ≡ fields_ok (λ v. eqb v no_line || ltb v limit) r.width field (part r.at (r.n * r.width) words.now) r.n }
{
    each_ok(
        r,
        |p| (words[p + field] == NO_LINE) | (words[p + field] < limit),
    )
}

// Whether a dot's ink is 0 or 1 and its kind is right for it.
fn dot_ok(ink: u8, kind: u8) -> bool
    ensures { result ≡ (leb ink 1 && kind_ok ink kind) }
{
    (ink <= 1) & ((kind <= 5) & ((kind == 0) == (ink == 0)))
}

// The first n dots of both planes.
pub fn planes_ok(ink: &[u8], kinds: &[u8], n: usize) -> bool
    requires { (n ≤ length ink.now) × (n ≤ length kinds.now) }
    ensures { result ≡ (is_mask (take n ink.now) && kinds_ok (take n ink.now) (take n kinds.now) n) }
{
    let mut ok = true;
    for i in 0..n {
        let right = dot_ok(ink[i], kinds[i]);
        ok = ok & right;
    }
    ok
}

// Neither infinite nor a NaN.
fn is_finite(v: f64) -> bool
    ensures { result ≡ finite v }
{
    (v > -1.0 / 0.0) & (v < 1.0 / 0.0)
}

// Whether a unit may stand, by its case.
fn unit_ok(case: u32, x: f64) -> bool
    ensures { result ≡ cond (eqb case 0) (length_ok x && not (lt x float_one)) (finite x && le float_one x) }
{
    let real = is_finite(x);
    if case == 0 {
        !(!real | (x < 0.0) | (x > 1.0e4)) & !(x < 1.0)
    } else {
        real & (1.0 <= x)
    }
}

// How many records each list has.
#[derive(Clone, Copy, Debug, PartialEq, Eq)]
struct ListCounts {
    rules: u32,
    graphics: u32,
    glyphs: u32,
    lines: u32,
    blocks: u32,
    columns: u32,
}

// How many records each list may have.
fn counts_ok(n: ListCounts, w: u32, capacity: u32) -> bool
    requires { capacity ≤ max_capacity }
    ensures { result ≡ (leb n.rules (3 * capacity) && leb n.graphics capacity && leb n.glyphs capacity && leb n.lines capacity && leb n.lines max_lines && leb n.blocks capacity && leb n.columns w) }
{
    (n.rules <= 3 * capacity)
        & (n.graphics <= capacity)
        & (n.glyphs <= capacity)
        & (n.lines <= capacity)
        & (n.lines <= MAX_LINES)
        & (n.blocks <= capacity)
        & (n.columns <= w)
}

// The words of lists whose counts are right: a line's glyph height, a block's line count, boxes, line and block numbers.
fn lists_ok(store: &[u32], at: usize, w: u32, h: u32, capacity: u32, n: ListCounts) -> bool
    requires room { (at + result_words w capacity ≤ length store.now) × (at ≤ lists_at max_page_side max_frame_height) × (w ≤ max_frame_width) × (h ≤ max_frame_height) × (capacity ≤ max_capacity) }
    requires counts { (n.rules ≤ 3 * capacity) × (n.graphics ≤ capacity) × (n.glyphs ≤ capacity) × (n.lines ≤ capacity) × (n.blocks ≤ capacity) }
    ensures { result ≡ lists_ok w h store.now at capacity n.rules n.graphics n.glyphs n.lines n.blocks }
{
    let places = result_places(w as usize, capacity as usize);
    let rules = Records {
        at: at + places.rules,
        width: BOX_WORDS,
        n: n.rules,
    };
    let graphics = Records {
        at: at + places.graphics,
        width: BOX_WORDS,
        n: n.graphics,
    };
    let glyphs = Records {
        at: at + places.glyphs,
        width: GLYPH_WORDS,
        n: n.glyphs,
    };
    let lines = Records {
        at: at + places.lines,
        width: LINE_WORDS,
        n: n.lines,
    };
    let blocks = Records {
        at: at + places.blocks,
        width: BLOCK_WORDS,
        n: n.blocks,
    };
    let a = fields_below(store, lines, GLYPH_HEIGHT, h + 1);
    let b = fields_below(store, blocks, BLOCK_LINES, n.lines + 1);
    let c = boxes_ok(store, rules, w, h);
    let d = boxes_ok(store, graphics, w, h);
    let e = boxes_ok(store, glyphs, w, h);
    let f = boxes_ok(store, lines, w, h);
    let g = boxes_ok(store, blocks, w, h);
    let i = fields_marked(store, glyphs, GLYPH_LINE, n.lines);
    let j = fields_below(store, lines, LINE_BLOCK, n.blocks);
    a & b & c & d & e & f & g & i & j
}

// The figures and the words of the lists: unit, counts, then all that the counts name.
pub fn words_ok(store: &[u32], page_w: u32, w: u32, h: u32, capacity: u32) -> bool
    requires { (page_w ≤ max_page_side) × (w ≤ max_frame_width) × (h ≤ max_frame_height) × (capacity ≤ max_capacity) × (store_words page_w w h capacity ≤ length store.now) }
    ensures { result ≡ words_ok w h capacity (part figures_at figures_length store.now) (lists_at page_w h) store.now }
{
    let rules = store[RULES];
    let graphics = store[GRAPHICS];
    let glyphs = store[GLYPHS];
    let lines = store[LINES];
    let blocks = store[BLOCKS];
    let columns = store[COLUMNS];
    let n = ListCounts {
        rules,
        graphics,
        glyphs,
        lines,
        blocks,
        columns,
    };
    let x = float_at(store, UNIT);
    let unit = unit_ok(store[FIGURES], x);
    let few = counts_ok(n, w, capacity);
    if !(unit & few) {
        return false;
    }
    let at = lists_at(page_w, h);
    lists_ok(store, at, w, h, capacity, n)
}
