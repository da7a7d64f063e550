// The whole sheet from the words that tell of a segmentation.
ghost use Rattle.std.specs.Prelude.{◌≡◌, ◌+◌, ◌*◌, ◌<◌, ◌≤◌, length};
ghost use Rattle.memory.specs.rules.Words.{word_at, over};
ghost use Rattle.segmenting.specs.rules.Figures.{figures_length};
ghost use Rattle.listing.specs.rules.Pages.{edition};
ghost use Rattle.listing.specs.rules.Sheets.{head_text};
ghost use Rattle.listing.specs.stages.Parts.{entry_length, sheet_length};
ghost use Rattle.listing.specs.stages.Puts.{Put};
ghost use Rattle.listing.specs.stages.Lists.{ListsIn, sheet_in};

use crate::entries::{entries_at, put_entry, put_three_kinds};
use crate::formats::entry_length;
use segmenting::ResultPlaces;

// The edition that is printed.
const EDITION: u32 = 1;

// The places of the figures: the unit, low word first, how long each list is, the dots of ink and of each kind.
const UNIT_LOW: usize = 1;

const UNIT_HIGH: usize = 2;

const RULES: usize = 3;

const GRAPHICS: usize = 4;

const GLYPHS: usize = 5;

const LINES: usize = 6;

const BLOCKS: usize = 7;

const COLUMNS: usize = 8;

const DOTS: usize = 9;

// The bytes of the entries of a kind, as many as the figure at k says.
fn entries_length(figures: &[u32], k: usize, kind: usize) -> usize
    requires { (k < length figures.now) × (kind < 8) }
    ensures { (result ≡ word_at figures.now k * entry_length kind) × (result < 1099511627776) }
{
    figures[k] as usize * entry_length(kind)
}

// How long the sheet is, before it is written.
pub fn sheet_length(figures: &[u32]) -> usize
    requires { figures_length ≤ length figures.now }
    ensures { result ≡ sheet_length figures.now }
{
    entry_length(0)
        + entries_length(figures, LINES, 1)
        + entries_length(figures, BLOCKS, 2)
        + entries_length(figures, RULES, 3)
        + entries_length(figures, GRAPHICS, 4)
        + entries_length(figures, GLYPHS, 5)
        + entries_length(figures, COLUMNS, 6)
        + entry_length(7)
}

// The sides of a frame and of its page.
#[derive(Clone, Copy, Debug, PartialEq, Eq)]
pub struct SheetSides {
    pub w: u32,
    pub h: u32,
    pub page_w: u32,
    pub page_h: u32,
}

// The head.
fn put_head(out: &mut [u8], sides: SheetSides, figures: &[u32]) -> usize
    requires { (figures_length ≤ length figures.now) × (entry_length 0 ≤ length out.old) }
    ensures { Put out.old 0 (head_text edition sides.w sides.h sides.page_w sides.page_h figures.now) result out.new }
{
    let low = figures[UNIT_LOW];
    let high = figures[UNIT_HIGH];
    let head = [
        EDITION,
        sides.w,
        sides.h,
        sides.page_w,
        sides.page_h,
        high,
        low,
    ];
    put_entry(out, 0, 0, &head, 0)
}

// Writes the sheet over the front; its length. The lists stand in the words at their places.
pub fn write_sheet_text(
    out: &mut [u8],
    sides: SheetSides,
    figures: &[u32],
    words: &[u32],
    places: ResultPlaces,
) -> usize
    requires { ListsIn figures.now places (length words.now) × (sheet_length figures.now ≤ length out.old) }
    ensures { (result ≡ sheet_length figures.now) × (out.new ≡ over (sheet_in sides figures.now words.now places) out.old) }
{
    let lines = entries_at(words, places.lines, 1, figures[LINES]);
    let blocks = entries_at(words, places.blocks, 2, figures[BLOCKS]);
    let rules = entries_at(words, places.rules, 3, figures[RULES]);
    let graphics = entries_at(words, places.graphics, 4, figures[GRAPHICS]);
    let glyphs = entries_at(words, places.glyphs, 5, figures[GLYPHS]);
    let columns = entries_at(words, places.columns, 6, figures[COLUMNS]);
    let p = put_head(out, sides, figures);
    let q = put_three_kinds(out, p, 1, lines, blocks, rules);
    let r = put_three_kinds(out, q, 4, graphics, glyphs, columns);
    put_entry(out, r, 7, figures, DOTS)
}
