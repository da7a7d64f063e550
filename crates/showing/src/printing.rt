// What the show program prints.
ghost use Rattle.std.specs.Prelude.{◌≡◌, ◌≤◌, length};
ghost use Rattle.params.specs.rules.ShowSheets.{show_sheet};
ghost use Rattle.listing.specs.rules.Digits.{refusal_text};
ghost use Rattle.memory.specs.rules.Refusals.{answer_number, answer_value};
ghost use Rattle.store.specs.rules.Readings.Output.{words};
ghost use Rattle.store.specs.rules.Outcomes.{told, left, level_left, segment_left};
ghost use Rattle.showing.specs.rules.Inputs.{max_shown_side};
ghost use Rattle.showing.specs.rules.Shows.{leaf_text, shown_to};
ghost use Rattle.showing.specs.stages.Pages.{page_shown};
ghost use Rattle.showing.specs.stages.Rooms.{ShownRoom};
ghost use Rattle.showing.specs.stages.Texts.{text_told};

use crate::input::{Page, parse_page};
use listing::put_refusal;
use memory::{Refusal, from_bits};
use params::LayoutParams;
use store::{Handed, level, segment, write_sheet};

// The most dots of a page and of its frame: a page of 16 by 16 under a slope of 1 is moved into 46 by 31.
const PAGE_DOTS: usize = 256;

const FRAME_DOTS: usize = 1426;

// The capacity, and the words that the store and scratch need for it.
const CAPACITY: u32 = 64;

const STORE: usize = 2763;

const SCRATCH: usize = 6792;

// The bytes of a refusal.
const REFUSAL: usize = 5;

// The show program's sheet.
fn show_sheet() -> LayoutParams
    ensures { result ≡ show_sheet }
{
    LayoutParams {
        glyph_min_area: 1,
        glyph_max_extent_frac: 1.0,
        xheight_min_area: 1,
        xheight_fallback_px: 1.0,
        rule_min_len_xh: 4.0,
        rule_max_thick_xh: 0.5,
        rule_run_xh: 4.0,
        graphic_min_xh: 8.0,
        smear_xh: 1.0,
        line_min_glyphs: 1,
        line_min_height_xh: 0.5,
        line_max_height_xh: 3.0,
        block_min_overlap: 0.5,
        block_gap_margin_lines: 0.5,
        block_max_gap_lines: 3.0,
        column_gap_xh: 1.0,
        column_cover_frac: 0.0,
        shear_min_deg: 0.0,
    }
}

// The line of a refusal over the front of the bytes lent.
fn tell_refusal(number: u32, out: &mut [u8]) -> Result<u32, Refusal>
    ensures { told (answer_number result) (answer_value result) (words out.new) ≡ text_told (refusal_text number) out.old }
{
    if out.len() < REFUSAL {
        return Err(Refusal::Lent);
    }
    put_refusal(out, number);
    Ok(REFUSAL as u32)
}

// The page levelled into the store and the ink plane.
fn level_page(mask: &[u8], page: Page, store: &mut [u32], ink: &mut [u8]) -> Result<(), Refusal>
    ensures { left (answer_number result) store.new ink.new ≡ level_left (page_shown mask.now page.width page.height page.skew page.slope) store.old ink.old }
{
    let sheet = show_sheet();
    let handed = Handed {
        width: page.width,
        height: page.height,
        skew: from_bits(page.skew),
        slope: from_bits(page.slope),
        capacity: CAPACITY,
    };
    level(mask, handed, sheet, store, ink)
}

// The page in the store segmented.
fn segment_page(
    store: &mut [u32],
    ink: &[u8],
    kinds: &mut [u8],
    scratch: &mut [u32],
) -> Result<(), Refusal>
    ensures { left (answer_number result) store.new kinds.new ≡ segment_left show_sheet store.old ink.now kinds.old (length scratch.old) }
{
    let sheet = show_sheet();
    segment(sheet, store, ink, kinds, scratch)
}

// A page levelled, segmented and printed, in memory that is long enough for it.
fn show_leaf(
    mask: &[u8],
    page: Page,
    store: &mut [u32],
    ink: &mut [u8],
    kinds: &mut [u8],
    scratch: &mut [u32],
    out: &mut [u8],
) -> Result<u32, Refusal>
    requires small { (page.width ≤ max_shown_side) × (page.height ≤ max_shown_side) }
    requires room { ShownRoom store.old ink.old kinds.old scratch.old }
    ensures { told (answer_number result) (answer_value result) (words out.new) ≡ text_told (leaf_text (page_shown mask.now page.width page.height page.skew page.slope)) out.old }
{
    if let Err(refused) = level_page(mask, page, store, ink) {
        return tell_refusal(u32::from(refused), out);
    }
    if let Err(crowded) = segment_page(store, ink, kinds, scratch) {
        return tell_refusal(u32::from(crowded), out);
    }
    write_sheet(store, ink, kinds, out)
}

// The same in memory of its own, empty at first.
fn show_page(mask: &[u8], page: Page, out: &mut [u8]) -> Result<u32, Refusal>
    requires { (page.width ≤ max_shown_side) × (page.height ≤ max_shown_side) }
    ensures { told (answer_number result) (answer_value result) (words out.new) ≡ text_told (leaf_text (page_shown mask.now page.width page.height page.skew page.slope)) out.old }
{
    let mut store = [0u32; STORE];
    let mut ink = [0u8; FRAME_DOTS];
    let mut kinds = [0u8; FRAME_DOTS];
    let mut scratch = [0u32; SCRATCH];
    show_leaf(
        mask,
        page,
        &mut store,
        &mut ink,
        &mut kinds,
        &mut scratch,
        out,
    )
}

// What is printed for an input, over the front of the bytes lent: how many bytes they are, or 9 where fewer are lent.
pub fn show(input: &[u8], out: &mut [u8]) -> Result<u32, Refusal>
    ensures { told (answer_number result) (answer_value result) (words out.new) ≡ shown_to input.now out.old }
{
    let mut mask = [0u8; PAGE_DOTS];
    match parse_page(input, &mut mask) {
        None => tell_refusal(0, out),
        Some(page) => {
            let dots = (page.width as usize) * (page.height as usize);
            show_page(&mask[..dots], page, out)
        }
    }
}
