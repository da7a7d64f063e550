// Thin rulings, the dots and the cuts of an ink plane, and the kind of a component by its size.
ghost use Rattle.std.specs.Prelude.{◌≡◌, true, [], ◌∷◌, ◌*◌, ◌-◌, ◌≤◌, length, ltb, drop};
ghost use Rattle.memory.specs.rules.Limits.{max_frame_width, max_frame_height, scratch_words};
ghost use Rattle.memory.specs.rules.Refusals.{refuse_if, answer_number};
ghost use Rattle.memory.specs.rules.Masks.{is_mask_side};
ghost use Rattle.memory.specs.rules.Words.{over};
ghost use Rattle.params.specs.rules.Valid.{float_zero};
ghost use Rattle.sorting.specs.rules.Kinds.{kind_by_size};
ghost use Rattle.rulings.specs.rules.Rulings.{run_min, thick_max};
ghost use Rattle.stages.specs.rules.Frames.{room_refusal, told};
ghost use Rattle.stages.specs.rules.Sorting.{rulings_fit, RulingsTold, cut_rulings, unit_for, size_sheet};

use crate::frames::{judge_frame, judge_room};
use crate::sheets::BLANK_SHEET;
use memory::{MAX_MASK_DOTS, MAX_MASK_SIDE, Refusal, area, number_of, scratch_words};
use params::LayoutParams;
use sorting::{Cuts, Unit, label_rulings};

fn is_mask_side(n: u32) -> bool
    ensures { result ≡ is_mask_side n }
{
    (0 < n) & (n <= MAX_MASK_SIDE)
}

fn rulings_fit(
    mask: usize,
    width: u32,
    height: u32,
    run_min: u32,
    marks: usize,
    counters: usize,
) -> bool
    ensures { result ≡ rulings_fit mask width height run_min marks counters }
{
    let w = width as usize;
    let h = height as usize;
    let dots = area(width, height);
    is_mask_side(width)
        & is_mask_side(height)
        & (dots <= MAX_MASK_DOTS)
        & (mask == dots)
        & (dots <= marks)
        & (2 <= run_min)
        & (w + w <= counters)
        & (h + h <= counters)
}

// How many words lie from word `marks` on.
fn words_behind(words: usize, marks: usize) -> usize
    ensures { result ≡ words - marks }
{
    if marks <= words { words - marks } else { 0 }
}

// The dots of thin rulings, a word a dot from word `marks` on: 1 in a horizontal one, 2 in a vertical one, 3 in
// both; the words before are worked in. False, and nothing written, where something is outside its limits or too short.
pub fn novlizeb_thin_rulings(
    ink: &[u8],
    width: u32,
    height: u32,
    run_min: u32,
    thick_max: u32,
    words: &mut [u32],
    marks: u32,
) -> bool
    ensures { RulingsTold (rulings_fit (length ink.now) width height run_min (length words.old - marks) marks) run_min thick_max width height marks ink.now words.old result words.new }
{
    let from = marks as usize;
    let behind = words_behind(words.len(), from);
    if !rulings_fit(ink.len(), width, height, run_min, behind, from) {
        return false;
    }
    rulings::mark_rulings(ink, width, height, run_min, thick_max, words, from);
    true
}

// Both counts over the front of the words lent for them.
fn write_counts(cuts: Cuts, counts: &mut [u32])
    requires { (2 ≤ length counts.old) × (cuts.horizontal ≤ 4294967295) × (cuts.vertical ≤ 4294967295) }
    ensures { counts.new ≡ over (cuts.horizontal ∷ cuts.vertical ∷ []) counts.old }
{
    counts[0] = cuts.horizontal as u32;
    counts[1] = cuts.vertical as u32;
}

// Whether the capacity and the memory lent are as they must be.
#[tactic(auto, unfolding(crate::specs::rules::Frames::room_refusal, memory::specs::rules::Refusals::refuse_if))]
fn judge_cuts(dots: usize, capacity: usize, words: usize, counts: usize) -> Result<(), Refusal>
    requires { (dots ≤ max_frame_width * max_frame_height) × (capacity ≤ 4294967295) }
    ensures { answer_number result ≡ room_refusal dots capacity words (refuse_if (ltb counts 2) 9 0) }
{
    judge_room(dots, capacity, words)?;
    if counts < 2 {
        return Err(Refusal::Lent);
    }
    Ok(())
}

// The cuts; what can refuse them is judged before anything is written, but for too many components.
fn cut_plane(
    ink: &[u8],
    width: u32,
    height: u32,
    run_min: u32,
    thick_max: u32,
    capacity: u32,
    words: &mut [u32],
    counts: &mut [u32],
) -> Result<(), Refusal>
    ensures { told (answer_number result) counts.new (length words.new) (drop (scratch_words (width * height) capacity) words.new) ≡ cut_rulings run_min thick_max width height ink.now capacity words.old counts.old }
{
    judge_frame(width, height, ink.len())?;
    let dots = (width as usize) * (height as usize);
    let p = capacity as usize;
    judge_cuts(dots, p, words.len(), counts.len())?;
    let need = scratch_words(dots, capacity);
    let run = run_min.max(2);
    let Some(cuts) = label_rulings(ink, width, height, run, thick_max, p, &mut words[..need]) else {
        return Err(Refusal::TooManyComponents);
    };
    write_counts(cuts, counts);
    Ok(())
}

// The thin rulings of an ink plane, cut and labelled: counts then holds how many components the horizontal cut mask has, and the
// vertical one. Any byte but 0 is ink, and a least run below 2 counts as 2. The words are worked in. The answer is 0, or document
// 01's number of a refusal, as C has it; a refused call writes nothing but scratch, and that only with 20.
pub fn novlizeb_cut_rulings(
    ink: &[u8],
    width: u32,
    height: u32,
    run_min: u32,
    thick_max: u32,
    capacity: u32,
    words: &mut [u32],
    counts: &mut [u32],
) -> u32
    ensures { told result counts.new (length words.new) (drop (scratch_words (width * height) capacity) words.new) ≡ cut_rulings run_min thick_max width height ink.now capacity words.old counts.old }
{
    number_of(cut_plane(
        ink, width, height, run_min, thick_max, capacity, words, counts,
    ))
}

fn unit_for(measured: bool, value: f64) -> Unit
    ensures { result ≡ unit_for measured value }
{
    if measured {
        Unit::Measured(value)
    } else {
        Unit::Assumed(value)
    }
}

// The least run of a thin ruling, in dots.
pub fn novlizeb_run_min(rule_run_xh: f64, unit: f64) -> u32
    ensures { result ≡ run_min (size_sheet 0 float_zero float_zero float_zero rule_run_xh float_zero) unit }
{
    let sheet = LayoutParams {
        rule_run_xh,
        ..BLANK_SHEET
    };
    rulings::run_min(sheet, unit)
}

// Its greatest thickness.
pub fn novlizeb_thick_max(rule_max_thick_xh: f64, unit: f64) -> u32
    ensures { result ≡ thick_max (size_sheet 0 float_zero float_zero rule_max_thick_xh float_zero float_zero) unit }
{
    let sheet = LayoutParams {
        rule_max_thick_xh,
        ..BLANK_SHEET
    };
    rulings::thick_max(sheet, unit)
}

// The kind of a component of this area, width and height, in a frame w wide and h high: 2 rule, 3
// graphic, 4 glyph, 5 speck. `value` is the unit, which does not show whether it was measured.
pub fn novlizeb_kind_by_size(
    glyph_min_area: u32,
    glyph_max_extent_frac: f64,
    rule_min_len_xh: f64,
    rule_max_thick_xh: f64,
    graphic_min_xh: f64,
    measured: bool,
    value: f64,
    w: u32,
    h: u32,
    area: u32,
    width: u32,
    height: u32,
) -> u32
    ensures { result ≡ kind_by_size (size_sheet glyph_min_area glyph_max_extent_frac rule_min_len_xh rule_max_thick_xh float_zero graphic_min_xh) value w h area width height }
{
    let sheet = LayoutParams {
        glyph_min_area,
        glyph_max_extent_frac,
        rule_min_len_xh,
        rule_max_thick_xh,
        graphic_min_xh,
        ..BLANK_SHEET
    };
    let unit = unit_for(measured, value);
    sorting::kind_by_size(sheet, unit, w, h, area, width, height)
}
