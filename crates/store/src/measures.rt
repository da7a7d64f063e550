// The twenty-line measure and the summary out of a store.
ghost use Rattle.std.specs.Prelude.{◌≡◌, ◌*◌, ◌≤◌, length, get_or};
ghost use Rattle.grouping.specs.rules.Readings.{summary_numbers};
ghost use Rattle.store.specs.stages.Areas.{LinesAt, summary_words};
ghost use Rattle.store.specs.rules.Readings.{ResultReading, filled};
ghost use Rattle.store.specs.rules.Readings.Output.{none, floats};
ghost use Rattle.store.specs.rules.Outcomes.{told, result_told};
ghost use Rattle.memory.specs.rules.Refusals.{answer_number, answer_value};

use crate::medians::{height_read, pitch_read, twenty_read};
use grouping::{Summary, Totals};
use judging::{
    BLOCKS, COLUMNS, FRAME_HEIGHT, FRAME_WIDTH, GLYPH_DOTS, GLYPHS, GRAPHICS, INK_DOTS, LINES,
    RULES, SKEW, UNIT, judge_reading,
};
use memory::{Refusal, float_at};

// How many numbers `summarize` gives.
const SUMMARY_LENGTH: usize = 12;

// The twenty-line measure: ten times the median pitch, 0 without any.
pub fn twenty_line_measure(store: &[u32], ink: &[u8], kinds: &[u8]) -> Result<u32, Refusal>
    ensures { told (answer_number result) (answer_value result) none ≡ result_told ResultReading.twenty_lines store.now ink.now kinds.now }
{
    judge_reading(store, ink, kinds, false)?;
    Ok(twenty_read(store))
}

// The summary of what the words say.
fn summary_of(store: &[u32]) -> Summary
    requires lines { LinesAt store.now }
    requires dots { get_or store.now 3 0 * get_or store.now 4 0 ≤ 4294967295 }
    ensures { result ≡ summary_words store.now }
{
    let pitch = pitch_read(store);
    let height = height_read(store);
    let unit = float_at(store, UNIT);
    let skew = float_at(store, SKEW);
    let totals = Totals {
        glyphs: store[GLYPHS],
        lines: store[LINES],
        blocks: store[BLOCKS],
        columns: store[COLUMNS],
        rules: store[RULES],
        graphics: store[GRAPHICS],
        glyph_ink: store[GLYPH_DOTS],
        ink: store[INK_DOTS],
    };
    grouping::summarize(
        unit,
        skew,
        store[FRAME_WIDTH],
        store[FRAME_HEIGHT],
        totals,
        pitch,
        height,
    )
}

// Its numbers over the front of the floats lent.
fn put_summary(s: Summary, out: &mut [f64])
    requires { 12 ≤ length out.old }
    ensures { out.new ≡ filled (summary_numbers s) out.old }
{
    out[0] = s.xheight_px;
    out[1] = s.skew_deg_applied;
    out[2] = s.glyphs;
    out[3] = s.lines;
    out[4] = s.blocks;
    out[5] = s.columns;
    out[6] = s.rules;
    out[7] = s.graphics;
    out[8] = s.glyph_ink_fraction;
    out[9] = s.text_share_of_ink;
    out[10] = s.median_line_pitch_xh;
    out[11] = s.median_glyph_height_xh;
}

// Reads the summary: the refusal, or twelve numbers.
pub fn read_summary(store: &[u32], ink: &[u8], kinds: &[u8], out: &mut [f64]) -> Result<(), Refusal>
    ensures { told (answer_number result) 0 (floats out.new) ≡ result_told (ResultReading.summary out.old) store.now ink.now kinds.now }
{
    judge_reading(store, ink, kinds, out.len() < SUMMARY_LENGTH)?;
    put_summary(summary_of(store), out);
    Ok(())
}
