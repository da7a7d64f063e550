// The figures of a segmentation, out of a store.
ghost use Rattle.std.specs.Prelude.{◌≡◌, ◌≤◌, length};
ghost use Rattle.memory.specs.rules.Words.{over};
ghost use Rattle.segmenting.specs.rules.Figures.{figures_length};
ghost use Rattle.judging.specs.rules.Header.{header_words, part, figures_at};
ghost use Rattle.store.specs.rules.Readings.{figures_told, ResultReading};
ghost use Rattle.store.specs.rules.Readings.Output.{words};
ghost use Rattle.store.specs.rules.Outcomes.{told, result_told};
ghost use Rattle.memory.specs.rules.Refusals.{answer_number};

use judging::{FIGURES, FIGURES_END, FIGURES_LENGTH, judge_reading};
use memory::{Refusal, copy_over};

// The words 10 to 24 over the front of the words lent, the first as 0 or 1.
fn put_figures(store: &[u32], out: &mut [u32])
    requires { (header_words ≤ length store.now) × (figures_length ≤ length out.old) }
    ensures { out.new ≡ over (figures_told (part figures_at figures_length store.now)) out.old }
{
    copy_over(out, &store[FIGURES..FIGURES_END]);
    if store[FIGURES] != 0 {
        out[0] = 1;
    }
}

// Reads the figures: the refusal, or fifteen words.
pub fn read_figures(store: &[u32], ink: &[u8], kinds: &[u8], out: &mut [u32]) -> Result<(), Refusal>
    ensures { told (answer_number result) 0 (words out.new) ≡ result_told (ResultReading.figures out.old) store.now ink.now kinds.now }
{
    judge_reading(store, ink, kinds, out.len() < FIGURES_LENGTH)?;
    put_figures(store, out);
    Ok(())
}
