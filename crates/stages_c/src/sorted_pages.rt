// An ink plane sorted, as a segmentation sorts it before it groups: what is told of it is figures alone, for the benchmark of the
// stages. The answer is 0, or document 01's number of a refusal; a call that is refused writes nothing but scratch, and that only
// with 20.
ghost use Rattle.std.specs.Prelude.{◌≡◌, ◌*◌, length, drop};
ghost use Rattle.memory.specs.rules.Limits.{scratch_words};
ghost use Rattle.stages.specs.rules.Frames.{told};
ghost use Rattle.stages.specs.rules.SortedPages.{sorted_page};

use params::LayoutParams;

// Sorts an ink plane of bytes 0 and 1: the first seven words of figures tell the unit, the dots of ink, the cuts and the components
// (specs/rules/SortedPages). The words are worked in. What can refuse the call is judged before anything is written, but for too many components.
#[unsafe(no_mangle)]
pub extern "C" fn novlizeb_sort(
    ink: &[u8],
    w: u32,
    h: u32,
    sheet: LayoutParams,
    capacity: u32,
    words: &mut [u32],
    figures: &mut [u32],
) -> u32
    ensures { told result figures.new (length words.new) (drop (scratch_words (w * h) capacity) words.new) ≡ sorted_page sheet w h ink.now capacity words.old figures.old }
{
    stages::novlizeb_sort(ink, w, h, sheet, capacity, words, figures)
}
