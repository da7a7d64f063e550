// A whole segmentation of an ink plane. The answer is 0, or document 01's number of a refusal; a call that is refused writes nothing
// but scratch, and that only where the page itself has too much on it (20 and 21).
ghost use Rattle.std.specs.Prelude.{◌≡◌, ◌*◌, length, drop};
ghost use Rattle.memory.specs.rules.Limits.{scratch_words};
ghost use Rattle.stages.specs.rules.Pages.{left, paged};

use params::LayoutParams;

// Segments an ink plane of bytes 0 and 1: the lists in the words of results, the kind of each dot in kinds, and in the first fifteen words
// of figures what is told besides (specs/rules/Pages). The words are worked in. What can refuse the call is judged before anything is written.
#[unsafe(no_mangle)]
pub extern "C" fn novlizeb_segment_plane(
    ink: &[u8],
    w: u32,
    h: u32,
    sheet: LayoutParams,
    capacity: u32,
    words: &mut [u32],
    results: &mut [u32],
    kinds: &mut [u8],
    figures: &mut [u32],
) -> u32
    ensures { left result results.new kinds.new figures.new (length words.new) (drop (scratch_words (w * h) capacity) words.new) ≡ paged sheet w h ink.now capacity words.old results.old kinds.old figures.old }
{
    stages::novlizeb_segment_plane(ink, w, h, sheet, capacity, words, results, kinds, figures)
}
