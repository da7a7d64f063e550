// Labelling and run extents called by themselves. An answer is one word: document 01's number of a
// refusal times 2^32, or else the value. A call that is refused writes nothing but scratch.
ghost use Rattle.std.specs.Prelude.{◌≡◌, ◌*◌, length, drop};
ghost use Rattle.memory.specs.rules.Limits.{scratch_words};
ghost use Rattle.labelling.specs.rules.Answer.{label_mask};
ghost use Rattle.extents.specs.rules.Answers.{run_extents};
ghost use Rattle.stages.specs.rules.LabelAnswers.{LabelTold};
ghost use Rattle.stages.specs.rules.ExtentAnswers.{along_of, ExtentsTold};

use extents::Along;
use memory::{number_of, word_of};

// The 8-connected components of a mask, numbered by first dot: a label a dot, nine words a component.
// The value is their count.
pub fn novlizeb_label(
    mask: &[u8],
    width: u32,
    height: u32,
    capacity: u32,
    labels: &mut [u32],
    components: &mut [u32],
    scratch: &mut [u32],
) -> u64
    ensures { LabelTold (label_mask width height mask.now capacity labels.old components.old scratch.old) result labels.new components.new (length scratch.new) (drop (scratch_words (width * height) capacity) scratch.new) }
{
    word_of(labelling::label(mask, width, height, capacity, labels, components, scratch))
}

fn along_of(columns: bool) -> Along
    ensures { result ≡ along_of columns }
{
    if columns { Along::Columns } else { Along::Rows }
}

// The run extents of a mask, along its columns or else along its rows, a word a dot. The value is 0.
pub fn novlizeb_run_extents(
    mask: &[u8],
    width: u32,
    height: u32,
    columns: bool,
    extents: &mut [u32],
) -> u64
    ensures { ExtentsTold (run_extents mask.now width height (along_of columns) extents.old) result extents.new }
{
    let along = along_of(columns);
    let number = number_of(extents::run_extents(mask, width, height, along, extents));
    number as u64 * 4294967296
}
