// Pitches: the distances between following lines of a block, and the twenty-line measure.
ghost use Rattle.std.specs.Prelude.{◌≡◌, ℕ, ◌+◌, ◌-◌, ◌*◌, ◌≤◌, ◌<◌, length, get_or};
ghost use Rattle.memory.specs.rules.Lists.{occurs};
ghost use Rattle.memory.specs.rules.Limits.{max_frame_height};
ghost use Rattle.sorting.specs.rules.Units.{median};
ghost use Rattle.grouping.specs.rules.Readings.{twenty_of};
ghost use Rattle.grouping.specs.rules.HeldLines.{centre_at, block_at, pitches_below};
ghost use Rattle.grouping.specs.stages.Pitches.{walked_pitches, last_centre, PitchAdded, BlockedLines};

use memory::fill;
use smoothing::LINE_WORDS;
use sorting::median_of_counts;

// The twenty-line measure of n lines in `blocks` blocks: ten times the median pitch.
pub fn twenty_line_measure(
    lines: &[u32],
    n: usize,
    blocks: usize,
    h: u32,
    scratch: &mut [u32],
) -> u32
    requires { BlockedLines h n blocks lines.now × (h ≤ max_frame_height) × (2 * h + blocks ≤ length scratch.old) }
    ensures { result ≡ twenty_of (pitches_below (centre_at lines.now) (block_at lines.now) n blocks) }
{
    10 * median_pitch(lines, n, blocks, h, scratch)
}

// The median of the differences of y0 + y1 between following lines of a block, each below 2 h.
pub fn median_pitch(lines: &[u32], n: usize, blocks: usize, h: u32, scratch: &mut [u32]) -> u32
    requires { BlockedLines h n blocks lines.now × (h ≤ max_frame_height) × (2 * h + blocks ≤ length scratch.old) }
    ensures { (result ≡ median (pitches_below (centre_at lines.now) (block_at lines.now) n blocks)) × (result ≤ 2 * h) }
{
    let values = 2 * (h as usize);
    fill(&mut scratch[0..values + blocks], 0);
    let found = count_pitches(lines, n, blocks, values, scratch);
    median_of_counts(&scratch[..values], found)
}

// Counts the differences, walking the lines; the words after the counts hold the last line of each block.
fn count_pitches(lines: &[u32], n: usize, blocks: usize, values: usize, table: &mut [u32]) -> u32
    requires { ((h : ℕ) × BlockedLines h n blocks lines.now × (values ≡ 2 * h)) × (values + blocks ≤ length table.old) × (values < 4294967295) × ((k : ℕ) → k < values + blocks → get_or table.old k 0 ≡ 0) }
    ensures { (result ≡ length (walked_pitches (centre_at lines.now) (block_at lines.now) n))
        × ((v : ℕ) → v < values → get_or table.new v 0 ≡ occurs v (walked_pitches (centre_at lines.now) (block_at lines.now) n)) }
{
    let mut found: u32 = 0;
    for i in 0..n {
        let at = i * LINE_WORDS;
        let b = lines[at + 7] as usize;
        let centre = lines[at + 1] + lines[at + 3];
        found += add_pitch(table, values, b, centre);
    }
    found
}

// A line more, in block b, with y0 + y1 = centre; answers how many differences it gives.
fn add_pitch(table: &mut [u32], values: usize, b: usize, centre: u32) -> u32
    requires { (values + b < length table.old) × (centre + 1 < values) × (values < 4294967295) × ((k : ℕ) → k < values → get_or table.old k 0 < 4294967295) }
    ensures { PitchAdded values b centre table.old table.new result }
{
    let at = values + b;
    let last = table[at];
    let here = centre + 1;
    table[at] = here;
    if last == 0 {
        return 0;
    }
    let d = here.saturating_sub(last) as usize;
    table[d] += 1;
    1
}
