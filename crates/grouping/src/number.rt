// Blocks numbered by their first line.
ghost use Rattle.std.specs.Prelude.{◌≡◌, List, ◌++◌, ℕ, ◌+◌, ◌*◌, ◌≤◌, ◌<◌, length, get_or};
ghost use Rattle.memory.specs.rules.Lists.{table, count_if};
ghost use Rattle.memory.specs.rules.Words.{over};
ghost use Rattle.union_find.specs.rules.Classes.{first_of};
ghost use Rattle.union_find.specs.stages.Forests.{Forest};
ghost use Rattle.grouping.specs.rules.Blocks.{opens_block, block_number};
ghost use Rattle.grouping.specs.stages.Numbering.{NumberedOne, with_blocks};
ghost use Rattle.smoothing.specs.rules.LineRecords.{line_words};

use smoothing::LINE_WORDS;

// In place of the parent of each of the n lines, the number of its block; answers how many blocks there are.
pub fn number_blocks(parents: &mut [u32], n: usize) -> u32
    requires { (n ≤ length parents.old) × (n ≤ 4294967295) × ((k : ℕ) → k < n → get_or parents.old k 0 ≤ k) }
    ensures { (fs : List ℕ) → Forest (first_of fs) parents.old n → ((k : ℕ) → first_of fs k ≤ k)
        → (result ≡ count_if (opens_block fs) n) × (parents.new ≡ over (table (block_number fs) n) parents.old) }
{
    let mut count: u32 = 0;
    for i in 0..n {
        count = number_one(parents, i, count);
    }
    count
}

// A line that is its own parent opens the next block; any other is in its parent's block, which has its number already.
fn number_one(parents: &mut [u32], i: usize, count: u32) -> u32
    requires { (i < length parents.old) × (get_or parents.old i 0 ≤ i) × (count < 4294967295) }
    ensures { NumberedOne parents.old parents.new i count result }
{
    let parent = parents[i] as usize;
    if parent == i {
        parents[i] = count;
        return count + 1;
    }
    parents[i] = parents[parent];
    count
}

// Writes the number of its block into each of the n lines.
pub fn write_numbers(lines: &mut [u32], n: usize, numbers: &[u32])
    requires { (n * line_words ≤ length lines.old) × (n ≤ length numbers.now) }
    ensures { lines.new ≡ with_blocks (λ (k : ℕ). get_or numbers.now k 0) n lines.old }
{
    for (i, number) in numbers[..n].iter().enumerate() {
        lines[i * LINE_WORDS + 7] = *number;
    }
}
