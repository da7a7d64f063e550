// The records of the blocks: the box around the lines of each, and their count.
ghost use Rattle.std.specs.Prelude.{◌≡◌, List, ◌∷◌, [], ℕ, ◌+◌, ◌*◌, ◌≤◌, ◌<◌, length, get_or};
ghost use Rattle.std.proofs.lemmas.List.Edits.{sets};
ghost use Rattle.memory.specs.rules.Records.{encoded};
ghost use Rattle.union_find.specs.rules.Classes.{first_of};
ghost use Rattle.grouping.specs.rules.Blocks.{block_number, blocks_of};
ghost use Rattle.grouping.specs.stages.Numbering.{block_box, block_fields, Grown};
ghost use Rattle.grouping.specs.stages.LineBoxes.{Lines, line_boxes};
ghost use Rattle.smoothing.specs.rules.LineRecords.{line_words};
ghost use Rattle.grouping.specs.rules.BlockRecords.{block_words, block_record};
ghost use Rattle.memory.specs.rules.Words.{put_at};

use crate::block::line_box;
use memory::{Rect, box_at, put_box};

// The words of a block.
pub const BLOCK_WORDS: usize = 5;

// Writes the record of each block from the word `at` on, from the n lines before it and the numbers of their blocks; answers how many
// there are.
pub fn write_blocks(words: &mut [u32], n: usize, numbers: &[u32], at: usize) -> usize
    requires { ((w h : ℕ) × Lines w h n words.old) × (n ≤ 4294967295) × (n ≤ length numbers.now) × (n * line_words ≤ at) × (at + n * block_words ≤ length words.old)
        × ((fs : List ℕ) × ((k : ℕ) → first_of fs k ≤ k) × ((k : ℕ) → first_of fs (first_of fs k) ≡ first_of fs k) × ((k : ℕ) → k < n → get_or numbers.now k 0 ≡ block_number fs k)) }
    ensures { (fs : List ℕ) → ((k : ℕ) → first_of fs k ≤ k) → ((k : ℕ) → first_of fs (first_of fs k) ≡ first_of fs k) → ((k : ℕ) → k < n → get_or numbers.now k 0 ≡ block_number fs k)
        → (result ≡ length (blocks_of (line_boxes words.old n) fs)) × (words.new ≡ put_at at (encoded block_record (blocks_of (line_boxes words.old n) fs)) words.old) }
{
    let mut count = 0;
    for (i, b) in numbers[..n].iter().enumerate() {
        let line = line_box(&words[..], i);
        count = add_line(line, *b as usize, count, &mut words[at..]);
    }
    count
}

// A line in block b, of `count` so far: it opens the block, or the block grows.
fn add_line(line: Rect, b: usize, count: usize, out: &mut [u32]) -> usize
    requires { (b ≤ count) × (count * block_words + block_words ≤ length out.old) × (b < count → get_or out.old (b * block_words + 4) 0 < 4294967295) }
    ensures { Grown line b count out.old out.new result }
{
    if b == count {
        put_block(out, b, line, 1);
        return count + 1;
    }
    let grown = block_box(&out[..], b).union(line);
    let n = out[b * BLOCK_WORDS + 4];
    put_block(out, b, grown, n + 1);
    count
}

// The box of block b.
fn block_box(out: &[u32], b: usize) -> Rect
    requires { b * block_words + block_words ≤ length out.now }
    ensures { result ≡ block_box out.now b }
{
    box_at(out, b * BLOCK_WORDS)
}

// The record of block b.
fn put_block(out: &mut [u32], b: usize, r: Rect, n: u32)
    requires { b * block_words + block_words ≤ length out.old }
    ensures { out.new ≡ sets out.old (b * block_words) (block_fields r n) }
{
    let at = b * BLOCK_WORDS;
    put_box(out, at, r);
    out[at + 4] = n;
}
