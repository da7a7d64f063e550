// Lists of boxes, four words a box: those of the components of a kind, and those of the cuts.
ghost use Rattle.std.specs.Prelude.{◌≡◌, ◌+◌, ◌*◌, ◌≤◌, length};
ghost use Rattle.memory.specs.rules.Words.{over};
ghost use Rattle.memory.specs.rules.Records.{encoded};
ghost use Rattle.memory.specs.rules.Rects.{box_words};
ghost use Rattle.segmenting.specs.stages.Held.{held_boxes, held_area, unpacked_boxes, held_rules};

use memory::put_box;
use sorting::{Plan, RULE, SIZE_WORDS, SortCounts, packed_box, size_box};

// The words of a box.
pub const BOX_WORDS: usize = 4;

// Writes the boxes of the components of this kind, by number, and answers how many there are.
pub fn write_boxes(
    words: &[u32],
    sizes: usize,
    kinds: usize,
    count: usize,
    kind: u32,
    out: &mut [u32],
) -> usize
    requires { (sizes + 5 * count ≤ length words.now) × (kinds + count ≤ length words.now) × (length (held_boxes words.now sizes kinds kind count) * 4 ≤ length out.old) }
    ensures { (result ≡ length (held_boxes words.now sizes kinds kind count)) × (out.new ≡ over (encoded box_words (held_boxes words.now sizes kinds kind count)) out.old) }
{
    let mut n = 0;
    for k in 0..count {
        if words[kinds + k] % 8 == kind {
            put_box(out, n * BOX_WORDS, size_box(words, sizes, k));
            n += 1;
        }
    }
    n
}

// How many dots the components of this kind have.
pub fn area_of_kind(words: &[u32], sizes: usize, kinds: usize, count: usize, kind: u32) -> u32
    requires { (sizes + 5 * count ≤ length words.now) × (kinds + count ≤ length words.now) × (held_area words.now sizes kinds kind count ≤ 4294967295) }
    ensures { result ≡ held_area words.now sizes kinds kind count }
{
    let mut sum = 0;
    for k in 0..count {
        if words[kinds + k] % 8 == kind {
            sum += words[sizes + SIZE_WORDS * k];
        }
    }
    sum
}

// Writes the boxes packed from word `from` on.
pub fn unpack_boxes(words: &[u32], from: usize, count: usize, out: &mut [u32])
    requires { (from + 2 * count ≤ length words.now) × (count * 4 ≤ length out.old) }
    ensures { out.new ≡ over (encoded box_words (unpacked_boxes words.now from count)) out.old }
{
    for k in 0..count {
        put_box(out, k * BOX_WORDS, packed_box(words, from + 2 * k));
    }
}

// Writes the rules, horizontal cuts, vertical cuts and components that are rules, and answers how many there are.
pub fn write_rules(words: &[u32], plan: Plan, found: SortCounts, out: &mut [u32]) -> usize
    requires { (plan.horizontal + 2 * found.horizontal ≤ length words.now) × (plan.vertical + 2 * found.vertical ≤ length words.now) × (plan.sizes + 5 * found.component_count ≤ length words.now) × (plan.kinds + found.component_count ≤ length words.now)
        × (length (held_rules words.now plan.horizontal found.horizontal plan.vertical found.vertical plan.sizes plan.kinds found.component_count) * 4 ≤ length out.old) }
    ensures { (result ≡ length (held_rules words.now plan.horizontal found.horizontal plan.vertical found.vertical plan.sizes plan.kinds found.component_count))
        × (out.new ≡ over (encoded box_words (held_rules words.now plan.horizontal found.horizontal plan.vertical found.vertical plan.sizes plan.kinds found.component_count)) out.old) }
{
    unpack_boxes(words, plan.horizontal, found.horizontal, out);
    let first = found.horizontal * BOX_WORDS;
    unpack_boxes(words, plan.vertical, found.vertical, &mut out[first..]);
    let cuts = found.horizontal + found.vertical;
    let second = cuts * BOX_WORDS;
    let n = found.component_count;
    cuts + write_boxes(words, plan.sizes, plan.kinds, n, RULE, &mut out[second..])
}
