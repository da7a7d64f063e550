// The nine words of a component's record: area, box, the sum of x and the sum of y, the low word of each first.
ghost use Rattle.std.specs.Prelude.{◌≡◌, ◌+◌, ◌≤◌, ◌<◌, ◌^◌, length};
ghost use Rattle.memory.specs.rules.Limits.{max_mask_side, max_mask_dots, component_words};
ghost use Rattle.labelling.specs.stages.Absorbing.{absorbed_span};
ghost use Rattle.labelling.specs.rules.RecordWords.{record_words};
ghost use Rattle.labelling.specs.stages.RecordParts.{record_of, lowered, raised, long_at, long_added};
ghost use Rattle.labelling.specs.stages.Tallying.{Small};

use crate::component::Component;

// Writes a component's record over nine words.
pub fn encode(words: &mut [u32], c: Component)
    requires { length words.old ≡ component_words }
    ensures { words.new ≡ record_words c }
{
    words[0] = c.area;
    words[1] = c.x0;
    words[2] = c.y0;
    words[3] = c.x1;
    words[4] = c.y1;
    words[5] = (c.sum_x % 4294967296) as u32;
    words[6] = (c.sum_x / 4294967296) as u32;
    words[7] = (c.sum_y % 4294967296) as u32;
    words[8] = (c.sum_y / 4294967296) as u32;
}

// Word i becomes v where that is less. It is stored only then, since most spans lie within the box of their component.
pub fn lower(words: &mut [u32], i: usize, v: u32)
    requires { i < length words.old }
    ensures { words.new ≡ lowered words.old i v }
{
    if words[i] <= v {
        return;
    }
    words[i] = v;
}

// Word i becomes v where that is greater.
pub fn raise(words: &mut [u32], i: usize, v: u32)
    requires { i < length words.old }
    ensures { words.new ≡ raised words.old i v }
{
    if v <= words[i] {
        return;
    }
    words[i] = v;
}

// Adds to the number whose low word is word i and whose high word is the next.
fn add_long(words: &mut [u32], i: usize, more: u64)
    requires { (i < 8) × (length words.old ≡ component_words) × (long_at words.old i + more ≤ 18446744073709551615) }
    ensures { words.new ≡ long_added words.old i more }
{
    let high = i + 1;
    let sum = u64::from(words[i]) + u64::from(words[high]) * 4294967296 + more;
    words[i] = (sum % 4294967296) as u32;
    words[high] = (sum / 4294967296) as u32;
}

// The record in nine words with the dots of a span of row y more, in its place: what absorb_span gives, with fewer words read and
// written.
pub fn absorb_words(words: &mut [u32], x: u32, last: u32, dots: u32, sum: u64, y: u32)
    requires { (length words.old ≡ component_words) × (dots ≤ max_mask_side) × (sum ≤ 2 ^ 60) × (y ≤ max_mask_dots) × Small (record_of words.old) }
    ensures { words.new ≡ record_words (absorbed_span (record_of words.old) x last dots sum y) }
{
    let area = words[0];
    words[0] = area + dots;
    lower(words, 1, x);
    lower(words, 2, y);
    raise(words, 3, last);
    raise(words, 4, y);
    add_long(words, 5, sum);
    add_long(words, 7, u64::from(dots) * u64::from(y));
}
