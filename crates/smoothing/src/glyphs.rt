// Glyphs and the smoothed components that hold them, in the words of scratch.
ghost use Rattle.std.specs.Prelude.{◌≡◌, ℕ, suc, ◌+◌, ◌-◌, ◌*◌, ◌/◌, ◌≤◌, ◌<◌, length, get_or, set};
ghost use Rattle.std.proofs.lemmas.List.Edits.{sets};
ghost use Rattle.memory.specs.rules.Lists.{occurs};
ghost use Rattle.memory.specs.rules.Limits.{max_capacity};
ghost use Rattle.memory.specs.stages.Stored.{Stored};
ghost use Rattle.sorting.specs.rules.Kinds.{glyph_kind};
ghost use Rattle.smoothing.specs.stages.LineWords.{kind_word, first_number, LabelRoom, label_at, labels_at, CountRoom, glyph_fields, glyph_record_at, GlyphRoom, WrittenGlyph, WrittenGlyphs};

use memory::{Rect, fill, put_box};
use sorting::{GLYPH, SIZE_WORDS, size_box};

// The words of a glyph's record.
pub const GLYPH_WORDS: usize = 6;

// The kind of each glyph becomes 4 + 8 × the number of its first smoothed run.
pub fn label_glyphs(words: &mut [u32], kinds: usize, count: usize, firsts: usize, numbers: usize)
    requires { LabelRoom kinds count firsts numbers words.old }
    ensures { Stored (λ (k : ℕ). kind_word (get_or words.old (kinds + k) 0) (first_number words.old firsts numbers k)) kinds count words.old words.new }
{
    for k in 0..count {
        words[kinds + k] = labelled_kind(&words[..], kinds + k, firsts + k, numbers);
    }
}

// The word of the component whose kind is at `kind` and whose first smoothed run is at `first`.
fn labelled_kind(words: &[u32], kind: usize, first: usize, numbers: usize) -> u32
    requires { (kind < length words.now) × (first < length words.now)
        × (get_or words.now kind 0 ≡ glyph_kind → (numbers + get_or words.now first 0 < length words.now) × (get_or words.now (numbers + get_or words.now first 0) 0 ≤ max_capacity)) }
    ensures { result ≡ kind_word (get_or words.now kind 0) (get_or words.now (numbers + get_or words.now first 0) 0) }
{
    if words[kind] != GLYPH {
        return words[kind];
    }
    let run = words[first] as usize;
    GLYPH + 8 * words[numbers + run]
}

// Word t of the `smears` words from `glyphs` on becomes the count of the glyphs with the label t + 1.
pub fn count_glyphs(words: &mut [u32], kinds: usize, count: usize, glyphs: usize, smears: usize)
    requires { CountRoom kinds count glyphs smears words.old }
    ensures { Stored (λ (t : ℕ). occurs (suc t) (labels_at words.old kinds count)) glyphs smears words.old words.new }
{
    fill(&mut words[glyphs..glyphs + smears], 0);
    for k in 0..count {
        let label = (words[kinds + k] / 8) as usize;
        count_label(words, glyphs, label);
    }
}

// One glyph more has this label; 0 is none.
fn count_label(words: &mut [u32], glyphs: usize, label: usize)
    requires { 0 < label → (glyphs + label ≤ length words.old) × (get_or words.old (glyphs + (label - 1)) 0 < 4294967295) }
    ensures { (label ≡ 0 → words.new ≡ words.old) × (0 < label → words.new ≡ set words.old (glyphs + (label - 1)) (get_or words.old (glyphs + (label - 1)) 0 + 1)) }
{
    if 0 < label {
        let at = glyphs + (label - 1);
        words[at] += 1;
    }
}

// Writes the record of each glyph, six words, and answers how many there are. The number of the line with the label t + 1, or the
// mark, stands in word t from `numbers` on.
pub fn write_glyphs(
    words: &[u32],
    sizes: usize,
    kinds: usize,
    count: usize,
    numbers: usize,
    out: &mut [u32],
) -> usize
    requires { GlyphRoom sizes kinds count numbers words.now (length out.old) }
    ensures { WrittenGlyphs sizes kinds count numbers words.now out.old out.new result }
{
    let mut n = 0;
    for k in 0..count {
        n = write_glyph(words, sizes, kinds, k, numbers, out, n);
    }
    n
}

// Component k, as record n if it is a glyph; answers how many records there are with it.
fn write_glyph(
    words: &[u32],
    sizes: usize,
    kinds: usize,
    k: usize,
    numbers: usize,
    out: &mut [u32],
    n: usize,
) -> usize
    requires { (sizes + k * 5 + 5 ≤ length words.now) × (kinds + k < length words.now) × (0 < label_at words.now kinds k → numbers + label_at words.now kinds k ≤ length words.now) × (n * 6 + 6 ≤ length out.old) }
    ensures { WrittenGlyph (label_at words.now kinds k) (glyph_record_at words.now sizes kinds numbers k) n out.old out.new result }
{
    let label = (words[kinds + k] / 8) as usize;
    if label == 0 {
        return n;
    }
    let line = words[numbers + (label - 1)];
    let area = words[sizes + k * SIZE_WORDS];
    let r = size_box(words, sizes, k);
    put_glyph(out, n, r, area, line);
    n + 1
}

// The record of glyph n.
fn put_glyph(out: &mut [u32], n: usize, r: Rect, area: u32, line: u32)
    requires { n * 6 + 6 ≤ length out.old }
    ensures { out.new ≡ sets out.old (n * 6) (glyph_fields r area line) }
{
    let at = n * GLYPH_WORDS;
    put_box(out, at, r);
    out[at + 4] = area;
    out[at + 5] = line;
}
