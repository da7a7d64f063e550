// The entries of a sheet: one, and all of a kind.
ghost use Rattle.std.specs.Prelude.{◌≡◌, ◌+◌, ◌*◌, ◌<◌, ◌≤◌, length};
ghost use Rattle.listing.specs.rules.Sheets.{field_count, entry_from, entries_text};
ghost use Rattle.listing.specs.stages.Parts.{fields_from, entries_at, three_kinds};
ghost use Rattle.listing.specs.stages.Puts.{Put};

use crate::digits::{LINE_FEED, put_hex};
use crate::formats::{field_count, field_digits};

// The words of an entry, from word `from` on, in digits.
fn put_fields(out: &mut [u8], at: usize, kind: usize, words: &[u32], from: usize) -> usize
    requires { (kind < 8) × (from + field_count kind ≤ length words.now) × (at + length (fields_from kind words.now from) ≤ length out.old) }
    ensures { Put out.old at (fields_from kind words.now from) result out.new }
{
    let mut p = at;
    for j in 0..field_count(kind) {
        let digits = field_digits(kind, j);
        p = put_hex(out, p, words[from + j], digits);
    }
    p
}

// An entry whose words stand from word `from` on: its kind, its words, a line feed.
pub fn put_entry(out: &mut [u8], at: usize, kind: u32, words: &[u32], from: usize) -> usize
    requires { (kind < 8) × (from + field_count kind ≤ length words.now) × (at + length (entry_from kind words.now from) ≤ length out.old) }
    ensures { Put out.old at (entry_from kind words.now from) result out.new }
{
    let p = put_hex(out, at, kind, 2);
    let q = put_fields(out, p, kind as usize, words, from);
    out[q] = LINE_FEED;
    q + 1
}

// All entries of a kind. In place at each of its six calls, where the kind is known, so that the digits of its words are too.
#[inline(always)]
fn put_entries(out: &mut [u8], at: usize, kind: u32, list: Entries) -> usize
    requires { (kind < 8) × (list.n * field_count kind ≤ length list.words.now) × (at + length (entries_text kind list.words.now list.n) ≤ length out.old) }
    ensures { Put out.old at (entries_text kind list.entry.words.now list.entry.n) result out.new }
{
    let count = field_count(kind as usize);
    let mut p = at;
    for i in 0..list.n as usize {
        p = put_entry(out, p, kind, list.words, i * count);
    }
    p
}

// The entries of a kind: their words, and how many they are.
#[derive(Clone, Copy, Debug, PartialEq, Eq)]
pub struct Entries<'a> {
    pub words: &'a [u32],
    pub n: u32,
}

// The n entries of a kind whose words stand from word `at` on.
pub fn entries_at(words: &[u32], at: usize, kind: usize, n: u32) -> Entries
    requires { (kind < 8) × (at + n * field_count kind ≤ length words.now) }
    ensures { (result.words.now ≡ entries_at words.now at kind n) × (result.n ≡ n) }
{
    let end = at + n as usize * field_count(kind);
    Entries {
        words: &words[at..end],
        n,
    }
}

// All entries of a kind and of the two kinds after it.
#[inline(always)]
pub fn put_three_kinds(
    out: &mut [u8],
    at: usize,
    kind: u32,
    first: Entries,
    second: Entries,
    third: Entries,
) -> usize
    requires { (kind < 6) × (first.n * field_count kind ≤ length first.words.now) × (second.n * field_count (kind + 1) ≤ length second.words.now) × (third.n * field_count (kind + 2) ≤ length third.words.now) × (at + length (three_kinds kind first.words.now first.n second.words.now second.n third.words.now third.n) ≤ length out.old) }
    ensures { Put out.old at (three_kinds kind first.entry.words.now first.entry.n second.entry.words.now second.entry.n third.entry.words.now third.entry.n) result out.new }
{
    let p = put_entries(out, at, kind, first);
    let q = put_entries(out, p, kind + 1, second);
    put_entries(out, q, kind + 2, third)
}
