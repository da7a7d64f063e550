// Tables of counts in lent words: how often each value occurs.
ghost use Rattle.std.specs.Prelude.{◌≡◌, List, ◌++◌, ℕ, ◌+◌, ◌*◌, ◌≤◌, ◌<◌, length, get_or};
ghost use Rattle.memory.specs.rules.Lists.{table};
ghost use Rattle.memory.specs.rules.Words.{over};
ghost use Rattle.smoothing.specs.rules.LineRecords.{line_words};
ghost use Rattle.memory.specs.rules.Records.{fields};
ghost use Rattle.grouping.specs.stages.Counts.{counts, below};

use memory::fill;
use smoothing::LINE_WORDS;

// Counts the values, all below m, that `value` has at 0 to n - 1.
pub fn count_values<F: Fn(usize) -> u32>(value: F, n: usize, tally: &mut [u32], m: usize)
    requires { ((f : ℕ → ℕ) × ((i : ℕ) → i < n → F.pre value i × ((v : ℕ) → F.post value i v → (v ≡ f i) × (v < m)))) × (n ≤ 4294967295) × (m ≤ length tally.old) }
    ensures { (f : ℕ → ℕ) → ((i v : ℕ) → i < n → F.post value i v → v ≡ f i) → tally.new ≡ over (counts (table f n) m) tally.old }
{
    fill(&mut tally[0..m], 0);
    for i in 0..n {
        tally[value(i) as usize] += 1;
    }
}

// Counts the values, all below m, of word `field` of the n lines.
pub fn count_field(lines: &[u32], n: usize, field: usize, table: &mut [u32], m: usize)
    requires { (n * line_words ≤ length lines.now) × (field < line_words) × (n ≤ 4294967295) × (m ≤ length table.old) × ((i : ℕ) → i < n → get_or lines.now (i * line_words + field) 0 < m) }
    ensures { table.new ≡ over (counts (fields line_words field lines.now n) m) table.old }
{
    count_values(|i| lines[i * LINE_WORDS + field], n, table, m);
}

// Counts v where it is below m; answers 1, or 0 where it is not.
pub fn count_below(table: &mut [u32], m: u32, v: u32) -> u32
    requires { (m ≤ length table.old) × (v < m → get_or table.old v 0 < 4294967295) }
    ensures { (l s : List ℕ) → table.old ≡ over (counts l m) s → (result ≡ length (below m v)) × (table.new ≡ over (counts (l ++ below m v) m) s) }
{
    if v < m {
        table[v as usize] += 1;
        return 1;
    }
    0
}
