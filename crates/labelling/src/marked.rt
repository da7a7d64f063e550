// Runs of the dots that pass a test, by a byte of ink and a mark for each dot; the marks stand in the words that the runs are
// written to, behind them. A dot passes the tests of the cut masks only where it is ink: marks stand on ink alone, so that this changes
// nothing but the time, since a chunk without ink is passed over by its bytes, and its marks, four times as wide, are not read.
ghost use Rattle.std.specs.Prelude.{◌≡◌, cond, ◌+◌, length, ltb};
ghost use Rattle.memory.specs.rules.Lists.{count_if};
ghost use Rattle.memory.specs.rules.Masks.{is_ink};
ghost use Rattle.labelling.specs.stages.Extraction.{TurnsTold};
ghost use Rattle.labelling.specs.stages.Marked.{passes, passing, MarkedScanRoom, MarkedScanned, MarkedRowRoom, MarkedRowLeft, MarkedRoom, MarkedLeft};

use crate::runs::{CHUNK, ink_count, write_turns};

// Which dots count: ink whose mark has its first bit, its second bit, or none.
#[derive(Clone, Copy, Debug, PartialEq, Eq)]
pub enum Test {
    First,
    Second,
    Neither,
}

// A row's bytes of ink, the test of which dots count, the place of the row's first dot in the plane, and the word where the plane's
// marks begin.
#[derive(Clone, Copy, Debug, PartialEq, Eq)]
struct MarkedRow<'a> {
    ink: &'a [u8],
    test: Test,
    base: usize,
    marks: usize,
}

// 1 where a dot passes, else 0.
fn passes(test: Test, ink: u8, mark: u32) -> u8
    ensures { result ≡ cond (passes test (ltb 0 ink) mark) 1 0 }
{
    match test {
        Test::First => ((0 < ink) & (mark % 2 == 1)) as u8,
        Test::Second => ((0 < ink) & (1 < mark)) as u8,
        Test::Neither => ((0 < ink) & (mark == 0)) as u8,
    }
}

// How many of a chunk's dots pass.
fn count_passing(test: Test, ink: &[u8], marks: &[u32]) -> u8
    requires { (length ink.now ≡ 32) × (length marks.now ≡ 32) }
    ensures { result ≡ count_if (is_ink (passing test ink.now marks.now 32)) 32 }
{
    let mut count = 0;
    for (byte, mark) in ink.iter().zip(marks) {
        count += passes(test, *byte, *mark);
    }
    count
}

// The same, one loop for each test; without ink the marks, four times as wide, are not looked at.
fn count_chunk(test: Test, ink: &[u8], marks: &[u32]) -> u8
    requires { (length ink.now ≡ 32) × (length marks.now ≡ 32) }
    ensures { result ≡ count_if (is_ink (passing test ink.now marks.now 32)) 32 }
{
    if ink_count(ink) == 0 {
        return 0;
    }
    match test {
        Test::First => count_passing(Test::First, ink, marks),
        Test::Second => count_passing(Test::Second, ink, marks),
        Test::Neither => count_passing(Test::Neither, ink, marks),
    }
}

// Tells for each of 32 dots whether it is a turn, by itself and the dot before it, the first of the 33.
fn tell_passing(test: Test, ink: &[u8], marks: &[u32], told: &mut [u8; CHUNK])
    requires { (length ink.now ≡ 33) × (length marks.now ≡ 33) × (length told.old ≡ 32) }
    ensures { TurnsTold (passing test ink.now marks.now 33) told.new 32 }
{
    for i in 0..CHUNK {
        told[i] = (passes(test, ink[i], marks[i]) != passes(test, ink[i + 1], marks[i + 1])) as u8;
    }
}

// The same, one loop for each test.
fn tell_chunk(test: Test, ink: &[u8], marks: &[u32], told: &mut [u8; CHUNK])
    requires { (length ink.now ≡ 33) × (length marks.now ≡ 33) × (length told.old ≡ 32) }
    ensures { TurnsTold (passing test ink.now marks.now 33) told.new 32 }
{
    match test {
        Test::First => tell_passing(Test::First, ink, marks, told),
        Test::Second => tell_passing(Test::Second, ink, marks, told),
        Test::Neither => tell_passing(Test::Neither, ink, marks, told),
    }
}

// Its scans are those of a `Row` but for the dots that they read. The marks stand in the words that a scan writes, so that a trait for both
// would hand the words to each read of a dot, and be no plainer.
impl MarkedRow<'_> {
    // Writes the turns among the dots `from` up to `to` of the row to the words from `at` on, and answers where they end. An odd place
    // is that of a run's end: there the last dot passed. A word is stored at every dot and counts only at a turn.
    fn scan(self, from: usize, to: usize, words: &mut [u32], at: usize) -> usize
        requires { MarkedScanRoom self.test self.ink.now from to self.base words.old at self.marks }
        ensures { MarkedScanned self.entry.test self.entry.ink.now from to self.entry.base words.old words.new at self.entry.marks result }
    {
        let mut k = at;
        let mut before = (at % 2) as u8;
        for x in from..to {
            let here = passes(self.test, self.ink[x], words[self.marks + self.base + x]);
            words[k] = (self.base + x) as u32;
            k += (before != here) as usize;
            before = here;
        }
        k
    }

    // The same as `scan` for a chunk of 32 dots, which has no turns where its dots are all as the one before. Else its turns are told at
    // once and then written, as in runs.rt.
    fn scan_chunk(self, from: usize, words: &mut [u32], at: usize) -> usize
        requires { MarkedScanRoom self.test self.ink.now from (from + 32) self.base words.old at self.marks }
        ensures { MarkedScanned self.entry.test self.entry.ink.now from (from + 32) self.entry.base words.old words.new at self.entry.marks result }
    {
        let to = from + CHUNK;
        let first = self.marks + self.base + from;
        let end = first + CHUNK;
        let count = count_chunk(self.test, &self.ink[from..to], &words[first..end]);
        if count as usize == CHUNK * (at % 2) {
            return at;
        }
        if from == 0 {
            return self.scan(from, to, words, at);
        }
        let mut told = [0u8; CHUNK];
        tell_chunk(
            self.test,
            &self.ink[from - 1..to],
            &words[first - 1..end],
            &mut told,
        );
        let n = (self.ink.len() - from).min(CHUNK);
        write_turns(&told, n, self.base + from, words, at)
    }

    // Writes the turns of the row to the words from `at` on, and answers where they end.
    fn extract(self, words: &mut [u32], at: usize) -> usize
        requires { MarkedRowRoom self.test self.ink.now self.base words.old at self.marks }
        ensures { MarkedRowLeft self.entry.test self.entry.ink.now self.entry.base words.old words.new at self.entry.marks result }
    {
        let mut k = at;
        let mut x = 0;
        // `for x in (..).step_by(CHUNK)` proves too, but blank rows took a tenth longer.
        while CHUNK <= self.ink.len() - x {
            k = self.scan_chunk(x, words, k);
            x += CHUNK;
        }
        k = self.scan(x, self.ink.len(), words, k);
        if k % 2 == 0 {
            return k;
        }
        words[k] = (self.base + self.ink.len()) as u32;
        k + 1
    }
}

// Writes the runs of the dots that pass to the words, and answers how many there are; the mark of dot i is the word `marks + i`.
pub fn extract_marked(
    ink: &[u8],
    w: usize,
    h: usize,
    words: &mut [u32],
    marks: usize,
    test: Test,
) -> usize
    requires { MarkedRoom w h ink.now words.old marks }
    ensures { MarkedLeft test w h ink.now words.old words.new marks result }
{
    let mut k = 0;
    let mut base = 0;
    for y in 0..h {
        let end = base + w;
        let row = MarkedRow {
            ink: &ink[base..end],
            test,
            base,
            marks,
        };
        k = row.extract(words, k);
        base = end;
    }
    k / 2
}
