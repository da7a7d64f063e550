// Runs of ink, row by row: for each run the dot where it starts and the dot after its last, as two words; the end of a row ends a run.
ghost use Rattle.std.specs.Prelude.{◌≡◌, ◌+◌, ◌≤◌, ◌<◌, get_or, length, set};
ghost use Rattle.memory.specs.rules.Lists.{count_if};
ghost use Rattle.memory.specs.rules.Limits.{max_mask_dots};
ghost use Rattle.memory.specs.rules.Masks.{is_ink};
ghost use Rattle.labelling.specs.stages.Extraction.{ScanRoom, Scanned, TurnsTold, ToldRoom, ToldWritten, RowRoom, RowExtracted, PlaneRoom, Extracted};

// The dots of a chunk, which are counted at once.
pub const CHUNK: usize = 32;

// The dots of four chunks, which are counted at once before each chunk is.
const FOUR_CHUNKS: usize = 128;

// A row of dots; `base` is the place of its first dot in the plane.
#[derive(Clone, Copy, Debug, PartialEq, Eq)]
pub struct Row<'a> {
    pub dots: &'a [u8],
    pub base: usize,
}

// How many of a chunk's dots are ink, any byte but 0.
pub fn ink_count(chunk: &[u8]) -> u8
    requires { length chunk.now ≤ 255 }
    ensures { result ≡ count_if (is_ink chunk.now) (length chunk.now) }
{
    let mut count = 0;
    for byte in chunk {
        count += (0 < *byte) as u8;
    }
    count
}

// Tells for each of 32 dots whether it is a turn, by itself and the dot before it, the first of the 33. No dot waits for another, so
// that many are told at a time.
fn tell_turns(dots: &[u8], told: &mut [u8; CHUNK])
    requires { (length dots.now ≡ 33) × (length told.old ≡ 32) }
    ensures { TurnsTold dots.now told.new 32 }
{
    for i in 0..CHUNK {
        told[i] = ((0 < dots[i]) != (0 < dots[i + 1])) as u8;
    }
}

// Writes dot i of those from `start` on to word k, and answers where the next is written: at the same word, unless this is a turn.
fn write_turn(told: &[u8; CHUNK], i: usize, start: usize, words: &mut [u32], k: usize) -> usize
    requires { (i < 32) × (get_or told.now i 0 ≤ 1) × (start + i ≤ max_mask_dots) × (k < length words.old) }
    ensures { (words.new ≡ set words.old k (start + i)) × (result ≡ k + get_or told.now i 0) }
{
    words[k] = (start + i) as u32;
    k + told[i] as usize
}

// Writes the turns told of n dots, 32, the first of which is `start`, to the words from `at` on, and answers where they end. A word is
// stored at every dot and counts only at a turn. Four dots a step, which is faster where runs are short.
pub fn write_turns(
    told: &[u8; CHUNK],
    n: usize,
    start: usize,
    words: &mut [u32],
    at: usize,
) -> usize
    requires { ToldRoom told.now n start words.old at × (n ≡ 32) }
    ensures { ToldWritten told.now n start words.old words.new at result }
{
    let mut k = at;
    for i in (0..n).step_by(4) {
        k = write_turn(told, i, start, words, k);
        k = write_turn(told, i + 1, start, words, k);
        k = write_turn(told, i + 2, start, words, k);
        k = write_turn(told, i + 3, start, words, k);
    }
    k
}

impl Row<'_> {
    // Writes the turns among the dots `from` up to `to` of a row to the words from `at` on, and answers where they end. An odd place is
    // that of a run's end: there the last dot was ink. A word is stored at every dot and counts only at a turn.
    fn scan(self, from: usize, to: usize, words: &mut [u32], at: usize) -> usize
        requires { ScanRoom self.dots.now from to self.base words.old at }
        ensures { Scanned self.entry.dots.now from to self.entry.base words.old words.new at result }
    {
        let mut k = at;
        let mut before = (at % 2) as u8;
        for x in from..to {
            let here = (0 < self.dots[x]) as u8;
            words[k] = (self.base + x) as u32;
            k += (before != here) as usize;
            before = here;
        }
        k
    }

    // The same as `scan` for a chunk of 32 dots, n, which has no turns where its dots are all as the one before. Else its turns are told
    // at once and then written; at a row's start there is no dot before, and they are told one by one.
    fn scan_chunk(self, from: usize, n: usize, words: &mut [u32], at: usize) -> usize
        requires { ScanRoom self.dots.now from (from + 32) self.base words.old at × (n ≡ 32) }
        ensures { Scanned self.entry.dots.now from (from + 32) self.entry.base words.old words.new at result }
    {
        let to = from + CHUNK;
        if ink_count(&self.dots[from..to]) as usize == CHUNK * (at % 2) {
            return at;
        }
        if from == 0 {
            return self.scan(from, to, words, at);
        }
        let mut told = [0u8; CHUNK];
        tell_turns(&self.dots[from - 1..to], &mut told);
        write_turns(&told, n, self.base + from, words, at)
    }

    // The same for the dots `from` up to `to`, chunk by chunk. A chunk's count of dots is always 32 where there is a chunk, but not said
    // to be, which keeps the loop that writes its turns from being laid out dot by dot.
    fn scan_chunks(self, from: usize, to: usize, words: &mut [u32], at: usize) -> usize
        requires { ScanRoom self.dots.now from to self.base words.old at }
        ensures { Scanned self.entry.dots.now from to self.entry.base words.old words.new at result }
    {
        let n = self.dots.len().min(CHUNK);
        let mut k = at;
        let mut x = from;
        // `for x in (..).step_by(CHUNK)` proves too, but extraction of crowded pages took a twentieth longer.
        while CHUNK <= to - x {
            k = self.scan_chunk(x, n, words, k);
            x += CHUNK;
        }
        self.scan(x, to, words, k)
    }

    // The same for four chunks, 128 dots. On a page that is mostly blank one count is quicker than four.
    fn scan_four_chunks(self, from: usize, words: &mut [u32], at: usize) -> usize
        requires { ScanRoom self.dots.now from (from + 128) self.base words.old at }
        ensures { Scanned self.entry.dots.now from (from + 128) self.entry.base words.old words.new at result }
    {
        let to = from + FOUR_CHUNKS;
        if ink_count(&self.dots[from..to]) as usize == FOUR_CHUNKS * (at % 2) {
            return at;
        }
        self.scan_chunks(from, to, words, at)
    }

    // Writes the turns of the row to the words from `at` on, and answers where they end.
    pub fn extract(self, words: &mut [u32], at: usize) -> usize
        requires { RowRoom self.dots.now self.base words.old at }
        ensures { RowExtracted self.entry.dots.now self.entry.base words.old words.new at result }
    {
        let mut k = at;
        let mut x = 0;
        // `for x in (..).step_by(FOUR_CHUNKS)` proves too, but extraction of crowded pages took a twentieth longer.
        while FOUR_CHUNKS <= self.dots.len() - x {
            k = self.scan_four_chunks(x, words, k);
            x += FOUR_CHUNKS;
        }
        k = self.scan_chunks(x, self.dots.len(), words, k);
        if k % 2 == 0 {
            return k;
        }
        words[k] = (self.base + self.dots.len()) as u32;
        k + 1
    }
}

// Writes the runs of a mask, w wide and h high, to the words, and answers how many there are.
pub fn extract_runs(mask: &[u8], w: usize, h: usize, words: &mut [u32]) -> usize
    requires { PlaneRoom w h mask.now words.old }
    ensures { Extracted w h mask.now words.old words.new result }
{
    let mut k = 0;
    let mut base = 0;
    for y in 0..h {
        let end = base + w;
        let row = Row {
            dots: &mask[base..end],
            base,
        };
        k = row.extract(words, k);
        base = end;
    }
    k / 2
}
