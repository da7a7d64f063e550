// What is asked of a chunk's dots, and told of them: without an early exit or a branch on a dot, so that many go at a time.
ghost use Rattle.std.specs.Prelude.{◌≡◌, cond, true, false, ◌&&◌, ℕ, ◌+◌, ◌-◌, ◌≤◌, ◌<◌, length, get_or, ltb};
ghost use Rattle.memory.specs.rules.Masks.{is_ink};
ghost use Rattle.extents.specs.stages.Bands.{Put};

// Whether no dot is ink.
pub fn is_blank(dots: &[u8]) -> bool
    ensures { result ≡ true → (k : ℕ) → k < length dots.now → is_ink dots.now k ≡ false }
{
    let mut blank = true;
    for dot in dots {
        blank &= *dot == 0;
    }
    blank
}

// Whether a dot and the one that `behind` has at its place are ink: the next one in a row, or the one below.
pub fn joins(dots: &[u8], behind: &[u8]) -> bool
    requires { length dots.now ≡ length behind.now }
    ensures { result ≡ false → (k : ℕ) → k < length dots.now → (is_ink dots.now k && is_ink behind.now k) ≡ false }
{
    let mut found = false;
    for (dot, next) in dots.iter().zip(behind) {
        found |= (0 < *dot) & (0 < *next);
    }
    found
}

// The extent of a dot: that of the next one, in its row or below, where both are ink, else its own count.
pub fn taken(b: u8, next: u8, own: u32, later: u32) -> u32
    ensures { result ≡ cond (ltb 0 b && ltb 0 next) later own }
{
    if (0 < b) & (0 < next) { later } else { own }
}

// Bytes as the words from `at` on.
pub fn widen(bytes: &[u8], at: usize, extents: &mut [u32])
    requires { at + length bytes.now ≤ length extents.old }
    ensures { Put (λ k. get_or bytes.now (k - at) 0) at (at + length bytes.now) extents.old extents.new }
{
    for (i, byte) in bytes.iter().enumerate() {
        extents[at + i] = *byte as u32;
    }
}
