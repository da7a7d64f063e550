// Lengths that the crate's loops share, and those of thin rulings.
ghost use Rattle.std.specs.Prelude.{◌≡◌, ◌+◌, ◌≤◌, ◌<◌, min};
ghost use Rattle.memory.specs.rules.Limits.{max_extent};

use memory::MAX_EXTENT;

// Where the chunk from x on ends: at most 64 dots, none from `end` on.
pub fn chunk_end(x: usize, end: usize) -> usize
    requires { x < end }
    ensures { (x < result) × (result ≤ end) × (result ≤ x + 64) }
{
    x + (end - x).min(64)
}

// The length of a run as an extent.
pub fn capped(run: usize) -> u32
    ensures { result ≡ min run max_extent }
{
    run.min(MAX_EXTENT as usize) as u32
}
