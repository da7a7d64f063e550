// The median of a list, from how often each value occurs in it.
ghost use Rattle.std.specs.Prelude.{◌≡◌, List, ℕ, ◌≤◌, length};
ghost use Rattle.sorting.specs.rules.Units.{median};
ghost use Rattle.sorting.specs.stages.Counts.{CountsOf};

// The median of the list whose value v occurs counts[v] times, of `total` entries in all; 0 of none.
pub fn median_of_counts(counts: &[u32], total: u32) -> u32
    requires { length counts.now ≤ 4294967295 }
    ensures { (l : List ℕ) → CountsOf counts.now total l → result ≡ median l }
{
    let half = (total as u64) / 2;
    let mut below: u64 = 0;
    for (v, count) in counts.iter().enumerate() {
        let more = below + *count as u64;
        if half < more {
            return v as u32;
        }
        below = more;
    }
    0
}
