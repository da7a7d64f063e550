// Rounding to whole numbers, the casts after it, and the sum of a list in a fixed order (math.rs).
#![tactic(auto)]

ghost use Rattle.std.specs.Prelude.{◌≡◌};
ghost use Rattle.rounding.specs.rules.Rounding.{round_half_away, round_to_unsigned, round_to_signed, round_output};
ghost use Rattle.rounding.specs.rules.Sums.{block_sum, pairwise_sum};

use std::num;

// A report's floats keep six decimals.
const OUTPUT_SCALE: f64 = 1_000_000.0;

// The most values that are summed left to right.
const BLOCK: usize = 8;

// Rust's `x.round()`. In place at its calls, so that a loop over drifts makes no call.
#[inline(always)]
pub fn round(x: f64) -> f64
    ensures { result ≡ round_half_away x }
{
    if (x >= 0.5) | (-x >= 0.5) {
        x.round()
    } else {
        // a zero with the sign of x, or a NaN: all drifts of a level page, and the library's rounding is as long for them as for any
        x * 0.0
    }
}

// Rust's `x.round() as u32`.
pub fn round_to_u32(x: f64) -> u32
    ensures { result ≡ round_to_unsigned 32 x }
{
    num::saturating_f64_to_u32(round(x))
}

// Rust's `x.round() as usize`.
pub fn round_to_usize(x: f64) -> usize
    ensures { result ≡ round_to_unsigned 64 x }
{
    num::saturating_f64_to_usize(round(x))
}

// Rust's `x.round() as i32`.
pub fn round_to_i32(x: f64) -> i32
    ensures { result ≡ round_to_signed 31 x }
{
    num::saturating_f64_to_i32(round(x))
}

// Rust's `x.round() as i64`.
pub fn round_to_i64(x: f64) -> i64
    ensures { result ≡ round_to_signed 63 x }
{
    num::saturating_f64_to_i64(round(x))
}

// x with six decimals, and 0.0 for either zero.
pub fn round_output(x: f64) -> f64
    ensures { result ≡ round_output x }
{
    let r = round(x * OUTPUT_SCALE) / OUTPUT_SCALE;
    if r == 0.0 { 0.0 } else { r }
}

// The sum of the values by halves, down to blocks that are summed left to right.
pub fn pairwise_sum(values: &[f64]) -> f64
    ensures { result ≡ pairwise_sum values.now }
{
    let n = values.len();
    if n <= BLOCK {
        block_sum(values)
    } else {
        let half = n / 2;
        let left = pairwise_sum(&values[..half]);
        let right = pairwise_sum(&values[half..]);
        left + right
    }
}

// The sum of the values left to right, from 0.0.
fn block_sum(values: &[f64]) -> f64
    ensures { result ≡ block_sum values.now }
{
    let mut sum = 0.0;
    for x in values {
        sum += *x;
    }
    sum
}
