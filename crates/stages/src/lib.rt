// The single stages, as the comparison with the original and the replay call them. Each function hands its arguments to the crate
// that does the work, and promises what that crate promises. No function asks anything of its caller. stages_c exports them all
// under their names to C.
#![tactic(auto)]

ghost use Rattle.std.specs.Prelude.{◌≡◌};
ghost use Rattle.rounding.specs.rules.Rounding.{round_half_away, round_to_unsigned, round_to_signed, round_output};
ghost use Rattle.rounding.specs.rules.Sums.{pairwise_sum};
ghost use Rattle.params.specs.rules.Valid.{valid};

mod frames;
mod levels;
mod masks;
mod pages;
mod sheets;
mod sorted_pages;
mod sorting_parts;

pub use levels::{
    novlizeb_applied, novlizeb_level_plane, novlizeb_plane_size, novlizeb_rect_to_page_end,
    novlizeb_rect_to_page_start, novlizeb_to_page_x, novlizeb_to_page_y,
};
pub use masks::{novlizeb_label, novlizeb_run_extents};
pub use pages::novlizeb_segment_plane;
use params::LayoutParams;
pub use sorted_pages::novlizeb_sort;
pub use sorting_parts::{
    novlizeb_cut_rulings, novlizeb_kind_by_size, novlizeb_run_min, novlizeb_thick_max,
    novlizeb_thin_rulings,
};

// x at the nearest whole number, halves away from zero.
pub fn novlizeb_round(x: f64) -> f64
    ensures { result ≡ round_half_away x }
{
    rounding::round(x)
}

// x rounded the same way, as a u32: the nearer end of the type's range beyond it, 0 for a NaN.
pub fn novlizeb_round_to_u32(x: f64) -> u32
    ensures { result ≡ round_to_unsigned 32 x }
{
    rounding::round_to_u32(x)
}

// x rounded the same way, as a usize: the nearer end of the type's range beyond it, 0 for a NaN.
pub fn novlizeb_round_to_usize(x: f64) -> usize
    ensures { result ≡ round_to_unsigned 64 x }
{
    rounding::round_to_usize(x)
}

// x rounded the same way, as an i32: the nearer end of the type's range beyond it, 0 for a NaN.
pub fn novlizeb_round_to_i32(x: f64) -> i32
    ensures { result ≡ round_to_signed 31 x }
{
    rounding::round_to_i32(x)
}

// x rounded the same way, as an i64: the nearer end of the type's range beyond it, 0 for a NaN.
pub fn novlizeb_round_to_i64(x: f64) -> i64
    ensures { result ≡ round_to_signed 63 x }
{
    rounding::round_to_i64(x)
}

// x at six decimals, either zero as 0.0.
pub fn novlizeb_round_output(x: f64) -> f64
    ensures { result ≡ round_output x }
{
    rounding::round_output(x)
}

// The sum of the values, by halves.
pub fn novlizeb_pairwise_sum(values: &[f64]) -> f64
    ensures { result ≡ pairwise_sum values.now }
{
    rounding::pairwise_sum(values)
}

// Whether a sheet is accepted.
pub fn novlizeb_validate(sheet: LayoutParams) -> bool
    ensures { result ≡ valid sheet }
{
    sheet.validate()
}
