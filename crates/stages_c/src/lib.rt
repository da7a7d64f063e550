// The functions of `stages` under plain C names. Each hands its arguments to the function of its name there and promises what that
// promises. No function asks anything of its caller beyond the types: a slice comes as a pointer to its first element and then a
// length, the pointer valid for that many elements (and never null, not even for the length 0); a bool is one byte, 0 or 1.
#![tactic(auto)]

ghost use Rattle.std.specs.Prelude.{◌≡◌};
ghost use Rattle.rounding.specs.rules.Rounding.{round_half_away, round_to_unsigned, round_to_signed, round_output};
ghost use Rattle.rounding.specs.rules.Sums.{pairwise_sum};
ghost use Rattle.params.specs.rules.Valid.{valid};

mod levels;
mod masks;
mod pages;
mod sorted_pages;
mod sorting_parts;

use params::LayoutParams;

// x at the nearest whole number, halves away from zero.
#[unsafe(no_mangle)]
pub extern "C" fn novlizeb_round(x: f64) -> f64
    ensures { result ≡ round_half_away x }
{
    stages::novlizeb_round(x)
}

// x rounded the same way, as a u32: the nearer end of the type's range beyond it, 0 for a NaN.
#[unsafe(no_mangle)]
pub extern "C" fn novlizeb_round_to_u32(x: f64) -> u32
    ensures { result ≡ round_to_unsigned 32 x }
{
    stages::novlizeb_round_to_u32(x)
}

// x rounded the same way, as a usize: the nearer end of the type's range beyond it, 0 for a NaN.
#[unsafe(no_mangle)]
pub extern "C" fn novlizeb_round_to_usize(x: f64) -> usize
    ensures { result ≡ round_to_unsigned 64 x }
{
    stages::novlizeb_round_to_usize(x)
}

// x rounded the same way, as an i32: the nearer end of the type's range beyond it, 0 for a NaN.
#[unsafe(no_mangle)]
pub extern "C" fn novlizeb_round_to_i32(x: f64) -> i32
    ensures { result ≡ round_to_signed 31 x }
{
    stages::novlizeb_round_to_i32(x)
}

// x rounded the same way, as an i64: the nearer end of the type's range beyond it, 0 for a NaN.
#[unsafe(no_mangle)]
pub extern "C" fn novlizeb_round_to_i64(x: f64) -> i64
    ensures { result ≡ round_to_signed 63 x }
{
    stages::novlizeb_round_to_i64(x)
}

// x at six decimals, either zero as 0.0.
#[unsafe(no_mangle)]
pub extern "C" fn novlizeb_round_output(x: f64) -> f64
    ensures { result ≡ round_output x }
{
    stages::novlizeb_round_output(x)
}

// The sum of the values, by halves.
#[unsafe(no_mangle)]
pub extern "C" fn novlizeb_pairwise_sum(values: &[f64]) -> f64
    ensures { result ≡ pairwise_sum values.now }
{
    stages::novlizeb_pairwise_sum(values)
}

// Whether a sheet is accepted.
#[unsafe(no_mangle)]
pub extern "C" fn novlizeb_validate(sheet: LayoutParams) -> bool
    ensures { result ≡ valid sheet }
{
    stages::novlizeb_validate(sheet)
}
