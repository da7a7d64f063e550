// A float as two words, the low word first.
ghost use Rattle.std.specs.Prelude.{◌≡◌, ◌+◌, ◌*◌, ◌^◌, ◌<◌, length};
ghost use Rattle.std.specs.Float.{binary64};
ghost use Rattle.std.specs.Float.Ieee.{of_bits, to_bits};
ghost use Rattle.memory.specs.rules.Floats.{with_float, float_at};

// The bits of any float. A NaN has no one pattern, so all are written as the same one.
pub fn bits_of(x: f64) -> u64
    ensures { result ≡ to_bits binary64 x }
{
    if x != x {
        0x7ff8_0000_0000_0000
    } else {
        f64::to_bits(x)
    }
}

// The float of any bits; every pattern of a NaN is a NaN.
pub fn from_bits(b: u64) -> f64
    ensures { result ≡ of_bits binary64 b }
{
    if b % 0x8000_0000_0000_0000 > 0x7ff0_0000_0000_0000 {
        0.0 / 0.0
    } else {
        f64::from_bits(b)
    }
}

// x into the words at and at + 1.
pub fn put_float(out: &mut [u32], at: usize, x: f64)
    requires { at + 1 < length out.old }
    ensures { out.new ≡ with_float out.old at x }
{
    let b = bits_of(x);
    out[at] = (b % 4294967296) as u32;
    out[at + 1] = (b / 4294967296) as u32;
}

// The float whose bits are these two words.
fn joined(low: u32, high: u32) -> f64
    ensures { result ≡ of_bits binary64 (high * 2 ^ 32 + low) }
{
    let low = low as u64;
    let high = high as u64;
    from_bits(high * 4294967296 + low)
}

// The float that the words at and at + 1 are.
pub fn float_at(words: &[u32], at: usize) -> f64
    requires { at + 1 < length words.now }
    ensures { result ≡ float_at words.now at }
{
    joined(words[at], words[at + 1])
}
