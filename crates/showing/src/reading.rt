// Digits read from a text.
ghost use Rattle.std.specs.Prelude.{◌≡◌, ◌+◌, ◌<◌, ◌≤◌, ◌^◌, length};
ghost use Rattle.showing.specs.rules.Inputs.{is_digit, digit_value, digits_at, number_at};

// Whether a byte is an upper-case hexadecimal digit.
#[tactic(auto, using(std::proofs::lemmas::Bool::Decides::nat_tests), unfolding(crate::specs::rules::Inputs::is_digit))]
fn is_digit(b: u8) -> bool
    ensures { result ≡ is_digit b }
{
    matches!(b, b'0'..=b'9' | b'A'..=b'F')
}

// Its value.
fn digit_value(b: u8) -> u64
    ensures { (result ≡ digit_value b) × (result < 16) }
{
    let v = if b <= b'9' { b } else { b - 55 };
    (v % 16) as u64
}

// Whether n digits stand at a place.
pub fn digits_at(s: &[u8], at: usize, n: usize) -> bool
    requires { at + n ≤ length s.now }
    ensures { result ≡ digits_at s.now at n }
{
    s[at..at + n].iter().all(|b| is_digit(*b))
}

// The number in the n digits at a place.
pub fn number_at(s: &[u8], at: usize, n: usize) -> u64
    requires { (at + n ≤ length s.now) × (n ≤ 16) }
    ensures { (result ≡ number_at s.now at n) × (result < 16 ^ n) }
{
    let mut v = 0;
    for b in &s[at..at + n] {
        v = v * 16 + digit_value(*b);
    }
    v
}

// A power of two.
pub fn power(k: usize) -> u64
    requires { k < 64 }
    ensures { (result ≡ 2 ^ k) × (0 < result) }
{
    1u64 << k
}
