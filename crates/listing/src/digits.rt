// Hexadecimal digits, upper case.
ghost use Rattle.std.specs.Prelude.{◌≡◌, ◌+◌, ◌/◌, ◌%◌, ◌<◌, ◌≤◌, length};
ghost use Rattle.memory.specs.rules.Words.{over};
ghost use Rattle.listing.specs.rules.Digits.{digit_of, hex, refusal_text};
ghost use Rattle.listing.specs.stages.Parts.{refusal_length};
ghost use Rattle.listing.specs.stages.Puts.{Put};

// What ends a line.
pub const LINE_FEED: u8 = 10;

// The digit of a number below 16.
fn digit(d: u8) -> u8
    requires { d < 16 }
    ensures { result ≡ digit_of d }
{
    if d < 10 { b'0' + d } else { b'A' + (d - 10) }
}

// The two digits of a byte, the first before the last: every digit of a sheet comes from here.
fn pair(n: u8) -> (u8, u8)
    ensures { (result.0 ≡ digit_of (n / 16)) × (result.1 ≡ digit_of (n % 16)) }
{
    (digit(n / 16), digit(n % 16))
}

// The value in so many digits at a place; the place behind them.
pub fn put_hex(out: &mut [u8], at: usize, value: u32, digits: usize) -> usize
    requires { at + digits ≤ length out.old }
    ensures { Put out.old at (hex digits value) result out.new }
{
    let end = at + digits;
    let mut v = value;
    for k in 0..digits / 2 {
        let (high, low) = pair((v % 256) as u8);
        let done = end - 2 * k;
        out[done - 1] = low;
        out[done - 2] = high;
        v /= 256;
    }
    if digits % 2 == 1 {
        out[at] = pair((v % 16) as u8).1;
    }
    end
}

// A refusal's line over the front; its length.
pub fn put_refusal(out: &mut [u8], number: u32) -> usize
    requires { refusal_length ≤ length out.old }
    ensures { (result ≡ refusal_length) × (out.new ≡ over (refusal_text number) out.old) }
{
    let p = put_hex(out, 0, 255, 2);
    let q = put_hex(out, p, number, 2);
    out[q] = LINE_FEED;
    q + 1
}
