// Upper-case hexadecimal digits, and the numbers and words of a case.
ghost use Rattle.std.specs.Prelude.{◌≤◌, ◌<◌, length, IfSome};

// The digits of a number when it is spread.
const SPREAD: usize = 8;

// The value of a digit.
pub fn digit(b: u8) -> Option<u8>
    ensures { IfSome result (λ d. d < 16) }
{
    match b {
        b'0'..=b'9' => Some(b - b'0'),
        b'A'..=b'F' => Some(b - b'A' + 10),
        _ => None,
    }
}

// Whether every byte is a digit.
pub fn are_digits(text: &[u8]) -> bool {
    text.iter().all(|b| digit(*b).is_some())
}

// n with one digit more at its end, the digits above 16 dropped; 0 where a byte is no digit.
fn with_digit(n: u64, b: u8) -> u64 {
    n % 0x1000_0000_0000_0000 * 16 + digit(b).unwrap_or(0) as u64
}

// The number that the digits spell, by its last 16 digits.
pub fn number(text: &[u8]) -> u64 {
    text.iter().fold(0, |n, b| with_digit(n, *b))
}

// A number's digits, at the end of as much room, after zeros; the first of them where there is less room.
fn put(digits: &[u8], room: &mut [u8]) {
    let n = digits.len().min(room.len());
    let zeros = room.len() - n;
    room[..zeros].fill(b'0');
    room[zeros..].copy_from_slice(&digits[..n]);
}

// Where the number ends whose count of digits stands at `at`, unless it has more digits than a number, or its text is too short.
fn number_end(text: &[u8], at: usize) -> Option<usize>
    ensures { IfSome result (λ end. (at < end) × (end ≤ length text.now)) }
{
    let n = digit(*text.get(at)?)? as usize;
    if (n <= SPREAD) & (n < text.len() - at) {
        Some(at + 1 + n)
    } else {
        None
    }
}

// Spreads numbers, each a digit that counts its digits and then those, to eight digits each, and answers how many digits that makes,
// unless the text is not so made or has more numbers than there is room for.
pub fn spread(text: &[u8], room: &mut [u8]) -> Option<usize>
    ensures { IfSome result (λ n. n ≤ length room.new) }
{
    // a walk, not a count: each number tells where the next begins
    let mut at = 0;
    let mut to = 0;
    while at < text.len() {
        let end = number_end(text, at)?;
        if room.len() - to < SPREAD {
            return None;
        }
        let from = at + 1;
        let next = to + SPREAD;
        put(&text[from..end], &mut room[to..next]);
        at = end;
        to = next;
    }
    Some(to)
}

// The number at i of those that are spread, or 0 past the last.
pub fn half(body: &[u8], i: usize) -> u32 {
    if i < body.len() / SPREAD {
        let from = i * SPREAD;
        let end = from + SPREAD;
        (number(&body[from..end]) % 0x1_0000_0000) as u32
    } else {
        0
    }
}

// What is left of them behind the first n.
pub fn behind(body: &[u8], n: usize) -> &[u8] {
    if n < body.len() / SPREAD {
        let from = n * SPREAD;
        &body[from..]
    } else {
        &body[0..0]
    }
}

// How many words the digits are.
pub fn count(body: &[u8]) -> usize {
    body.len() / 16
}

// The word at i, or 0 past the last.
pub fn word(body: &[u8], i: usize) -> u64 {
    if i < body.len() / 16 {
        let from = i * 16;
        let end = from + 16;
        number(&body[from..end])
    } else {
        0
    }
}

// The u32 that is the word at i, by its low half.
pub fn whole(body: &[u8], i: usize) -> u32 {
    (word(body, i) % 0x1_0000_0000) as u32
}

// The number whose two's complement at 64 bits the word is.
pub fn signed(word: u64) -> i64 {
    word.cast_signed()
}
