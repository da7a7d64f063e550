// The kind of case that is the show program: an input, and what is printed for it.
use crate::text::{behind, half, number};
use memory::Refusal;

// The numbers before the bytes: how many the input has, and how many are printed.
const HEAD: usize = 2;

// The most bytes of an input, and those lent for what is printed.
const INPUT: usize = 8192;

const OUTPUT: usize = 16384;

// What stands in them at first: no printed byte.
const OLD_BYTE: u8 = 0x5a;

// Byte i of those that the digits spell, two digits a byte, which is less by the byte of the digit 0; that byte past the last.
fn byte(digits: &[u8], i: usize) -> u8 {
    if i < digits.len() / 2 {
        let from = i * 2;
        let end = from + 2;
        ((number(&digits[from..end]) % 256 + 48) % 256) as u8
    } else {
        b'0'
    }
}

// The first of the bytes, as many as there is room for.
fn read_bytes(digits: &[u8], room: &mut [u8]) {
    for (i, place) in room.iter_mut().enumerate() {
        *place = byte(digits, i);
    }
}

// Byte i of the output, of which so many are printed: past them it is as it was.
fn byte_left(digits: &[u8], printed: usize, i: usize) -> u8 {
    if i < printed {
        byte(digits, i)
    } else {
        OLD_BYTE
    }
}

// Whether the output has the printed bytes, and past them what stood there.
fn is_left(digits: &[u8], printed: usize, out: &[u8]) -> bool {
    out.iter()
        .enumerate()
        .all(|(i, b)| *b == byte_left(digits, printed, i))
}

// Whether so many bytes are told as printed.
fn is_told(answer: Result<u32, Refusal>, printed: usize) -> bool {
    match answer {
        Ok(bytes) => bytes as usize == printed,
        Err(_) => false,
    }
}

// Shows the input; whether as many bytes are printed as the digits spell, and these.
fn is_shown(input: &[u8], digits: &[u8], printed: usize) -> bool {
    let mut out = [OLD_BYTE; OUTPUT];
    let answer = showing::show(input, &mut out);
    is_told(answer, printed) & is_left(digits, printed, &out)
}

// Reads the input, as many bytes as there is room for, and shows it; what is printed stands behind so many numbers.
fn with_input(digits: &[u8], numbers: usize, printed: usize, input: &mut [u8]) -> bool {
    read_bytes(digits, input);
    is_shown(input, behind(digits, numbers), printed)
}

// 0E: how many bytes the input has, how many are printed; the input, and what is printed, both four bytes a number, each byte less by
// that of the digit 0.
pub fn show(body: &[u8]) -> bool {
    let n = half(body, 0) as usize;
    let printed = half(body, 1) as usize;
    if n > INPUT {
        return false;
    }
    if printed > OUTPUT {
        return false;
    }
    let numbers = (n + 3) / 4;
    if body.len() / 8 != HEAD + numbers + (printed + 3) / 4 {
        return false;
    }
    let mut input = [OLD_BYTE; INPUT];
    with_input(behind(body, HEAD), numbers, printed, &mut input[0..n])
}
