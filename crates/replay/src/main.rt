// Replays the list of cases with the Rust's answers that is its standard input, and writes how many
// cases there were and on how many this project answers otherwise. compare/list makes the list.
//
// A case is a line of upper-case hexadecimal: two digits of kind, four of how many digits follow, those,
// and a line feed. They are numbers of 32 bits, each a digit that counts its digits and then those. Two
// numbers are a word, the high half first. The words are the inputs and then the Rust's answers, as
// kinds.rt has them for each kind. A line that is not so made counts as a difference.
#![tactic(auto)]

mod histories;
mod kinds;
mod levels;
mod masks;
mod segments;
mod shows;
mod text;

use showing::read_full;
use std::io;
use std::io::Read;

// More cases than a list ever has.
const MOST_CASES: u64 = 1_000_000;

// Room for the longest case, of at most 65,535 digits and a line feed.
const CASE: usize = 65536;

// The digits before the numbers: those of the kind and of the count.
const HEAD: usize = 6;

const LINE_FEED: u8 = 10;

#[derive(Clone, Copy, Debug, PartialEq, Eq)]
struct Tally {
    cases: u64,
    differences: u64,
    // The number of the first case that differs, counted from 1.
    first: Option<u64>,
}

// Whether the case of these digits has the Rust's answer; they are spread into room.
fn agrees(kind: u64, digits: &[u8], room: &mut [u8]) -> bool {
    match text::spread(digits, room) {
        Some(n) => kinds::agrees(kind, &room[..n]),
        None => false,
    }
}

// Reads the digits of a case and its line feed into bytes: whether they have the Rust's answer.
fn judge_body<R: Read>(
    input: &mut R,
    kind: u64,
    count: u64,
    bytes: &mut [u8],
    room: &mut [u8],
) -> io::Result<bool> {
    let digits = count as usize;
    if digits >= bytes.len() {
        return Ok(false);
    }
    let end = digits + 1;
    let got = read_full(input, &mut bytes[0..end])?;
    if got != end {
        return Ok(false);
    }
    if bytes[digits] != LINE_FEED {
        return Ok(false);
    }
    let body = &bytes[0..digits];
    Ok(text::are_digits(body) & agrees(kind, body, room))
}

// Reads the next case, unless the input has ended: whether it has the Rust's answer. Both rooms are of the length of the longest case, and are
// lent, since blanking them anew for each case takes longer than a short case.
fn next_case<R: Read>(
    input: &mut R,
    bytes: &mut [u8],
    room: &mut [u8],
) -> io::Result<Option<bool>> {
    let mut head = [0u8; HEAD];
    let got = read_full(input, &mut head)?;
    if got == 0 {
        return Ok(None);
    }
    if got != HEAD {
        return Ok(Some(false));
    }
    if !text::are_digits(&head) {
        return Ok(Some(false));
    }
    let same = judge_body(
        input,
        text::number(&head[0..2]),
        text::number(&head[2..]),
        bytes,
        room,
    )?;
    Ok(Some(same))
}

// Every case of the input, counted.
fn replay<R: Read>(input: &mut R) -> io::Result<Tally> {
    let mut tally = Tally {
        cases: 0,
        differences: 0,
        first: None,
    };
    let mut bytes = [0u8; CASE];
    let mut room = [0u8; CASE];
    for cases in 0..MOST_CASES {
        let Some(same) = next_case(input, &mut bytes, &mut room)? else {
            break;
        };
        if !same {
            tally.differences += 1;
            tally.first = tally.first.or(Some(cases + 1));
        }
        tally.cases = cases + 1;
    }
    Ok(tally)
}

fn main(rt: HostRuntime) -> io::Result<()> {
    let mut stdin = rt.stdin();
    let tally = replay(&mut stdin)?;
    let cases = tally.cases;
    let differences = tally.differences;
    println!(rt; "replayed {cases} cases, {differences} differences")?;
    if let Some(first) = tally.first {
        println!(rt; "the first is case {first}")?;
    }
    Ok(())
}
