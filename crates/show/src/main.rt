// The show program (01, "Leaves to try"): reads standard input to its end and writes what `showing::show` prints for it.
#![tactic(auto)]

ghost use Rattle.std.specs.Prelude.{◌≡◌, ◌≤◌, length, take};
ghost use Rattle.memory.specs.rules.Refusals.{answer_value};
ghost use Rattle.showing.specs.rules.Shows.{shown};
ghost use Rattle.showing.specs.stages.Rooms.{longest_shown};

use memory::Refusal;
use showing::read_full;
use std::io;
use std::io::{Read, Write};

// Longer than any well made input, which has at most 121 bytes.
const INPUT: usize = 4096;

// No sheet of a page of 16 by 16 is longer.
const OUTPUT: usize = 16384;

// A proved loop has to end, and nothing says that the input does: so many times what is read at once is read at most.
const MOST_READS: u64 = 1_000_000_000_000;

// Reads what is left of the input.
fn drain<R: Read>(input: &mut R) -> io::Result<()> {
    let mut room = [0u8; INPUT];
    for _ in 0..MOST_READS {
        if read_full(input, &mut room)? == 0 {
            break;
        }
    }
    Ok(())
}

// The value of an answer.
fn value_of(answer: Result<u32, Refusal>) -> u32
    ensures { result ≡ answer_value answer }
{
    answer.unwrap_or(0)
}

// What is printed for an input, in front of the bytes lent; how many bytes it is.
fn printed(input: &[u8], out: &mut [u8]) -> usize
    requires { longest_shown ≤ length out.old }
    ensures { (result ≤ length out.new) × (take result out.new ≡ shown input.now) }
{
    let answer = showing::show(input, out);
    value_of(answer) as usize
}

fn main(rt: HostRuntime) -> io::Result<()> {
    let mut input = [0u8; INPUT];
    let mut out = [0u8; OUTPUT];
    let mut stdin = rt.stdin();
    let n = read_full(&mut stdin, &mut input)?;
    drain(&mut stdin)?;
    let end = printed(&input[..n], &mut out);
    rt.stdout().write_all(&out[..end])
}
