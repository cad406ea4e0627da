// Replays recorded answers of the oracle, which is the crate's own text, and of the plain Rust to merges, which the
// crate doesn't have, so that the port is held to them where there is no Rust. A line of the input is a call and its
// recorded answer; the last line is 0. `cargo run --release -p differential -- --record 7500` in host/ wrote the input
// (crates/replay/stdin); host/differential/src/answers.rs has the format. A call that is answered otherwise here, and a
// line that can't be read, is told by the number of its line. Some recorded answers were damaged on purpose, of each
// entry point some: crates/replay/stdout names them all (`--expect 7500` wrote it), so that a replay that agrees with
// everything fails. A read, a write or an allocation that fails ends the program with its error.
#![tactic(auto)]

mod answer;
mod calls;
mod output;
mod reader;

ghost use Rattle.std.specs.Prelude.{◌≡◌, ◌≤◌, take, IfOk, IfSome};

use reader::{Fault, Line, read_numbers};
use std::alloc::{AllocError, Global};
use std::io;
use std::io::Read;

// The most bytes of input. More are not read, and then the last line is missing.
const BYTES: usize = 524288;

// How many answers stand before the last line, None where it is missing, and how many lines differ.
#[derive(Clone, Copy)]
struct Replay {
    answers: Option<usize>,
    differ: usize,
}

// Whether a call is answered here as its line has it; None at the last line.
fn replay_line(alloc: Global, line: &[u8]) -> Result<Option<bool>, Fault> {
    let numbers = read_numbers(alloc, line)?;
    match numbers.as_slice() {
        [0] => Ok(None),
        rest => calls::agrees(Line { rest, alloc }).map(Some),
    }
}

// Replays the lines of a text up to the last one, and says at once which of them differ: to keep their numbers would
// take more memory than the text.
fn replay_text(rt: &HostRuntime, alloc: Global, text: &[u8]) -> io::Result<Replay>
    ensures { IfOk result (λ found. IfSome found.answers (λ answers. found.differ ≤ answers)) }
{
    let mut differ = 0;
    let lines = text.split_inclusive(|&byte| byte == b'\n');
    for (before, line) in lines.enumerate() {
        match replay_line(alloc, line.strip_suffix(b"\n").unwrap_or(line)) {
            Ok(None) => {
                let answers = Some(before);
                return Ok(Replay { answers, differ });
            }
            Ok(Some(true)) => {}
            Ok(Some(false)) | Err(Fault::Unreadable) => {
                differ += 1;
                let line = before + 1;
                println!(rt; "line {line} differs")?;
            }
            Err(Fault::OutOfMemory) => return Err(AllocError.into()),
        }
    }
    let answers = None;
    Ok(Replay { answers, differ })
}

// The bytes of the input, of which no more than BYTES are read.
fn read_text<R: Read + Drop>(alloc: Global, input: R) -> io::Result<Vec<u8>>
    ensures { IfOk result (λ text. IfSome (R.remaining input) (λ bytes. text.items ≡ take BYTES bytes)) }
{
    let mut text = Vec::new(alloc);
    input.take(BYTES as u64).read_to_end(&mut text)?;
    Ok(text)
}

fn main(rt: HostRuntime) -> io::Result<()> {
    let text = read_text(rt.alloc(), rt.stdin())?;
    let replay = replay_text(&rt, rt.alloc(), &text)?;
    let differ = replay.differ;
    match replay.answers {
        Some(answers) => println!(rt; "{answers} answers replayed, {differ} differ"),
        None => println!(rt; "the last line is missing"),
    }
}
