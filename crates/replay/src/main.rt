//! Replays stored answers of the original: reads a case a line, calls our function, writes the answer line. The format is in
//! differential/README.md; README.md beside this says where stdin and stdout come from.
#![tactic(auto)]

use arrayvec::ArrayVec;
use case::{Case, LONGEST_FIELD, LONGEST_LINE};
use std::io;
use std::io::{Read, Write};

mod answer_line;
mod calls;
mod case;

/// No answer has more bytes: number, value and length, two digits for each byte of a field, and what parts and ends them.
const LONGEST_ANSWER: usize = 26 + 2 * LONGEST_FIELD;

/// A proved loop ends: no more lines than this are answered.
const MOST_LINES: u32 = 1_000_000;

/// The next line, with its newline where it has one. It is read a byte at a time, so that no byte behind it is taken. A read that fails ends the
/// input.
fn next_line(rt: &HostRuntime) -> Option<ArrayVec<u8, LONGEST_LINE>> {
    let mut line = ArrayVec::new();
    let mut byte = [0];
    for _ in 0..LONGEST_LINE {
        if rt.stdin().read_exact(&mut byte).is_err() {
            break;
        }
        let _ = line.try_push(byte[0]);
        if byte[0] == b'\n' {
            break;
        }
    }
    (!line.is_empty()).then_some(line)
}

/// Writes the answer to a case. A tag that is not known shows as a difference.
fn write_answer(mut case: Case, writer: &mut impl Write) -> io::Result<()> {
    let tag = case.tag;
    if let Some(answer) = case.answer_line() {
        return writeln!(writer, "{answer}");
    }
    writer.write_all(b"unknown ")?;
    writer.write_all(&tag)?;
    writer.write_all(b"\n")
}

/// Answers a case, in one piece. A write that fails is passed over, and the next line's is tried all the same.
fn respond(rt: &HostRuntime, line: &[u8]) {
    let mut bytes = [0; LONGEST_ANSWER];
    let mut room = bytes.as_mut_slice();
    let _ = write_answer(Case::parse(line), &mut room);
    let length = LONGEST_ANSWER.saturating_sub(room.len());
    let _ = rt.stdout().write_all(&bytes[..length]);
}

/// Answers each line as soon as it is read.
fn main(rt: HostRuntime) {
    for _ in 0..MOST_LINES {
        let Some(line) = next_line(&rt) else {
            return;
        };
        respond(&rt, &line);
    }
}
