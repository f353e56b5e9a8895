// Document 01's program: under the list (0, 0), one text a line in, out the number and, for 0, the time value and ISO text. It reads and
// writes; `datelines` says what is written.
#![tactic(auto)]

ghost use Rattle.std.specs.Prelude.{◌≤◌, length};

use datelines::{LONGEST_ANSWER, OpenLine};
use std::fmt;
use std::fmt::{Display, Formatter};
use std::io::{Read, Write};
use text::Output;

// How much is read at once.
const READ: usize = 4096;

// Room for what that answers: each byte may end a line.
const ROOM: usize = LONGEST_ANSWER * READ;

// What stops the program before the input has ended.
#[derive(Clone, Copy)]
enum Failure {
    Read,
    Write,
}

impl Display for Failure {
    fn fmt<W: fmt::Write>(&self, f: &mut Formatter<W>) -> fmt::Result {
        f.write_str(match self {
            Failure::Read => "cannot read standard input",
            Failure::Write => "cannot write to standard output",
        })
    }
}

// The answers to what was read go into the output, from its start: how many bytes they are. The input has ended where a read gives nothing: then
// a last line without a newline is answered.
#[tactic(auto, using(datelines::proofs::Streams::last_length))]
fn answer(chunk: &[u8], line: &mut OpenLine, bytes: &mut [u8; ROOM]) -> usize
    requires { length chunk.now ≤ READ }
    ensures { result ≤ ROOM }
{
    let mut output = Output::new(bytes);
    if chunk.is_empty() {
        line.finish(&mut output);
        return output.at;
    }
    line.feed(chunk, &mut output);
    output.at
}

// Reads once, no more than the output has room to answer, and writes the answers out. A read that fails is not the input's end. Answers whether
// more may come.
fn take_turn(
    rt: &HostRuntime,
    input: &mut [u8; READ],
    line: &mut OpenLine,
    bytes: &mut [u8; ROOM],
) -> Result<bool, Failure> {
    let n = rt.stdin().read(input).map_err(|_| Failure::Read)?;
    let end = answer(&input[..n], line, bytes);
    rt.stdout()
        .write_all(&bytes[..end])
        .map_err(|_| Failure::Write)?;
    Ok(n > 0)
}

// A proved loop has to end, and nothing says that an input does: the turns are counted to a number that no run uses up.
fn main(rt: HostRuntime) {
    let mut input = [0u8; READ];
    let mut line = OpenLine::new();
    let mut bytes = [0u8; ROOM];
    for _ in 0..u64::MAX {
        match take_turn(&rt, &mut input, &mut line, &mut bytes) {
            Ok(true) => (),
            Ok(false) => return,
            Err(failure) => {
                // Where that fails too, nothing is left to say it on.
                let _ = eprintln!(rt; "datecheck: {failure}");
                return;
            }
        }
    }
}
