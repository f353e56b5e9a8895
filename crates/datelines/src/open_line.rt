ghost use Rattle.std.specs.Prelude.{◌≤◌};
ghost use Rattle.datelines.specs.declared.open_line.TheConstants.{MOST_KEPT};

use crate::{LONGEST_ANSWER, finish, put_line};
use text::Output;

// What ends a line.
const NEWLINE: u8 = b'\n';

// No more than 33 bytes are kept of a line: no accepted text is longer than 32.
const MOST_KEPT: usize = 33;

// The line that is open: the first `kept` bytes are its own, the others are as earlier lines left them.
#[derive(Clone, Copy)]
pub struct OpenLine {
    pub bytes: [u8; MOST_KEPT],
    pub kept: usize,
    pub ghost few: { kept ≤ MOST_KEPT },
}

impl OpenLine {
    ghost use Rattle.std.specs.Prelude.{◌≡◌, ◌*◌, [], length};
    ghost use Rattle.std.proofs.lemmas.List.Edits.{sets};
    ghost use Rattle.text.specs.Inner.{HasRoom};
    ghost use Rattle.datelines.specs.Lines.{behind, prints, emitted, left, lent, last_of, Appends};
    ghost use Rattle.datelines.specs.Fed.{begun, Feeds};

    // No line is open.
    pub fn new() -> OpenLine
        ensures { begun result ≡ [] }
    {
        OpenLine {
            bytes: [0; MOST_KEPT],
            kept: 0,
        }
    }

    // Takes in a byte.
    fn take_in(&mut self, b: u8, output: &mut Output)
        requires { HasRoom output.old LONGEST_ANSWER }
        ensures { Feeds (prints (begun self.old) b) (behind (begun self.old) b) (sets self.old.bytes 0 (behind (begun self.old) b)) LONGEST_ANSWER output.old self.new output.new }
    {
        if b == NEWLINE {
            put_line(&self.bytes[..self.kept], output);
            self.kept = 0;
        } else if self.kept < MOST_KEPT {
            self.bytes[self.kept] = b;
            self.kept += 1;
        }
    }

    // Takes in a chunk of the input: the answers of the lines that end in it go into the output.
    pub fn feed(&mut self, chunk: &[u8], output: &mut Output)
        requires { HasRoom output.old (LONGEST_ANSWER * length chunk.now) }
        ensures { Feeds (emitted (begun self.old) chunk.now) (left (begun self.old) chunk.now) (lent self.old.bytes (begun self.old) chunk.now) (LONGEST_ANSWER * length chunk.now) output.old self.new output.new }
    {
        for &b in chunk {
            self.take_in(b, output);
        }
    }

    // The input has ended.
    pub fn finish(&self, output: &mut Output)
        requires { HasRoom output.old LONGEST_ANSWER }
        ensures { Appends output.old (last_of (begun self.now)) output.new }
    {
        finish(&self.bytes[..self.kept], output);
    }
}
