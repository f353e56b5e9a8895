// What `datecheck` prints: document 01, "under the list (0, 0), one text a line in, out the number and, for 0, the time value and ISO text".
// The program reads and writes; all else is here, on slices.
#![tactic(auto)]

ghost use Rattle.std.specs.Prelude.{◌≡◌, ◌≤◌, length};
ghost use Rattle.std.specs.Float.{binary64};
ghost use Rattle.std.specs.Float.Ieee.{of_bits, to_signed};
ghost use Rattle.text.specs.Inner.{HasRoom, Appended};
ghost use Rattle.datelines.specs.Lines.{decimal, iso_of_bits, accepted_line, refused_line, newline, line_of, last_of, IsTimeBits, Appends};

mod open_line;

use itoa::{Buffer, Integer};
pub use open_line::OpenLine;
use text::Output;

// No answer to a line has more bytes, with its newline.
pub const LONGEST_ANSWER: usize = 64;

// ---- a line's answer

// A number in decimal.
fn put_number<I: Integer>(n: I, output: &mut Output)
    requires { HasRoom output.old I.MAX_STR_LEN }
    ensures digits { Appends output.old (I.text n) output.new }
    ensures short { length (I.text n) ≤ I.MAX_STR_LEN }
{
    output.put_all(Buffer::new().format(n).as_bytes());
}

fn put_iso(bits: u64, output: &mut Output)
    requires { IsTimeBits bits × HasRoom output.old 27 }
    ensures { Appends output.old (iso_of_bits bits) output.new }
{
    let written = writer::to_iso_string(bits, &mut output.bytes[output.at..]).unwrap();
    output.at += written.length;
}

fn end_line(output: &mut Output)
    requires { HasRoom output.old 1 }
    ensures { Appended output.old newline 1 output.new }
{
    output.put(b'\n');
}

// The whole number that a time value's bits stand for.
fn time_of(bits: u64) -> i64
    ensures { result ≡ to_signed 63 (of_bits binary64 bits) }
{
    float::as_i64(float::of_bits(bits))
}

#[tactic(auto, using(crate::proofs::Streams::iso_length))]
fn put_accepted(bits: u64, output: &mut Output)
    requires { IsTimeBits bits × HasRoom output.old LONGEST_ANSWER }
    ensures { Appends output.old (accepted_line bits) output.new }
{
    output.put_all(b"0 ");
    put_number(time_of(bits), output);
    output.put(b' ');
    put_iso(bits, output);
    end_line(output);
}

// The number of a refusal, which mostly has one digit.
fn put_refusal_number(number: u32, output: &mut Output)
    requires { HasRoom output.old 10 }
    ensures { Appends output.old (decimal number) output.new }
{
    if number < 10 {
        output.put(b'0' + number as u8);
    } else {
        put_number(number, output);
    }
}

fn put_refused(number: u32, output: &mut Output)
    requires { HasRoom output.old LONGEST_ANSWER }
    ensures { Appends output.old (refused_line number) output.new }
{
    put_refusal_number(number, output);
    output.put_all(b"\n");
}

// Writes the answer to a text.
pub fn put_line(text: &[u8], output: &mut Output)
    requires { HasRoom output.old LONGEST_ANSWER }
    ensures { Appends output.old (line_of text.now) output.new }
{
    let zone = [0u8; 12];
    match reader::read(&zone, text) {
        Ok(bits) => put_accepted(bits, output),
        Err(f) => put_refused(f.into(), output),
    }
}

// The input has ended: the answer to the line that is open then, if there is one.
#[tactic(auto, using(crate::proofs::Streams::last_none, crate::proofs::Streams::last_some))]
pub fn finish(line: &[u8], output: &mut Output)
    requires { HasRoom output.old LONGEST_ANSWER }
    ensures { Appends output.old (last_of line.now) output.new }
{
    if line.is_empty() {
        return;
    }
    put_line(line, output);
}
