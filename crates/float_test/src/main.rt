//! Runs the public functions of `float` on the pairs of patterns that stand in stdin, one pair to a line, and writes what each gives, one line to a
//! pair; `is_whole_within` and `exact_i64` run inside the casts. README.md says where stdin and stdout come from: Rust's own answers.
#![tactic(auto)]

use std::fmt;
use std::io::{Read, Write};

/// The bytes of a pattern: 16 digits.
const PATTERN: usize = 16;

/// The bytes of a line that is read: two patterns, and one byte after each.
const PAIR: usize = 2 * (PATTERN + 1);

/// The bytes of a line that is written: twelve patterns, and one byte after each.
const LINE: usize = 12 * (PATTERN + 1);

/// A proved loop ends: no more pairs than this are answered.
const MOST_PAIRS: u32 = 65_536;

/// What every function gives for x, or for x and y, as 64 bits each.
#[derive(Drop)]
struct Answers([u64; 12]);

impl Answers {
    fn at(x: f64, y: f64) -> Answers {
        Answers([
            float::bits_of(float::floor(x)),
            float::bits_of(float::trunc(x)),
            float::bits_of(float::abs(x)),
            float::bits_of(float::copysign(x, y)),
            float::bits_of(float::rem_euclid(x, y)),
            float::bits_of(float::to_integer_or_infinity(x)),
            u64::from(float::is_finite(x)),
            u64::from(float::is_nan(x)),
            u64::from(float::as_u8(x)),
            u64::from(float::as_u16(x)),
            i64::from(float::as_i32(x)).cast_unsigned(),
            float::as_i64(x).cast_unsigned(),
        ])
    }
}

impl fmt::Display for Answers {
    fn fmt<W: fmt::Write>(&self, f: &mut fmt::Formatter<W>) -> fmt::Result {
        for (column, answer) in self.0.iter().enumerate() {
            if column > 0 {
                write!(f, " ")?;
            }
            write!(f, "{answer:016x}")?;
        }
        Ok(())
    }
}

/// What a byte stands for in a pattern. Any byte stands for some number, so that a line is answered whatever stands in it.
fn digit(byte: u8) -> u64 {
    match byte {
        b'a'..=255 => u64::from(byte - b'a') + 10,
        b'0'..=b'`' => u64::from(byte - b'0'),
        _ => 0,
    }
}

/// The value whose pattern the digits write.
fn value(digits: &[u8]) -> f64 {
    float::of_bits(
        digits
            .iter()
            .fold(0, |bits, byte| (bits << 4) | digit(*byte)),
    )
}

/// Writes the answers, in one piece. A write that fails is passed over, and the next line's is tried all the same.
fn respond(rt: &HostRuntime, answers: &Answers) {
    let mut line = [0; LINE];
    let mut room = line.as_mut_slice();
    let _ = writeln!(room, "{answers}");
    let _ = rt.stdout().write_all(&line);
}

/// Answers each line as soon as it is read. Where no whole line is left, or a read fails, the input has ended.
fn main(rt: HostRuntime) {
    let mut pair = [0; PAIR];
    for _ in 0..MOST_PAIRS {
        if rt.stdin().read_exact(&mut pair).is_err() {
            return;
        }
        let (x, y) = pair.split_at(PATTERN + 1);
        respond(
            &rt,
            &Answers::at(value(&x[..PATTERN]), value(&y[..PATTERN])),
        );
    }
}
