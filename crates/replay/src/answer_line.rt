//! The answer line.
use answer::Answer;
use std::fmt;

/// What a call answers, and the bytes of the output at exit.
#[derive(Drop)]
pub(crate) struct AnswerLine<'a> {
    pub(crate) answer: Answer,
    pub(crate) output: &'a [u8],
}

impl fmt::Display for AnswerLine<'_> {
    fn fmt<W: fmt::Write>(&self, f: &mut fmt::Formatter<W>) -> fmt::Result {
        let Answer {
            number,
            value,
            length,
        } = self.answer;
        write!(f, "{number:02x} {value:016x} {length:04x} ")?;
        if self.output.is_empty() {
            return write!(f, "-");
        }
        for byte in self.output {
            write!(f, "{byte:02x}")?;
        }
        Ok(())
    }
}
