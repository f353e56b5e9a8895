// `Peekable` in the Rust's `DateParser`: "a reader holding the lent text and the next index, thin, above plain functions". It is taken apart at
// once, and the reading is done on the text and an index.
#![tactic(auto)]

ghost use Rattle.std.specs.Prelude.{◌≡◌, drop};
ghost use Rattle.parser.specs.Reading.{read};
ghost use Rattle.parser.specs.Inner.{as_reading};

use parser::{Fault, Form};

#[derive(Clone, Copy)]
pub struct Reader<'a> {
    pub text: &'a [u8],
    pub at: usize,
}

impl<'a> Reader<'a> {
    // The reader at the start of a text.
    pub fn new(text: &'a [u8]) -> Reader<'a>
        ensures { (result.text ≡ text.entry) × (result.at ≡ 0) }
    {
        Reader { text, at: 0 }
    }

    // The form of all that is left.
    pub fn parse(self) -> Result<Form, Fault>
        ensures { as_reading result ≡ read (drop self.entry.at self.entry.text.now) }
    {
        parse_at(self.text, self.at)
    }
}

// ---- the reading, of a plain text from an index on

// The form of a text from an index on, or the first fault. Past the end nothing is left, as at the end.
pub fn parse_at(text: &[u8], at: usize) -> Result<Form, Fault>
    ensures { as_reading result ≡ read (drop at text.now) }
{
    parser::parse(text.get(at..).unwrap_or(&[]))
}

// The form of a whole text.
pub fn parse_text(text: &[u8]) -> Result<Form, Fault>
    ensures { as_reading result ≡ read text.now }
{
    Reader::new(text).parse()
}
