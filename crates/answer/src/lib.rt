// What a call answers. Inside, that is a `Result`: what the call made, or why it is refused. A C function answers its number, time value and
// length.
#![tactic(auto)]

ghost use Rattle.std.specs.Prelude.{◌≡◌, Ok};
ghost use Rattle.answer.specs.Answer.{refusal_number, refused_answer, answer_of, answer_of_time};

// Every NaN handed out has these bits.
pub const NAN_VALUE: u64 = 0x7FF8_0000_0000_0000;

// Why a call is refused: the faults of document 01's table, in its order.
#[derive(Clone, Copy, Debug, PartialEq, Eq)]
pub enum Refusal {
    // Zone list: length, order or offset outside its rule.
    ZoneList = 1,
    // Time value: infinite, fractional or beyond the range.
    TimeValue = 2,
    // Field record: empty, or not 1 + 8 × ones.
    RecordLength = 3,
    // Field record: a bit that the call hasn't got.
    RecordMap = 4,
    // Text: it ends where a byte is needed.
    TextEnds = 5,
    // Text: a byte not allowed there.
    TextByte = 6,
    // Text: a field outside its bounds, -000000, or hour 24 with a smaller field not 0.
    TextField = 7,
    // Text: a byte after the form.
    TextRest = 8,
    // The instant of a text is outside the range.
    Instant = 9,
    // ISO writer: NaN.
    NoTime = 10,
    // The output is shorter than the text.
    Output = 11,
}

// A text of `length` bytes was written for a time value, which is given by its bits.
#[derive(Clone, Copy, Debug, PartialEq, Eq)]
pub struct Text {
    pub value: u64,
    pub length: usize,
}

// As the header declares it.
#[repr(C)]
#[derive(Clone, Copy)]
pub struct Answer {
    pub number: u32,
    pub value: u64,
    pub length: usize,
}

// The table's numbers.
impl From<Refusal> for u32 {
    ghost from_gives = { λ f number. number ≡ refusal_number f };

    fn from(f: Refusal) -> u32 {
        f as u32
    }
}

impl From<Refusal> for Answer {
    ghost from_gives = { λ f answer. answer ≡ refused_answer f };

    fn from(f: Refusal) -> Answer {
        Answer {
            number: u32::from(f),
            value: NAN_VALUE,
            length: 0,
        }
    }
}

impl From<Text> for Answer {
    ghost from_gives = { λ text answer. answer ≡ answer_of (Ok text) };

    fn from(text: Text) -> Answer {
        Answer {
            number: 0,
            value: text.value,
            length: text.length,
        }
    }
}

// The writers and rewriting.
impl From<Result<Text, Refusal>> for Answer {
    ghost from_gives = { λ written answer. answer ≡ answer_of written };

    fn from(written: Result<Text, Refusal>) -> Answer {
        // of the refusal, or of the text
        written.map_or_else(Answer::from, Answer::from)
    }
}

// The reader, the builder and the setters: a time value, by its bits, and no text.
impl From<Result<u64, Refusal>> for Answer {
    ghost from_gives = { λ time answer. answer ≡ answer_of_time time };

    fn from(time: Result<u64, Refusal>) -> Answer {
        time.map_or_else(
            Answer::from,
            |value| Answer::from(Text { value, length: 0 }),
        )
    }
}
