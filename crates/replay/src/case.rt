//! A case, as a line writes it: a tag of four bytes and then its fields, one space before each.
ghost use Rattle.std.specs.Prelude.{◌≡◌};
ghost use Rattle.replay.specs.Case.{first_bytes};

use arrayvec::ArrayVec;

/// A line longer than this many bytes counts as several.
pub(crate) const LONGEST_LINE: usize = 1024;

/// No field of a line has more bytes.
pub(crate) const LONGEST_FIELD: usize = LONGEST_LINE / 2;

/// A field's bytes, and the number that the first eight are, the highest first.
#[derive(Drop)]
pub(crate) struct Field {
    pub(crate) bytes: ArrayVec<u8, LONGEST_FIELD>,
    pub(crate) word: u64,
}

#[derive(Drop)]
pub(crate) struct Case {
    pub(crate) tag: [u8; 4],
    pub(crate) first: Field,
    pub(crate) second: Field,
    pub(crate) third: Field,
    pub(crate) fourth: Field,
}

/// The first N bytes, with zero bytes for those that are missing.
fn leading<const N: usize>(bytes: &[u8]) -> [u8; N]
    ensures { result ≡ first_bytes N bytes.now }
{
    let mut first = [0; N];
    let there = bytes.len().min(N);
    first[..there].copy_from_slice(&bytes[..there]);
    first
}

/// What a byte stands for in a field. Any byte from `0` on is some digit, so that a field has its length whatever stands in it.
fn digit(byte: u8) -> Option<u8> {
    match byte {
        b'a'..=255 => Some((byte - b'a') % 6 + 10),
        b'0'..=b'`' => Some((byte - b'0') % 10),
        _ => None,
    }
}

fn byte_of_digits(digits: &[u8]) -> u8 {
    digits.iter().fold(0, |byte, digit| (byte << 4) | digit)
}

impl Field {
    /// A byte below `0` is passed over, as the `-` that stands for no byte and the newline. An odd last digit is a byte for the number alone.
    fn parse(text: &[u8]) -> Field {
        let mut digits = ArrayVec::<u8, LONGEST_LINE>::new();
        for digit in text.iter().filter_map(|byte| digit(*byte)) {
            let _ = digits.try_push(digit);
        }
        let mut bytes = ArrayVec::new();
        for pair in digits.chunks(2) {
            let _ = bytes.try_push(byte_of_digits(pair));
        }
        let word = u64::from_be_bytes(leading(&bytes));
        bytes.truncate(digits.len() / 2);
        Field { bytes, word }
    }
}

impl Case {
    /// A tag that is too short ends in zero bytes; a field that is missing is empty.
    pub(crate) fn parse(line: &[u8]) -> Case
        ensures { result.tag ≡ first_bytes 4 line.now }
    {
        let mut fields = line.split(|byte| *byte == b' ').skip(1);
        let mut field = || Field::parse(fields.next().unwrap_or(&[]));
        Case {
            tag: leading(line),
            first: field(),
            second: field(),
            third: field(),
            fourth: field(),
        }
    }
}
