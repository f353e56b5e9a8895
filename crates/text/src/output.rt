ghost use Rattle.std.specs.Prelude.{◌≡◌, ◌^◌, ◌<◌, [], ◌∷◌, length};
ghost use Rattle.ecma262.specs.Digits.{digits};

// A lent output, and the place in it where the next byte is put.
#[derive(Drop)]
pub struct Output<'a> {
    pub bytes: &'a mut [u8],
    pub at: usize,
}

impl<'a> Output<'a> {
    ghost use Rattle.text.specs.Inner.{HasRoom, Appended};

    // The place is the start of the bytes.
    pub fn new(bytes: &'a mut [u8]) -> Output<'a>
        ensures at_start { result.at ≡ 0 }
        ensures same_bytes { result.bytes.now ≡ bytes.old }
        ensures same_reference { result.bytes.ghost_name ≡ bytes.entry.ghost_name }
    {
        Output { bytes, at: 0 }
    }

    #[inline(always)]
    pub fn put(&mut self, b: u8)
        requires { HasRoom self.old 1 }
        ensures { Appended self.old (b ∷ []) 1 self.new }
    {
        self.bytes[self.at] = b;
        self.at += 1;
    }

    #[inline(always)]
    pub fn put_all(&mut self, text: &[u8])
        requires { HasRoom self.old (length text.now) }
        ensures { Appended self.old text.now (length text.now) self.new }
    {
        let end = self.at + text.len();
        self.bytes[self.at..end].copy_from_slice(text);
        self.at = end;
    }
}

// The last N decimal digits of a number that has no more, the highest first: it is what is left before the others, which no division has to show.
#[tactic(auto, using(crate::proofs::Places::no_place, crate::proofs::Places::all_places))]
#[inline(always)]
pub(crate) fn last_digits<const N: usize>(t: u32) -> [u8; N]
    requires { t < 10 ^ N }
    ensures { result ≡ digits N t }
{
    let mut bytes = [b'0'; N];
    let mut rest = t;
    for i in (0..N).rev() {
        let digit = if i == 0 { rest } else { rest % 10 };
        bytes[i] = b'0' + digit as u8;
        rest /= 10;
    }
    bytes
}
