// The field record, which a call's arguments are given in: lent bytes, a map and then 8 for each bit that stands in it.
#![tactic(auto)]

ghost use Rattle.std.specs.Prelude.{◌≡◌, true, ◌*◌, ◌/◌, ◌%◌, ◌<◌, length, drop, is_some, IfSome};
ghost use Rattle.std.specs.Int.Count.{ones};
ghost use Rattle.field_record.specs.FieldRecord.{map_of, has_length, has_other_bit};
ghost use Rattle.field_record.specs.Inner.{given, argument_of, after};

// Whether the map's ones fix this length.
#[tactic(auto, unfolding(crate::specs::FieldRecord::has_length))]
fn has_length(bytes: &[u8]) -> bool
    ensures { result ≡ has_length bytes.now }
{
    bytes
        .first()
        .is_some_and(|map| bytes.len() == 1 + 8 * (map.count_ones() as usize))
}

// A record of the right length.
#[derive(Clone, Copy)]
pub struct FieldRecord<'a> {
    pub bytes: &'a [u8],
    pub ghost filled: { has_length bytes.now ≡ true },
}

impl<'a> FieldRecord<'a> {
    // Refusal 3 is the answer `None`.
    pub fn new(bytes: &'a [u8]) -> Option<FieldRecord<'a>>
        ensures decided { is_some result ≡ has_length bytes.now }
        ensures kept { IfSome result (λ made. made.bytes.now ≡ bytes.now) }
    {
        if has_length(bytes) {
            Some(FieldRecord { bytes })
        } else {
            None
        }
    }

    // Whether a bit stands that a call of `bits` bits hasn't got: refusal 4 is the answer `true`.
    #[tactic(auto, using(crate::proofs::Laws::not_empty, crate::proofs::Laws::other_bit))]
    pub fn has_other_bit(self, bits: u32) -> bool
        requires { bits < 8 }
        ensures { result ≡ has_other_bit bits self.entry.bytes.now }
    {
        u32::from(self.bytes[0]) >> bits != 0
    }

    // The arguments from bit 0 on.
    #[tactic(auto, using(crate::proofs::Laws::not_empty, crate::proofs::Laws::from_record, crate::proofs::Laws::filled))]
    pub fn arguments(self) -> Arguments<'a>
        ensures value { argument_of result.map result.fields.now ≡ given self.entry.bytes.now }
        ensures left { (result.map ≡ map_of self.entry.bytes.now) × (result.fields.now ≡ drop 1 self.entry.bytes.now) }
    {
        Arguments {
            map: self.bytes[0],
            fields: &self.bytes[1..],
        }
    }
}

// The arguments from a bit on: the map's bits that are left, and the fields of those that stand.
#[derive(Clone, Copy)]
pub struct Arguments<'a> {
    pub map: u8,
    pub fields: &'a [u8],
    pub ghost filled: { length fields.now ≡ 8 * ones map },
}

impl<'a> Arguments<'a> {
    // The bit's field, where the bit stands; and on to the next bit.
    #[tactic(auto, using(crate::proofs::Laws::first_absent, crate::proofs::Laws::first_given, crate::proofs::Laws::later_absent, crate::proofs::Laws::later_given, crate::proofs::Laws::filled_absent, crate::proofs::Laws::room, crate::proofs::Laws::filled_given))]
    pub fn next(&mut self) -> Option<f64>
        ensures value { result ≡ argument_of self.old.map self.old.fields.now 0 }
        ensures on { argument_of self.new.map self.new.fields.now ≡ after (argument_of self.old.map self.old.fields.now) }
        ensures left { (self.new.map ≡ self.old.map / 2) × (self.new.fields.now ≡ drop (8 * (self.old.map % 2)) self.old.fields.now) }
    {
        let stands = self.map % 2 == 1;
        self.map >>= 1;
        if !stands {
            return None;
        }
        let value = float::of_bits(little_endian::u64_at(self.fields, 0));
        self.fields = &self.fields[8..];
        Some(value)
    }
}
