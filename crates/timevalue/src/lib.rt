// The time values that writers and setters are called with: 64 bits that are a NaN's or a whole number of the range, or no time value.
#![tactic(auto)]

ghost use Rattle.std.specs.Prelude.{◌≡◌};
ghost use Rattle.timevalue.specs.TimeValue.{time_value_of};

// The range: 100,000,000 days either way of 1970, in milliseconds.
pub const TIME_RANGE: f64 = 8_640_000_000_000_000.0;

#[derive(Clone, Copy)]
pub enum TimeValue {
    // A whole number in the range, never -0.
    Time(f64),
    // NaN, by any of its patterns.
    Nan,
}

// None for an infinite, a fractional number or one beyond the range: refusal 2.
#[tactic(auto, unfolding(crate::specs::TimeValue::time_value_of))]
pub fn time_value(bits: u64) -> Option<TimeValue>
    ensures { result ≡ time_value_of bits }
{
    let x = float::of_bits(bits);
    if x.is_nan() {
        return Some(TimeValue::Nan);
    }
    if float::is_whole_within(x, TIME_RANGE) {
        // -0 counts as 0. A sum with 0.0 would do, but not where the processor rounds down: there it is -0.
        let time = if x == 0.0 { 0.0 } else { x };
        return Some(TimeValue::Time(time));
    }
    None
}
