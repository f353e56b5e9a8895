// `DateParser` of date/utils.rs up to the form of a text: year, date, time and zone, read from left to right. A stage answers what it read
// with the place after it, or the first fault. The form keeps how precise the text was, how many decimals it had, and how its year and zone
// were written; what it denotes is another crate's.
#![tactic(auto)]

ghost use Rattle.std.specs.Prelude.{◌≡◌, ◌≤◌, ◌<◌, ◌^◌, false, drop, MatchOption};
ghost use Rattle.std.specs.Range.{range_inclusive_start, range_inclusive_end, range_inclusive_exhausted};
ghost use Rattle.ecma262.specs.Format.{DecimalsBounds, thousandths, time_fields};
ghost use Rattle.parser.specs.Reading.{digits_upto, no_digit, all_digits, byte, within, signed_year, after, read_year, read_day, read_date, decimals_of, read_decimals, read_second, read_time, read_offset_minute, read_offset, read_zone, after_date, after_zone, time_allowed, time_part, read};
ghost use Rattle.parser.specs.Inner.{Reads, Ends, Next, IsDigit, NoDigit, Takes, block_upto, four_digits, as_is, optional, out, as_year, as_date, as_time, as_zone, as_reading};

use std::ops::RangeInclusive;

// Why a text is refused.
#[derive(Clone, Copy, Debug, PartialEq, Eq)]
pub enum Fault {
    // 5: the text ends where a byte is needed.
    Short,
    // 6: a byte not allowed there.
    Bad,
    // 7: a field outside its bounds, or -000000; hour 24 with a smaller field not 0.
    Range,
    // 8: a byte after the form.
    Trailing,
}

// Four digits, or a sign and six.
#[derive(Clone, Copy)]
pub enum Year {
    Four(u32),
    Six { negative: bool, year: u32 },
}

// The year alone, to the month, or to the day.
#[derive(Clone, Copy)]
pub enum Date {
    ToYear,
    ToMonth(u32),
    ToDay { month: u32, day: u32 },
}

// To the minute, to the second, or with decimals: how many digits, and the number that they write.
#[derive(Clone, Copy)]
pub enum Time {
    ToMinute {
        hour: u32,
        minute: u32,
    },
    ToSecond {
        hour: u32,
        minute: u32,
        second: u32,
    },
    ToDecimals {
        hour: u32,
        minute: u32,
        second: u32,
        places: usize,
        decimals: u32,
    },
}

// Decimals of a second as its thousandths.
fn thousandths(places: usize, decimals: u32) -> u32
    requires { (1 ≤ places) × (places ≤ 3) × (decimals < 10 ^ places) }
    ensures { result ≡ thousandths places decimals }
{
    match places {
        1 => 100 * decimals,
        2 => 10 * decimals,
        _ => decimals,
    }
}

// The fields of a time, an absent one being 0.
#[derive(Clone, Copy)]
pub struct TimeFields {
    pub hour: u32,
    pub minute: u32,
    pub second: u32,
    pub ms: u32,
}

impl Time {
    pub fn fields(self) -> TimeFields
        requires { DecimalsBounds (as_time self) }
        ensures { (result.hour ≡ (time_fields (as_time self)).hour) × (result.minute ≡ (time_fields (as_time self)).minute) × (result.second ≡ (time_fields (as_time self)).second) × (result.ms ≡ (time_fields (as_time self)).ms) }
    {
        match self {
            Time::ToMinute { hour, minute } => TimeFields {
                hour,
                minute,
                second: 0,
                ms: 0,
            },
            Time::ToSecond {
                hour,
                minute,
                second,
            } => TimeFields {
                hour,
                minute,
                second,
                ms: 0,
            },
            Time::ToDecimals {
                hour,
                minute,
                second,
                places,
                decimals,
            } => TimeFields {
                hour,
                minute,
                second,
                ms: thousandths(places, decimals),
            },
        }
    }
}

// No zone, `Z`, a sign and an hour, or a sign, an hour and a minute.
#[derive(Clone, Copy)]
pub enum Zone {
    Absent,
    Zulu,
    ToHour {
        negative: bool,
        hour: u32,
    },
    ToMinute {
        negative: bool,
        hour: u32,
        minute: u32,
    },
}

#[derive(Clone, Copy)]
pub enum Form {
    Date(Year, Date),
    Timed(Year, Date, Time, Zone),
}

// What a stage read and the place after it, or the first fault.
type Read<T> = Result<(T, usize), Fault>;

// ---- bytes and numbers

// The byte at a place, or none at the end.
fn peek(text: &[u8], at: usize) -> Option<u8>
    ensures { MatchOption result (Ends text.now at) (Next text.now at) }
{
    text.get(at).copied()
}

// The byte that has to stand at a place.
#[tactic(auto, unfolding(crate::specs::Reading::byte))]
fn next_expect(text: &[u8], at: usize, expected: u8) -> Read<u8>
    ensures { Reads (byte expected) text.now at (out as_is text.now result) }
{
    let next = peek(text, at).ok_or(Fault::Short)?;
    if next == expected {
        Ok((next, at + 1))
    } else {
        Err(Fault::Bad)
    }
}

// The digit at a place, as its byte, or none where no digit stands.
#[tactic(auto, using(crate::proofs::Runs::bytes))]
fn next_ascii_digit(text: &[u8], at: usize) -> Option<u8>
    ensures { MatchOption result (NoDigit text.now at) (IsDigit text.now at) }
{
    match peek(text, at) {
        Some(b) if b.is_ascii_digit() => Some(b),
        _ => None,
    }
}

// Up to `n` digits, joined one by one: "When N is small, process digits naively."
#[tactic(auto, using(crate::proofs::Runs::runs))]
fn few_digits(text: &[u8], at: usize, n: usize) -> (u32, usize)
    requires { n ≤ 8 }
    ensures { Takes (digits_upto n) text.now at result.0 result.1 }
{
    let mut value = 0;
    for i in 0..n {
        match next_ascii_digit(text, at + i) {
            Some(digit) => value = 10 * value + u32::from(digit - b'0'),
            None => return (value, i),
        }
    }
    (value, n)
}

// Up to `n` digits as a block, the first of them in the lowest byte.
#[tactic(auto, using(crate::proofs::Runs::gathers))]
fn next_n_ascii_digits(text: &[u8], at: usize, n: usize) -> (u64, usize)
    requires { n ≤ 8 }
    ensures { Takes (block_upto n) text.now at result.0 result.1 }
{
    let mut block = 0;
    for i in 0..n {
        match next_ascii_digit(text, at + i) {
            Some(digit) => block += u64::from(digit) << (8 * i),
            None => return (block, i),
        }
    }
    (block, n)
}

// The number of up to `n` digits, and how many stand there: few are joined as they are read, four as a block of 32 bits, more as one of 64.
#[tactic(auto, using(crate::proofs::Steps::blocks))]
fn parse_n_ascii_digits(text: &[u8], at: usize, n: usize) -> (u32, usize)
    requires { n ≤ 8 }
    ensures { Takes (digits_upto n) text.now at result.0 result.1 }
{
    if n < 4 {
        return few_digits(text, at, n);
    }
    let (block, count) = next_n_ascii_digits(text, at, n);
    if count == 0 {
        return (0, 0);
    }
    if n == 4 {
        return (fast_atoi::process_4(block as u32, count), count);
    }
    (fast_atoi::process_8(block, count) as u32, count)
}

// Why a digit that is needed isn't at a place.
fn no_digit(text: &[u8], at: usize) -> Fault
    ensures { result ≡ no_digit (drop at text.now) }
{
    match peek(text, at) {
        None => Fault::Short,
        Some(_) => Fault::Bad,
    }
}

// A number that needs all of its `n` digits.
#[tactic(auto, unfolding(crate::specs::Reading::after, crate::specs::Reading::all_of))]
fn all_digits(text: &[u8], at: usize, n: usize) -> Read<u32>
    requires { n ≤ 8 }
    ensures { Reads (all_digits n) text.now at (out as_is text.now result) }
{
    let (value, count) = parse_n_ascii_digits(text, at, n);
    let next = at + count;
    if count == n {
        Ok((value, next))
    } else {
        Err(no_digit(text, next))
    }
}

// A field of `n` digits, whose bounds are tested after all are read.
#[tactic(auto, unfolding(crate::specs::Reading::after, crate::specs::Reading::within))]
fn read_field(text: &[u8], at: usize, n: usize, bounds: RangeInclusive<u32>) -> Read<u32>
    requires { (n ≤ 8) × (range_inclusive_exhausted bounds ≡ false) }
    ensures { Reads (after (all_digits n) (within (range_inclusive_start bounds) (range_inclusive_end bounds))) text.now at (out as_is text.now result) }
{
    let (value, next) = all_digits(text, at, n)?;
    if bounds.contains(&value) {
        Ok((value, next))
    } else {
        Err(Fault::Range)
    }
}

// Where the next byte is `mark`, a field after it; else nothing.
#[tactic(auto, unfolding(crate::specs::Inner::optional, crate::specs::Reading::choose, crate::specs::Reading::after, crate::specs::Reading::give))]
fn field_after(
    text: &[u8],
    at: usize,
    mark: u8,
    n: usize,
    bounds: RangeInclusive<u32>,
) -> Read<Option<u32>>
    requires { (n ≤ 8) × (range_inclusive_exhausted bounds ≡ false) }
    ensures { Reads (optional mark (after (all_digits n) (within (range_inclusive_start bounds) (range_inclusive_end bounds)))) text.now at (out as_is text.now result) }
{
    match peek(text, at) {
        Some(b) if b == mark => {
            let (value, next) = read_field(text, at + 1, n, bounds)?;
            Ok((Some(value), next))
        }
        _ => Ok((None, at)),
    }
}

// ---- the year

// Six digits after a sign; `-000000` is no year.
#[tactic(auto, unfolding(crate::specs::Reading::after, crate::specs::Reading::signed_year))]
fn signed_year(text: &[u8], at: usize, negative: bool) -> Read<Year>
    ensures { Reads (after (all_digits 6) (signed_year negative)) text.now at (out as_year text.now result) }
{
    let (year, next) = all_digits(text, at, 6)?;
    if negative && year == 0 {
        return Err(Fault::Range);
    }
    Ok((Year::Six { negative, year }, next))
}

#[tactic(auto, unfolding(crate::specs::Reading::after, crate::specs::Reading::give))]
fn four_digit_year(text: &[u8], at: usize) -> Read<Year>
    ensures { Reads four_digits text.now at (out as_year text.now result) }
{
    let (year, next) = all_digits(text, at, 4)?;
    Ok((Year::Four(year), next))
}

#[tactic(auto, unfolding(crate::specs::Reading::read_year, crate::specs::Reading::choose))]
fn parse_year(text: &[u8], at: usize) -> Read<Year>
    ensures { Reads read_year text.now at (out as_year text.now result) }
{
    match peek(text, at) {
        Some(sign @ (b'+' | b'-')) => signed_year(text, at + 1, sign == b'-'),
        _ => four_digit_year(text, at),
    }
}

// ---- the date

// After a month: `-` and a day, or nothing of the date.
#[tactic(auto, using(crate::proofs::Steps::by_option), unfolding(crate::specs::Reading::read_day, crate::specs::Reading::give))]
fn parse_day(text: &[u8], at: usize, month: u32) -> Read<Date>
    ensures { Reads (read_day month) text.now at (out as_date text.now result) }
{
    match field_after(text, at, b'-', 2, 1..=31)? {
        (None, next) => Ok((Date::ToMonth(month), next)),
        (Some(day), next) => Ok((Date::ToDay { month, day }, next)),
    }
}

// After a year: `-` and a month, or nothing of the date.
#[tactic(auto, using(crate::proofs::Steps::by_option), unfolding(crate::specs::Reading::read_date, crate::specs::Reading::give))]
fn parse_month(text: &[u8], at: usize) -> Read<Date>
    ensures { Reads read_date text.now at (out as_date text.now result) }
{
    match field_after(text, at, b'-', 2, 1..=12)? {
        (None, next) => Ok((Date::ToYear, next)),
        (Some(month), next) => parse_day(text, next, month),
    }
}

// ---- the time

// After a `.`: one to three digits, "and no digit is 5 or 6".
#[tactic(auto, unfolding(crate::specs::Reading::decimals_of, crate::specs::Reading::after))]
fn one_to_three_digits(text: &[u8], at: usize, hour: u32, minute: u32, second: u32) -> Read<Time>
    ensures { Reads (after (digits_upto 3) (decimals_of hour minute second)) text.now at (out as_time text.now result) }
{
    let (decimals, places) = parse_n_ascii_digits(text, at, 3);
    if places == 0 {
        return Err(no_digit(text, at));
    }
    Ok((
        Time::ToDecimals {
            hour,
            minute,
            second,
            places,
            decimals,
        },
        at + places,
    ))
}

// After a second: `.` and one to three digits, or nothing of the time.
#[tactic(auto, unfolding(crate::specs::Reading::read_decimals, crate::specs::Reading::decimals_of, crate::specs::Reading::choose, crate::specs::Reading::after, crate::specs::Reading::give))]
fn parse_decimals(text: &[u8], at: usize, hour: u32, minute: u32, second: u32) -> Read<Time>
    ensures { Reads (read_decimals hour minute second) text.now at (out as_time text.now result) }
{
    match peek(text, at) {
        Some(b'.') => one_to_three_digits(text, at + 1, hour, minute, second),
        _ => Ok((
            Time::ToSecond {
                hour,
                minute,
                second,
            },
            at,
        )),
    }
}

// After `T`: hour, `:` and minute; then `:` and a second, or nothing of the time.
#[tactic(auto, using(crate::proofs::Steps::by_option), unfolding(crate::specs::Reading::read_time, crate::specs::Reading::read_second, crate::specs::Reading::after, crate::specs::Reading::give))]
fn parse_time(text: &[u8], at: usize) -> Read<Time>
    ensures { Reads read_time text.now at (out as_time text.now result) }
{
    let (hour, after_hour) = read_field(text, at, 2, 0..=24)?;
    let (_, after_colon) = next_expect(text, after_hour, b':')?;
    let (minute, after_minute) = read_field(text, after_colon, 2, 0..=59)?;
    match field_after(text, after_minute, b':', 2, 0..=59)? {
        (None, next) => Ok((Time::ToMinute { hour, minute }, next)),
        (Some(second), next) => parse_decimals(text, next, hour, minute, second),
    }
}

// ---- the zone

// After a sign: the offset's hour; then `:` and a minute, or nothing of the zone.
#[tactic(auto, using(crate::proofs::Steps::by_option), unfolding(crate::specs::Reading::read_offset, crate::specs::Reading::read_offset_minute, crate::specs::Reading::after, crate::specs::Reading::give))]
fn parse_offset(text: &[u8], at: usize, negative: bool) -> Read<Zone>
    ensures { Reads (read_offset negative) text.now at (out as_zone text.now result) }
{
    let (hour, after_hour) = read_field(text, at, 2, 0..=23)?;
    match field_after(text, after_hour, b':', 2, 0..=59)? {
        (None, next) => Ok((Zone::ToHour { negative, hour }, next)),
        (Some(minute), next) => Ok((
            Zone::ToMinute {
                negative,
                hour,
                minute,
            },
            next,
        )),
    }
}

// `Z`, an offset, or nothing of the zone.
#[tactic(auto, unfolding(crate::specs::Reading::read_zone, crate::specs::Reading::choose, crate::specs::Reading::give))]
fn parse_timezone(text: &[u8], at: usize) -> Read<Zone>
    ensures { Reads read_zone text.now at (out as_zone text.now result) }
{
    match peek(text, at) {
        Some(b'Z') => Ok((Zone::Zulu, at + 1)),
        Some(sign @ (b'+' | b'-')) => parse_offset(text, at + 1, sign == b'-'),
        _ => Ok((Zone::Absent, at)),
    }
}

// ---- the whole text

// Why a byte other than `T` is refused after a date.
fn after_date(d: Date) -> Fault
    ensures { result ≡ after_date (as_date d) }
{
    match d {
        Date::ToYear | Date::ToMonth(_) => Fault::Bad,
        Date::ToDay { .. } => Fault::Trailing,
    }
}

// Why a byte is refused after a zone.
fn after_zone(z: Zone) -> Fault
    ensures { result ≡ after_zone (as_zone z) }
{
    match z {
        Zone::Absent | Zone::ToHour { .. } => Fault::Bad,
        Zone::Zulu | Zone::ToMinute { .. } => Fault::Trailing,
    }
}

// "Hour 24 needs all smaller fields 0", however many decimals are written.
fn time_allowed(t: Time) -> bool
    requires { DecimalsBounds (as_time t) }
    ensures { result ≡ time_allowed (as_time t) }
{
    let f = t.fields();
    f.hour != 24 || f.minute == 0 && f.second == 0 && f.ms == 0
}

// After `T`: the time, the zone and the end.
#[tactic(auto, using(crate::proofs::Stages::decimals_read), unfolding(crate::specs::Reading::time_part, crate::specs::Reading::after, crate::specs::Reading::ending))]
fn parse_timed(text: &[u8], at: usize, year: Year, date: Date) -> Result<Form, Fault>
    ensures { as_reading result ≡ time_part (as_year year) (as_date date) (drop at text.now) }
{
    let (time, after_time) = parse_time(text, at)?;
    let (zone, next) = parse_timezone(text, after_time)?;
    match peek(text, next) {
        Some(_) => Err(after_zone(zone)),
        None if time_allowed(time) => Ok(Form::Timed(year, date, time, zone)),
        None => Err(Fault::Range),
    }
}

// The form of a text of any bytes, or the first fault.
#[tactic(auto, unfolding(crate::specs::Reading::read, crate::specs::Reading::after, crate::specs::Reading::rest))]
pub fn parse(text: &[u8]) -> Result<Form, Fault>
    ensures { as_reading result ≡ read text.now }
{
    let (year, after_year) = parse_year(text, 0)?;
    let (date, next) = parse_month(text, after_year)?;
    match peek(text, next) {
        None => Ok(Form::Date(year, date)),
        Some(b'T') => parse_timed(text, next + 1, year, date),
        Some(_) => Err(after_date(date)),
    }
}
