// The texts of dates, printed from whole-number fields into a lent output, in place.
#![tactic(auto)]

ghost use Rattle.std.specs.Prelude.{◌≡◌, [], ◌∷◌, ◌++◌, ◌+◌, ◌^◌, ◌≤◌, ◌<◌, length, nat_abs};
ghost use Rattle.ecma262.specs.Digits.{digits};
ghost use Rattle.ecma262.specs.Texts.{ascii, iso_year, iso_date, iso_time, iso_of, clock_of, day_name, month_name, padded_year, year_sign, signed_year, time_string_of, offset_sign, time_zone_string, utc_of, local_of, invalid_date};
ghost use Rattle.text.specs.Inner.{HasRoom, Appended, Prints, whole_of, utc_head, local_head, year_and_time};

mod fields;
mod output;

pub use fields::DateFields;
pub use output::Output;
use output::last_digits;

// ---- digits

#[inline(always)]
fn pad<const N: usize>(t: u32, output: &mut Output)
    requires { (t < 10 ^ N) × HasRoom output.old N }
    ensures { Appended output.old (digits N t) N output.new }
{
    output.put_all(&last_digits::<N>(t));
}

#[inline(always)]
pub fn pad_two(t: u8, output: &mut Output)
    requires { (t < 100) × HasRoom output.old 2 }
    ensures { Appended output.old (digits 2 t) 2 output.new }
{
    pad::<2>(u32::from(t), output);
}

#[inline(always)]
pub fn pad_three(t: u16, output: &mut Output)
    requires { (t < 1000) × HasRoom output.old 3 }
    ensures { Appended output.old (digits 3 t) 3 output.new }
{
    pad::<3>(u32::from(t), output);
}

#[inline(always)]
pub fn pad_four(t: u32, output: &mut Output)
    requires { (t < 10000) × HasRoom output.old 4 }
    ensures { Appended output.old (digits 4 t) 4 output.new }
{
    pad::<4>(t, output);
}

#[inline(always)]
pub fn pad_five(t: u32, output: &mut Output)
    requires { (t < 100000) × HasRoom output.old 5 }
    ensures { Appended output.old (digits 5 t) 5 output.new }
{
    pad::<5>(t, output);
}

#[inline(always)]
pub fn pad_six(t: u32, output: &mut Output)
    requires { (t < 1000000) × HasRoom output.old 6 }
    ensures { Appended output.old (digits 6 t) 6 output.new }
{
    pad::<6>(t, output);
}

// ---- the names

const DAY_NAMES: [[u8; 3]; 7] = [
    *b"Sun", *b"Mon", *b"Tue", *b"Wed", *b"Thu", *b"Fri", *b"Sat",
];

const MONTH_NAMES: [[u8; 3]; 12] = [
    *b"Jan", *b"Feb", *b"Mar", *b"Apr", *b"May", *b"Jun", *b"Jul", *b"Aug", *b"Sep", *b"Oct",
    *b"Nov", *b"Dec",
];

#[tactic(auto, unfolding(ecma262::specs::Texts::day_name))]
pub fn day_name(weekday: u8) -> [u8; 3]
    requires { weekday < 7 }
    ensures { result ≡ day_name weekday }
{
    DAY_NAMES[usize::from(weekday)]
}

#[tactic(auto, unfolding(ecma262::specs::Texts::month_name))]
pub fn month_name(month: u8) -> [u8; 3]
    requires { month < 12 }
    ensures { result ≡ month_name month }
{
    MONTH_NAMES[usize::from(month)]
}

#[inline(always)]
pub fn put_name(name: [u8; 3], output: &mut Output)
    requires { HasRoom output.old 3 }
    ensures { Appended output.old name 3 output.new }
{
    output.put_all(&name);
}

// A separator and two digits.
#[inline(always)]
fn put_two(separator: u8, t: u8, output: &mut Output)
    requires { (t < 100) × HasRoom output.old 3 }
    ensures { Appended output.old (separator ∷ digits 2 t) 3 output.new }
{
    output.put(separator);
    pad_two(t, output);
}

// `HH:mm:ss`.
#[inline(always)]
fn put_clock(f: DateFields, output: &mut Output)
    requires { HasRoom output.old 8 }
    ensures { Appended output.old (clock_of (whole_of f)) 8 output.new }
{
    pad_two(f.hour, output);
    put_two(b':', f.minute, output);
    put_two(b':', f.second, output);
}

// ---- years

#[tactic(auto, using(crate::proofs::Tested::below_long, crate::proofs::Tested::four_long, crate::proofs::Tested::above_long))]
fn iso_year_length(year: i32) -> usize
    ensures { (length (iso_year year) ≡ result) × (result ≤ 7) }
{
    if (0..10000).contains(&year) { 4 } else { 7 }
}

// Four digits, or a sign and six.
#[inline(always)]
fn put_iso_year(year: i32, output: &mut Output)
    requires { (nat_abs year ≤ 999999) × HasRoom output.old 7 }
    ensures { Appended output.old (iso_year year) (length (iso_year year)) output.new }
{
    let y = year.unsigned_abs();
    match year {
        ..0 => {
            output.put(b'-');
            pad_six(y, output);
        }
        0..=9999 => pad_four(y, output),
        _ => {
            output.put(b'+');
            pad_six(y, output);
        }
    }
}

// ---- the ISO text

// `-MM-DD`, the month from 01.
#[inline(always)]
fn put_iso_date(f: DateFields, output: &mut Output)
    requires { HasRoom output.old 6 }
    ensures { Appended output.old (iso_date (whole_of f)) 6 output.new }
{
    put_two(b'-', f.month + 1, output);
    put_two(b'-', f.date, output);
}

// `THH:mm:ss.sssZ`.
#[inline(always)]
fn put_iso_time(f: DateFields, output: &mut Output)
    requires { HasRoom output.old 14 }
    ensures { Appended output.old (iso_time (whole_of f)) 14 output.new }
{
    output.put(b'T');
    put_clock(f, output);
    output.put(b'.');
    pad_three(f.ms, output);
    output.put(b'Z');
}

// The text of `to_iso_string`.
pub fn iso_string(f: DateFields, output: &mut [u8]) -> Option<usize>
    ensures { Prints (iso_of (whole_of f)) output.old output.new result }
{
    let length = iso_year_length(f.year) + 20;
    if output.len() < length {
        return None;
    }
    let mut text = Output::new(output);
    put_iso_year(f.year, &mut text);
    put_iso_date(f, &mut text);
    put_iso_time(f, &mut text);
    Some(length)
}

// ---- the year of the UTC and the local text

#[tactic(auto, using(crate::proofs::Tested::four_padded, crate::proofs::Tested::five_padded, crate::proofs::Tested::six_padded))]
fn padded_length(y: u32) -> usize
    ensures { (length (padded_year y) ≡ result) × (4 ≤ result) × (result ≤ 6) }
{
    match y {
        0..=9999 => 4,
        10000..=99999 => 5,
        _ => 6,
    }
}

// At least four digits.
#[inline(always)]
fn put_padded_year(y: u32, output: &mut Output)
    requires { (y < 1000000) × HasRoom output.old 6 }
    ensures { Appended output.old (padded_year y) (length (padded_year y)) output.new }
{
    match y {
        0..=9999 => pad_four(y, output),
        10000..=99999 => pad_five(y, output),
        _ => pad_six(y, output),
    }
}

fn signed_length(year: i32) -> usize
    ensures { (length (signed_year year) ≡ result) × (4 ≤ result) × (result ≤ 7) }
{
    let n = padded_length(year.unsigned_abs());
    if year < 0 { n + 1 } else { n }
}

// `-` before a negative year, nothing before another.
#[inline(always)]
fn put_year_sign(year: i32, output: &mut Output)
    requires { HasRoom output.old 1 }
    ensures { Appended output.old (year_sign year) (length (year_sign year)) output.new }
{
    if year < 0 {
        output.put(b'-');
    }
}

#[inline(always)]
fn put_signed_year(year: i32, output: &mut Output)
    requires { (nat_abs year ≤ 999999) × HasRoom output.old 7 }
    ensures { Appended output.old (signed_year year) (length (signed_year year)) output.new }
{
    put_year_sign(year, output);
    put_padded_year(year.unsigned_abs(), output);
}

// ---- DateString, TimeString, TimeZoneString

// `HH:mm:ss GMT`.
#[inline(always)]
pub fn time_string(f: DateFields, output: &mut Output)
    requires { HasRoom output.old 12 }
    ensures { Appended output.old (time_string_of (whole_of f)) 12 output.new }
{
    put_clock(f, output);
    output.put_all(b" GMT");
}

#[tactic(auto, using(crate::proofs::Tested::minus, crate::proofs::Tested::plus))]
fn offset_sign(offset: i32) -> u8
    ensures { result ∷ [] ≡ offset_sign offset }
{
    if offset < 0 { b'-' } else { b'+' }
}

// The suffix, from an offset in seconds. Its seconds are cut off.
#[inline(always)]
pub fn time_zone_string(offset: i32, output: &mut Output)
    requires { (nat_abs offset ≤ 86399) × HasRoom output.old 5 }
    ensures { Appended output.old (time_zone_string offset) 5 output.new }
{
    let seconds = offset.unsigned_abs();
    output.put(offset_sign(offset));
    pad_two((seconds / 3600) as u8, output);
    pad_two((seconds / 60 % 60) as u8, output);
}

// ---- the UTC and the local text

// `Www, DD Mmm `.
#[inline(always)]
fn put_utc_head(f: DateFields, output: &mut Output)
    requires { HasRoom output.old 12 }
    ensures { Appended output.old (utc_head f.weekday (whole_of f)) 12 output.new }
{
    put_name(day_name(f.weekday), output);
    output.put(b',');
    put_two(b' ', f.date, output);
    output.put(b' ');
    put_name(month_name(f.month), output);
    output.put(b' ');
}

// `Www Mmm DD `.
#[inline(always)]
fn put_local_head(f: DateFields, output: &mut Output)
    requires { HasRoom output.old 11 }
    ensures { Appended output.old (local_head f.weekday (whole_of f)) 11 output.new }
{
    put_name(day_name(f.weekday), output);
    output.put(b' ');
    put_name(month_name(f.month), output);
    put_two(b' ', f.date, output);
    output.put(b' ');
}

// What both texts have behind their head: the year, a space and the time.
#[inline(always)]
fn put_year_and_time(f: DateFields, output: &mut Output)
    requires { HasRoom output.old (length (signed_year f.year) + 13) }
    ensures { Appended output.old (year_and_time (whole_of f)) (length (signed_year f.year) + 13) output.new }
{
    put_signed_year(f.year, output);
    output.put(b' ');
    time_string(f, output);
}

// The text of `to_utc_string`.
pub fn utc_string(f: DateFields, output: &mut [u8]) -> Option<usize>
    ensures { Prints (utc_of f.weekday (whole_of f)) output.old output.new result }
{
    let length = signed_length(f.year) + 25;
    if output.len() < length {
        return None;
    }
    let mut text = Output::new(output);
    put_utc_head(f, &mut text);
    put_year_and_time(f, &mut text);
    Some(length)
}

// The text of `to_date_string_t`: the fields are those of the local time.
pub fn local_string(f: DateFields, offset: i32, output: &mut [u8]) -> Option<usize>
    requires { nat_abs offset ≤ 86399 }
    ensures { Prints (local_of f.weekday (whole_of f) offset) output.old output.new result }
{
    let length = signed_length(f.year) + 29;
    if output.len() < length {
        return None;
    }
    let mut text = Output::new(output);
    put_local_head(f, &mut text);
    put_year_and_time(f, &mut text);
    time_zone_string(offset, &mut text);
    Some(length)
}

// ---- a text as it stands

// A text that is at hand, into a lent output.
pub fn put_text(text: &[u8], output: &mut [u8]) -> Option<usize>
    ensures { Prints text.now output.old output.new result }
{
    if output.len() < text.len() {
        return None;
    }
    Output::new(output).put_all(text);
    Some(text.len())
}

// `Invalid Date`.
pub fn invalid_date(output: &mut [u8]) -> Option<usize>
    ensures { Prints invalid_date output.old output.new result }
{
    put_text(b"Invalid Date", output)
}
