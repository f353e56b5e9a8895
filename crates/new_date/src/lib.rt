// The new date of the builder and of each setter, in the original's steps (builtins/date/mod.rs), and the bits of its value. A setter takes the
// time t, which is local where the call is, and the record of its arguments. Each contract is one line of specs/Calls.antt, for every f64 and every
// record; that it is the standard's own step in the exact domain is in proofs/Exact.antt.
#![tactic(auto, using(field_record::proofs::Laws::given_or, crate::proofs::Literals::zero, crate::proofs::Literals::one, crate::proofs::Literals::not_a_number), unfolding(crate::specs::Calls::new_date_of, crate::specs::Calls::new_date, crate::specs::Calls::absent))]

ghost use Rattle.std.specs.Prelude.{◌≡◌, is_some};
ghost use Rattle.std.specs.Float.{nan, binary64};
ghost use Rattle.std.specs.Float.Ieee.{to_bits};
ghost use Rattle.new_date.specs.Calls.{build, set, present, or_zero, shift_out, new_date_of, value_out};
ghost use Rattle.new_date.specs.Inner.{Reads, records_in};

use field_record::{Arguments, FieldRecord};
use zone::ZoneList;

// The parts of a date. A setter is named after the first that it sets.
#[derive(Clone, Copy)]
pub enum Part {
    Milliseconds,
    Seconds,
    Minutes,
    Hours,
    Date,
    Month,
    FullYear,
}

// ---- the arguments of a setter

// A present part of t.
fn present(part: Part, t: f64) -> f64
    ensures { result ≡ present part t }
{
    match part {
        Part::Milliseconds => f64::from(calendar::ms_from_time(t)),
        Part::Seconds => f64::from(calendar::sec_from_time(t)),
        Part::Minutes => f64::from(calendar::min_from_time(t)),
        Part::Hours => f64::from(calendar::hour_from_time(t)),
        Part::Date => f64::from(calendar::date_from_time(t)),
        Part::Month => f64::from(calendar::month_from_time(t)),
        Part::FullYear => f64::from(calendar::year_from_time(t)),
    }
}

// The next one: where it is absent, its part is asked of t, and else not.
#[tactic(auto, using(crate::proofs::Literals::or_else))]
fn next_of(arguments: &mut Arguments, part: Part, t: f64) -> f64
    ensures { Reads arguments.old arguments.new (present part t) result }
{
    arguments.next().unwrap_or_else(|| present(part, t))
}

// ---- the clock's setters

fn milliseconds(t: f64, fields: FieldRecord) -> f64
    ensures { result ≡ new_date_of (set Part.Milliseconds) t fields.entry.bytes.now }
{
    let mut arguments = fields.arguments();
    let ms = next_of(&mut arguments, Part::Milliseconds, t);
    // Let time be MakeTime(HourFromTime(t), MinFromTime(t), SecFromTime(t), ms).
    let time = make::make_time(
        present(Part::Hours, t),
        present(Part::Minutes, t),
        present(Part::Seconds, t),
        ms,
    );
    make::make_date(calendar::day(t), time)
}

fn seconds(t: f64, fields: FieldRecord) -> f64
    ensures { result ≡ new_date_of (set Part.Seconds) t fields.entry.bytes.now }
{
    let mut arguments = fields.arguments();
    let s = next_of(&mut arguments, Part::Seconds, t);
    let milli = next_of(&mut arguments, Part::Milliseconds, t);
    // Let date be MakeDate(Day(t), MakeTime(HourFromTime(t), MinFromTime(t), s, milli)).
    let time = make::make_time(present(Part::Hours, t), present(Part::Minutes, t), s, milli);
    make::make_date(calendar::day(t), time)
}

fn minutes(t: f64, fields: FieldRecord) -> f64
    ensures { result ≡ new_date_of (set Part.Minutes) t fields.entry.bytes.now }
{
    let mut arguments = fields.arguments();
    let m = next_of(&mut arguments, Part::Minutes, t);
    let s = next_of(&mut arguments, Part::Seconds, t);
    let milli = next_of(&mut arguments, Part::Milliseconds, t);
    // Let date be MakeDate(Day(t), MakeTime(HourFromTime(t), m, s, milli)).
    let time = make::make_time(present(Part::Hours, t), m, s, milli);
    make::make_date(calendar::day(t), time)
}

fn hours(t: f64, fields: FieldRecord) -> f64
    ensures { result ≡ new_date_of (set Part.Hours) t fields.entry.bytes.now }
{
    let mut arguments = fields.arguments();
    let h = next_of(&mut arguments, Part::Hours, t);
    let m = next_of(&mut arguments, Part::Minutes, t);
    let s = next_of(&mut arguments, Part::Seconds, t);
    let milli = next_of(&mut arguments, Part::Milliseconds, t);
    // Let date be MakeDate(Day(t), MakeTime(h, m, s, milli)).
    let time = make::make_time(h, m, s, milli);
    make::make_date(calendar::day(t), time)
}

// ---- the day's setters

fn date(t: f64, fields: FieldRecord) -> f64
    ensures { result ≡ new_date_of (set Part.Date) t fields.entry.bytes.now }
{
    let mut arguments = fields.arguments();
    let dt = next_of(&mut arguments, Part::Date, t);
    // Let newDate be MakeDate(MakeDay(YearFromTime(t), MonthFromTime(t), dt), TimeWithinDay(t)).
    let day = make::make_day(present(Part::FullYear, t), present(Part::Month, t), dt);
    make::make_date(day, calendar::time_within_day(t))
}

fn month(t: f64, fields: FieldRecord) -> f64
    ensures { result ≡ new_date_of (set Part.Month) t fields.entry.bytes.now }
{
    let mut arguments = fields.arguments();
    let m = next_of(&mut arguments, Part::Month, t);
    let dt = next_of(&mut arguments, Part::Date, t);
    // Let newDate be MakeDate(MakeDay(YearFromTime(t), m, dt), TimeWithinDay(t)).
    let day = make::make_day(present(Part::FullYear, t), m, dt);
    make::make_date(day, calendar::time_within_day(t))
}

// If t is NaN, set t to +0.
#[tactic(auto, using(crate::proofs::Literals::zero), unfolding(crate::specs::Calls::or_zero))]
fn or_zero(t: f64) -> f64
    ensures { result ≡ or_zero t }
{
    if t.is_nan() { 0.0 } else { t }
}

fn full_year(date: f64, fields: FieldRecord) -> f64
    ensures { result ≡ new_date_of (set Part.FullYear) date fields.entry.bytes.now }
{
    let t = or_zero(date);
    let mut arguments = fields.arguments();
    let y = next_of(&mut arguments, Part::FullYear, t);
    let m = next_of(&mut arguments, Part::Month, t);
    let dt = next_of(&mut arguments, Part::Date, t);
    // Let newDate be MakeDate(MakeDay(y, m, dt), TimeWithinDay(t)).
    let day = make::make_day(y, m, dt);
    make::make_date(day, calendar::time_within_day(t))
}

// ---- any setter

pub fn set(first: Part, t: f64, fields: FieldRecord) -> f64
    ensures { result ≡ new_date_of (set first) t fields.entry.bytes.now }
{
    match first {
        Part::Milliseconds => milliseconds(t, fields),
        Part::Seconds => seconds(t, fields),
        Part::Minutes => minutes(t, fields),
        Part::Hours => hours(t, fields),
        Part::Date => date(t, fields),
        Part::Month => month(t, fields),
        Part::FullYear => full_year(t, fields),
    }
}

// ---- the builder

// Date.UTC, and the constructor of many fields. An absent year is NaN.
pub fn built(fields: FieldRecord) -> f64
    ensures { result ≡ new_date_of build nan fields.entry.bytes.now }
{
    let mut arguments = fields.arguments();
    let y = arguments.next().unwrap_or(f64::NAN);
    let m = arguments.next().unwrap_or(0.0);
    let dt = arguments.next().unwrap_or(1.0);
    let h = arguments.next().unwrap_or(0.0);
    let min = arguments.next().unwrap_or(0.0);
    let s = arguments.next().unwrap_or(0.0);
    let milli = arguments.next().unwrap_or(0.0);
    // Let yr be MakeFullYear(y).
    let yr = make::make_full_year(y);
    // Let finalDate be MakeDate(MakeDay(yr, m, dt), MakeTime(h, min, s, milli)).
    make::make_date(make::make_day(yr, m, dt), make::make_time(h, min, s, milli))
}

// ---- the bits of the new date's value. A local call has a zone list, and a UTC call none.

// UTC(date) where the call is local, and the date where it is not.
fn shift_out(zone: Option<ZoneList>, date: f64) -> f64
    ensures { result ≡ shift_out (is_some zone.entry) (records_in zone.entry) date }
{
    zone.map_or(date, |list| local::utc_t(date, list))
}

// The bits of TimeClip(UTC(date)) where the call is local, and of TimeClip(date) where it is not.
pub fn value_of(zone: Option<ZoneList>, date: f64) -> u64
    ensures { result ≡ to_bits binary64 (value_out (is_some zone.entry) (records_in zone.entry) date) }
{
    float::bits_of(make::time_clip(shift_out(zone, date)))
}
