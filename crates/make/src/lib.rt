// The makers of builtins/date/utils.rs on f64, function by function under its names. Each contract is the original's operations in its
// order (specs/Make.antt), for every f64; that they are ECMA-262's makers in the exact domain is in proofs/Exact.antt.
#![tactic(auto)]

ghost use Rattle.std.specs.Prelude.{◌≡◌, not, ◌&&◌, ◌<◌};
ghost use Rattle.std.specs.Float.Ieee.{le, eq};
ghost use Rattle.float.specs.Rounding.{is_whole_within};
ghost use Rattle.calendar.specs.Calendar.{num};
ghost use Rattle.make.specs.Make.{whole_part, make_time_f, year_of_month, month_of_year, month_start_f, day_of_month_f, make_day_f, make_date_f, make_full_year_f, time_clip_f};

use calendar::{MS_PER_DAY, MS_PER_HOUR, MS_PER_MINUTE, MS_PER_SECOND};
use timevalue::TIME_RANGE;

// 𝔽(! ToIntegerOrInfinity(x)), as the makers work it out, by the original's three steps; of a negative fraction it is -0. A whole number, as
// nearly always, is its own whole part.
fn whole_part(x: f64) -> f64
    ensures { result ≡ whole_part x }
{
    if float::is_whole_within(x, float::EXACT_LIMIT) {
        return x;
    }
    float::copysign(float::floor(float::abs(x)), x)
}

// MakeTime(hour, min, sec, ms)
pub fn make_time(hour: f64, min: f64, sec: f64, ms: f64) -> f64
    ensures { result ≡ make_time_f hour min sec ms }
{
    // 2. to 5. Let h, m, s and milli be 𝔽(! ToIntegerOrInfinity(..)).
    let h = whole_part(hour);
    let m = whole_part(min);
    let s = whole_part(sec);
    let milli = whole_part(ms);
    // 6. Return ((h × msPerHour + m × msPerMinute) + s × msPerSecond) + milli. A finite sum has only finite terms, so step 1 is left for any other.
    let sum = ((h * MS_PER_HOUR + m * MS_PER_MINUTE) + s * MS_PER_SECOND) + milli;
    if sum.is_finite() {
        return sum;
    }
    // 1. If hour is not finite, min is not finite, sec is not finite, or ms is not finite, return NaN.
    if !hour.is_finite() || !min.is_finite() || !sec.is_finite() || !ms.is_finite() {
        return f64::NAN;
    }
    sum
}

// y + 𝔽(floor(ℝ(m) / 12))
fn year_of_month(y: f64, m: f64) -> f64
    ensures { result ≡ year_of_month y m }
{
    y + float::floor(m / 12.0)
}

// 𝔽(ℝ(m) modulo 12)
fn month_of_year(m: f64) -> u8
    ensures { result ≡ month_of_year m }
{
    float::as_u8(float::rem_euclid(m, 12.0))
}

// The time of the first of the month mn of the year ym: for a month past February the next year's first day less 365, so that a leap
// day is counted, and the days before the month in a common year.
fn month_start(ym: f64, mn: u8) -> f64
    requires { mn < 12 }
    ensures { result ≡ month_start_f ym mn }
{
    let rest = f64::from(mn > 1);
    let days = f64::from(calendar::days_before(false, u32::from(mn)));
    (calendar::day_from_year(ym + rest) - 365.0 * rest + days) * MS_PER_DAY
}

// Steps 5 to 9 of MakeDay, of the whole parts y, m and dt.
fn day_of_month(y: f64, m: f64, dt: f64) -> f64
    requires { month_of_year m < 12 }
    ensures { result ≡ day_of_month_f (year_of_month y m) (month_of_year m) dt }
{
    // 5. Let ym be y + 𝔽(floor(ℝ(m) / 12)).
    let ym = year_of_month(y, m);
    // 6. If ym is not finite, return NaN.
    if !ym.is_finite() {
        return f64::NAN;
    }
    // 7. Let mn be 𝔽(ℝ(m) modulo 12).
    let mn = month_of_year(m);
    // 8. Find a finite time value t such that YearFromTime(t) is ym, MonthFromTime(t) is mn, and DateFromTime(t) is 1𝔽.
    let t = month_start(ym, mn);
    // 9. Return Day(t) + dt - 1𝔽.
    calendar::day(t) + dt - 1.0
}

// MakeDay(year, month, date)
pub fn make_day(year: f64, month: f64, date: f64) -> f64
    ensures { result ≡ make_day_f year month date }
{
    // 2. to 4. Let y, m and dt be 𝔽(! ToIntegerOrInfinity(..)).
    let y = whole_part(year);
    let m = whole_part(month);
    let dt = whole_part(date);
    // In the exact domain nothing is rounded, so that the steps may be taken in integers: here with a month within its year. A NaN passes no test.
    if (-280_000.0..=280_000.0).contains(&y)
        && (0.0..=11.0).contains(&m)
        && (-1_000_000.0..=1_000_000.0).contains(&dt)
    {
        let mn = float::exact_i64(m) as u32;
        return calendar::day_number(float::exact_i64(y), mn, float::exact_i64(dt)) as f64;
    }
    // 1. If year is not finite, month is not finite, or date is not finite, return NaN.
    if !year.is_finite() || !month.is_finite() || !date.is_finite() {
        return f64::NAN;
    }
    // 5. to 9.
    day_of_month(y, m, dt)
}

// MakeDate(day, time)
pub fn make_date(day: f64, time: f64) -> f64
    ensures { result ≡ make_date_f day time }
{
    // 2. Let tv be day × msPerDay + time.
    let tv = day * MS_PER_DAY + time;
    // 1. If day is not finite or time is not finite, return NaN. 3. If tv is not finite, return NaN. Of such a day or time tv is not finite.
    if !tv.is_finite() {
        return f64::NAN;
    }
    // 4. Return tv.
    tv
}

// MakeFullYear(year)
pub fn make_full_year(year: f64) -> f64
    ensures { result ≡ make_full_year_f year }
{
    // 1. If year is NaN, return NaN.
    if year.is_nan() {
        return f64::NAN;
    }
    // 2. Let truncated be ! ToIntegerOrInfinity(year).
    let truncated = float::to_integer_or_infinity(year);
    // 3. If truncated is in the inclusive interval from 0 to 99, return 1900𝔽 + 𝔽(truncated).
    if (0.0..=99.0).contains(&truncated) {
        return 1900.0 + truncated;
    }
    // 4. Return 𝔽(truncated).
    truncated
}

// TimeClip(time)
#[tactic(auto, using(crate::proofs::Tests::clip_integer))]
pub fn time_clip(time: f64) -> f64
    ensures { result ≡ time_clip_f time }
{
    // A whole time of the range that is not 0, as nearly always, is its own value.
    if time != 0.0 && float::is_whole_within(time, TIME_RANGE) {
        return time;
    }
    // 1. If time is not finite, return NaN.
    if !time.is_finite() {
        return f64::NAN;
    }
    // 2. If abs(ℝ(time)) > 8.64 × 10**15, return NaN.
    if float::abs(time) > TIME_RANGE {
        return f64::NAN;
    }
    // 3. Return 𝔽(! ToIntegerOrInfinity(time)).
    float::to_integer_or_infinity(time)
}
