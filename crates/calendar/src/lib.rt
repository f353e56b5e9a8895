// The calendar of builtins/date/utils.rs on f64, function by function under its names. Each contract is the original's operations in
// its order (specs/Calendar.antt), for every f64; that they are ECMA-262's calendar on whole milliseconds is in proofs/Whole.antt. Of a whole time
// of the range and its local shifts year, day of the year, weekday and clock are counted in integers; all else goes by those operations.
#![tactic(auto)]

ghost use Rattle.std.specs.Prelude.{◌≡◌, ◌&&◌, ◌<◌, ◌≤◌, leb, cond, pos, nat_abs, ◌+ℤ◌, is_some, IfSome};
ghost use Rattle.std.specs.Float.{binary64};
ghost use Rattle.std.specs.Float.Ieee.{sub, div, lt, of_int, to_unsigned, to_signed};
ghost use Rattle.std.specs.Int.Signed.{lt_z};
ghost use Rattle.ecma262.specs.Date.{day_from_year, leap_of, days_before, month_of, make_day};
ghost use Rattle.float.specs.Rounding.{floor_f, rem_euclid_f, is_whole_within};
ghost use Rattle.float.specs.Whole.{trunc_z, WholeWithin};
ghost use Rattle.calendar.specs.Calendar.{num, year_counted, day_f, time_within_day_f, days_in_year_f, day_from_year_f, time_from_year_f, year_estimate_f, year_from_time_f, day_within_year_f, in_leap_year_f, leap_f, day_within_f, month_from_time_f, date_from_time_f, week_day_f, hour_from_time_f, min_from_time_f, sec_from_time_f, ms_from_time_f};

// HoursPerDay, MinutesPerHour, SecondsPerMinute
const HOURS_PER_DAY: f64 = 24.0;

const MINUTES_PER_HOUR: f64 = 60.0;

const SECONDS_PER_MINUTE: f64 = 60.0;

// msPerSecond, msPerMinute = msPerSecond × 60, msPerHour = msPerMinute × 60, msPerDay = msPerHour × 24
pub const MS_PER_SECOND: f64 = 1_000.0;

pub const MS_PER_MINUTE: f64 = 60_000.0;

pub const MS_PER_HOUR: f64 = 3_600_000.0;

pub const MS_PER_DAY: f64 = 86_400_000.0;

// A day in a count of milliseconds.
const COUNTED_DAY: u64 = 86_400_000;

// The days from the first of the years that are counted (`CountedYear`) to 1970, and their milliseconds.
const DAYS_BEFORE_1970: i64 = 439_010_162;

pub const MS_BEFORE_1970: i64 = DAYS_BEFORE_1970 * COUNTED_DAY as i64;

// 12 × 30.436875 × msPerDay = 365.2425 × 86,400,000, and half of it
const MS_PER_AVERAGE_YEAR: f64 = 31_556_952_000.0;

const MS_PER_HALF_YEAR: f64 = 15_778_476_000.0;

// The month after February, counted from 0.
const MARCH: u32 = 2;

// ---- the day in whole numbers

// A year, counted from 1,199,999 back: so 3,000 cycles of 400 years before year 1, and no year that is asked for is negative.
#[derive(Clone, Copy)]
struct CountedYear {
    count: u32,
    ghost small: { count ≤ 2_200_000 },
}

impl CountedYear {
    fn of(year: i64) -> CountedYear
        requires { nat_abs year ≤ 1_000_000 }
        ensures { year_counted result.count ≡ year }
    {
        CountedYear {
            count: (year + 1_199_999) as u32,
        }
    }

    // DayFromYear: counted so, the first day of the year z is 365 z + z / 4 - z / 100 + z / 400.
    #[tactic(auto, using(crate::proofs::Counting::first_day_is))]
    fn first_day(self) -> i64
        ensures { result ≡ day_from_year (year_counted self.count) }
    {
        let z = self.count;
        i64::from(365 * z + z / 4 - z / 100 + z / 400) - DAYS_BEFORE_1970
    }

    fn is_leap(self) -> bool
        ensures { cond result 1 0 ≡ leap_of (year_counted self.count) }
    {
        let n = self.count + 1;
        n % 400 == 0 || n % 4 == 0 && n % 100 != 0
    }
}

// A whole time, counted from the first day of those years.
pub fn counted(t: i64) -> u64
    requires { nat_abs t ≤ 37_000_000_000_000_000 }
    ensures { pos result ≡ t +ℤ MS_BEFORE_1970 }
{
    (t + MS_BEFORE_1970) as u64
}

// MakeDay(year, month, date), of a month within the year.
pub fn day_number(year: i64, month: u32, date: i64) -> i64
    requires { (nat_abs year ≤ 1_000_000) × (month < 12) × (nat_abs date ≤ 1_000_000) }
    ensures { result ≡ make_day year (pos month) date }
{
    let counted = CountedYear::of(year);
    let first = counted.first_day() + i64::from(days_before(counted.is_leap(), month));
    first + (date - 1)
}

// ---- a whole time as an integer

// A whole time of the range, or of its local shifts, 86,399 s either way: counted.
fn shown_count(t: f64) -> Option<u64>
    ensures decided { is_some result ≡ is_whole_within (num 8_640_000_086_399_000) t }
    ensures count { IfSome result (λ n. WholeWithin 8_640_000_086_399_000 t × (pos n ≡ trunc_z t +ℤ MS_BEFORE_1970)) }
{
    if float::is_whole_within(t, 8_640_000_086_399_000.0) {
        return Some(counted(float::exact_i64(t)));
    }
    None
}

// A year of which TimeFromYear is exact in f64, as it is of the year of each such time: counted.
fn near_year(year: i32) -> Option<CountedYear>
    ensures decided { is_some result ≡ leb (nat_abs year) 280_001 }
    ensures count { IfSome result (λ z. (nat_abs year ≤ 280_001) × (year_counted z.count ≡ year)) }
{
    (year.unsigned_abs() <= 280_001).then(|| CountedYear::of(i64::from(year)))
}

// Day(t) - DayFromYear(year), of such a time and such a year: what it is in f64. It is negative where the year starts after t, since
// TimeFromYear(year) is a whole number of days.
fn days_into(year: i32, t: f64) -> Option<i64>
    ensures decided { is_some result ≡ (is_whole_within (num 8_640_000_086_399_000) t && leb (nat_abs year) 280_001) }
    ensures exact { IfSome result (λ d. d ≡ to_signed 63 (sub binary64 (day_f t) (day_from_year_f (of_int binary64 year)))) }
    ensures negative { IfSome result (λ d. lt_z d (pos 0) ≡ lt t (time_from_year_f (of_int binary64 year))) }
{
    let n = shown_count(t)?;
    let counted = near_year(year)?;
    Some((n / COUNTED_DAY) as i64 - DAYS_BEFORE_1970 - counted.first_day())
}

// ---- the operations of utils.rs

// Day(t)
#[tactic(auto, using(crate::proofs::Literals::ms_per_day), unfolding(crate::specs::Calendar::day_f))]
pub fn day(t: f64) -> f64
    ensures { result ≡ day_f t }
{
    // 1. Return 𝔽(floor(ℝ(t / msPerDay))).
    float::floor(t / MS_PER_DAY)
}

// TimeWithinDay(t)
#[tactic(auto, using(crate::proofs::Literals::ms_per_day), unfolding(crate::specs::Calendar::time_within_day_f))]
pub fn time_within_day(t: f64) -> f64
    ensures { result ≡ time_within_day_f t }
{
    // 1. Return 𝔽(ℝ(t) modulo ℝ(msPerDay)).
    float::rem_euclid(t, MS_PER_DAY)
}

// DaysInYear(y)
pub fn days_in_year(y: f64) -> u16
    ensures { result ≡ days_in_year_f y }
{
    // 2. If (ry modulo 400) = 0, return 366𝔽.
    if float::rem_euclid(y, 400.0) == 0.0 {
        return 366;
    }
    // 3. If (ry modulo 100) = 0, return 365𝔽.
    if float::rem_euclid(y, 100.0) == 0.0 {
        return 365;
    }
    // 4. If (ry modulo 4) = 0, return 366𝔽.
    if float::rem_euclid(y, 4.0) == 0.0 {
        return 366;
    }
    // 5. Return 365𝔽.
    365
}

// DayFromYear(y)
pub fn day_from_year(y: f64) -> f64
    ensures { result ≡ day_from_year_f y }
{
    // 3. Let numYears1 be (ry - 1970).
    let num_years_1 = y - 1970.0;
    // 4. Let numYears4 be floor((ry - 1969) / 4).
    let num_years_4 = float::floor((y - 1969.0) / 4.0);
    // 5. Let numYears100 be floor((ry - 1901) / 100).
    let num_years_100 = float::floor((y - 1901.0) / 100.0);
    // 6. Let numYears400 be floor((ry - 1601) / 400).
    let num_years_400 = float::floor((y - 1601.0) / 400.0);
    // 7. Return 𝔽(365 × numYears1 + numYears4 - numYears100 + numYears400).
    365.0 * num_years_1 + num_years_4 - num_years_100 + num_years_400
}

// TimeFromYear(y)
#[tactic(auto, using(crate::proofs::Literals::ms_per_day), unfolding(crate::specs::Calendar::time_from_year_f))]
pub fn time_from_year(y: f64) -> f64
    ensures { result ≡ time_from_year_f y }
{
    // 1. Return msPerDay × DayFromYear(y).
    MS_PER_DAY * day_from_year(y)
}

// The year by its mean length, which is the year or the one after it.
pub fn year_estimate(t: f64) -> i32
    ensures { result ≡ year_estimate_f t }
{
    let since_1970 = float::as_i32(float::floor((t + MS_PER_HALF_YEAR) / MS_PER_AVERAGE_YEAR));
    since_1970.wrapping_add(1970)
}

// Whether the year starts after t.
fn starts_after(year: i32, t: f64) -> bool
    ensures { result ≡ lt t (time_from_year_f (of_int binary64 year)) }
{
    match days_into(year, t) {
        Some(days) => days < 0,
        None => t < time_from_year(f64::from(year)),
    }
}

// YearFromTime(t)
pub fn year_from_time(t: f64) -> i32
    ensures { result ≡ year_from_time_f t }
{
    // 1. Return the largest integral Number y (closest to +∞) such that TimeFromYear(y) ≤ t.
    // The step back is a difference and not a jump, which would often be mispredicted.
    let year = year_estimate(t);
    let late = starts_after(year, t);
    year.wrapping_sub(i32::from(late))
}

// The day of t within a year.
fn day_within(year: i32, t: f64) -> u16
    ensures { result ≡ day_within_f year t }
{
    match days_into(year, t) {
        Some(days) => days.clamp(0, i64::from(u16::MAX)) as u16,
        None => float::as_u16(day(t) - day_from_year(f64::from(year))),
    }
}

// DayWithinYear(t)
#[tactic(auto, unfolding(crate::specs::Calendar::day_within_year_f))]
pub fn day_within_year(t: f64) -> u16
    ensures { result ≡ day_within_year_f t }
{
    // 1. Return Day(t) - DayFromYear(YearFromTime(t)).
    day_within(year_from_time(t), t)
}

// Whether the year has 366 days.
fn is_leap_year(year: i32) -> bool
    ensures { cond result 1 0 ≡ leap_f year }
{
    match near_year(year) {
        Some(counted) => counted.is_leap(),
        None => days_in_year(f64::from(year)) == 366,
    }
}

// InLeapYear(t)
#[tactic(auto, using(crate::proofs::Wrap::byte_is), unfolding(crate::specs::Calendar::in_leap_year_f))]
pub fn in_leap_year(t: f64) -> u16
    ensures { result ≡ in_leap_year_f t }
{
    // 1. If DaysInYear(YearFromTime(t)) is 366𝔽, return 1𝔽; else return +0𝔽.
    u16::from(is_leap_year(year_from_time(t)))
}

// The days of a year before its month, month 0 being January. Were February a month of 30 days, they would be 489/16 a month, to the nearest
// day; from March on the days that February has not come off.
pub fn days_before(leap: bool, month: u32) -> u32
    requires { month < 12 }
    ensures { result ≡ days_before (cond leap 1 0) month }
{
    let days = (489 * month + 8) / 16;
    if month < MARCH {
        return days;
    }
    days - 2 + u32::from(leap)
}

// The month of the day d of a year, both from 0: no month is longer than 32 days, so it is d / 32 or the month after that.
pub fn month_of_day(leap: bool, d: u32) -> u32
    ensures { result ≡ month_of (cond leap 1 0) (pos d) }
{
    let month = d / 32;
    if 10 < month {
        return 11;
    }
    if d < days_before(leap, month + 1) {
        month
    } else {
        month + 1
    }
}

// Year, month and date of a time.
#[derive(Clone, Copy)]
pub struct YearMonthDate {
    pub year: i32,
    pub month: u8,
    pub date: u8,
}

// YearFromTime(t), MonthFromTime(t) and DateFromTime(t): the year, which all three rest on, is worked out once.
pub fn year_month_date(t: f64) -> YearMonthDate
    ensures { (result.year ≡ year_from_time_f t) × (result.month ≡ month_from_time_f t) × (result.date ≡ date_from_time_f t) }
{
    let year = year_from_time(t);
    // MonthFromTime: 1. Let inLeapYear be InLeapYear(t). 2. Let dayWithinYear be DayWithinYear(t).
    let leap = is_leap_year(year);
    let d = u32::from(day_within(year, t));
    // 3. to 15.
    let month = month_of_day(leap, d);
    // DateFromTime: 4. to 16. The days of the year up to d, less those before the month.
    YearMonthDate {
        year,
        month: month as u8,
        date: ((d - days_before(leap, month) + 1) % 256) as u8,
    }
}

// MonthFromTime(t)
pub fn month_from_time(t: f64) -> u8
    ensures { result ≡ month_from_time_f t }
{
    year_month_date(t).month
}

// DateFromTime(t)
pub fn date_from_time(t: f64) -> u8
    ensures { result ≡ date_from_time_f t }
{
    year_month_date(t).date
}

// WeekDay(t)
pub fn week_day(t: f64) -> u8
    ensures { result ≡ week_day_f t }
{
    if let Some(n) = shown_count(t) {
        return ((n / COUNTED_DAY + 1) % 7) as u8;
    }
    // 1. Return 𝔽(ℝ(Day(t) + 4𝔽) modulo 7).
    float::as_u8(float::rem_euclid(day(t) + 4.0, 7.0))
}

// Hour, minute, second and millisecond of a time.
#[derive(Clone, Copy)]
pub struct Clock {
    pub hour: u8,
    pub minute: u8,
    pub second: u8,
    pub ms: u16,
}

// HourFromTime(t), MinFromTime(t) and SecFromTime(t), by the unit's milliseconds and how many units make the next larger one. Inlined, so that
// both divisors are written out.
#[inline(always)]
fn clock_field(t: f64, unit: f64, count: f64) -> u8
    ensures { result ≡ to_unsigned 8 (rem_euclid_f (floor_f (div binary64 t unit)) count) }
{
    // 1. Return 𝔽(floor(ℝ(t / msPerHour)) modulo HoursPerDay), and likewise by minutes and seconds.
    float::as_u8(float::rem_euclid(float::floor(t / unit), count))
}

// HourFromTime(t), MinFromTime(t), SecFromTime(t) and msFromTime(t): what is counted for one is counted for all.
pub fn clock_of(t: f64) -> Clock
    ensures { (result.hour ≡ hour_from_time_f t) × (result.minute ≡ min_from_time_f t) × (result.second ≡ sec_from_time_f t) × (result.ms ≡ ms_from_time_f t) }
{
    if let Some(n) = shown_count(t) {
        return Clock {
            hour: (n / 3_600_000 % 24) as u8,
            minute: (n / 60_000 % 60) as u8,
            second: (n / 1_000 % 60) as u8,
            ms: (n % 1_000) as u16,
        };
    }
    // 1. Return 𝔽(ℝ(t) modulo ℝ(msPerSecond)), for the last.
    Clock {
        hour: clock_field(t, MS_PER_HOUR, HOURS_PER_DAY),
        minute: clock_field(t, MS_PER_MINUTE, MINUTES_PER_HOUR),
        second: clock_field(t, MS_PER_SECOND, SECONDS_PER_MINUTE),
        ms: float::as_u16(float::rem_euclid(t, MS_PER_SECOND)),
    }
}

// HourFromTime(t)
pub fn hour_from_time(t: f64) -> u8
    ensures { result ≡ hour_from_time_f t }
{
    clock_of(t).hour
}

// MinFromTime(t)
pub fn min_from_time(t: f64) -> u8
    ensures { result ≡ min_from_time_f t }
{
    clock_of(t).minute
}

// SecFromTime(t)
pub fn sec_from_time(t: f64) -> u8
    ensures { result ≡ sec_from_time_f t }
{
    clock_of(t).second
}

// msFromTime(t)
pub fn ms_from_time(t: f64) -> u16
    ensures { result ≡ ms_from_time_f t }
{
    clock_of(t).ms
}
