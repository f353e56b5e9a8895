// The static library for the comparison with the original: each function of `exports` under its name for C, with its clauses.
#![tactic(auto)]

ghost use Rattle.std.specs.Prelude.{◌≡◌, ◌+◌, ◌%◌, ◌^◌, Float};
ghost use Rattle.std.specs.Float.{binary64};
ghost use Rattle.std.specs.Float.Ieee.{of_bits, to_bits, to_unsigned, to_signed};
ghost use Rattle.ecma262.specs.Digits.{digits};
ghost use Rattle.float.specs.Rounding.{floor_f, trunc_f, abs_f, copysign_f, rem_euclid_f};
ghost use Rattle.calendar.specs.Calendar.{day_f, time_within_day_f, days_in_year_f, day_from_year_f, time_from_year_f, year_from_time_f, day_within_year_f, in_leap_year_f, month_from_time_f, date_from_time_f, week_day_f, hour_from_time_f, min_from_time_f, sec_from_time_f, ms_from_time_f};
ghost use Rattle.make.specs.Make.{make_time_f, make_day_f, make_date_f, make_full_year_f, time_clip_f};
ghost use Rattle.little_endian.specs.Bytes.{twos_complement};
ghost use Rattle.zone.specs.Zone.{records, offset_at};
ghost use Rattle.local.specs.Local.{offset_seconds_f, local_time_f, utc_f};
ghost use Rattle.fast_atoi.specs.Inner.{moved, join4, join8};
ghost use Rattle.exports.specs.Inner.{Given, Handed, Whole, Packed, word, under_list};

#[unsafe(no_mangle)]
pub extern "C" fn exports_floor(x: u64) -> u64
    ensures { Given x (λ (x : Float). Handed (floor_f x) result) }
{
    exports::exports_floor(x)
}

#[unsafe(no_mangle)]
pub extern "C" fn exports_trunc(x: u64) -> u64
    ensures { Given x (λ (x : Float). Handed (trunc_f x) result) }
{
    exports::exports_trunc(x)
}

#[unsafe(no_mangle)]
pub extern "C" fn exports_abs(x: u64) -> u64
    ensures { Given x (λ (x : Float). Handed (abs_f x) result) }
{
    exports::exports_abs(x)
}

#[unsafe(no_mangle)]
pub extern "C" fn exports_copysign(x: u64, sign: u64) -> u64
    ensures { Given x (λ (x : Float). Given sign (λ (sign : Float). Handed (copysign_f x sign) result)) }
{
    exports::exports_copysign(x, sign)
}

#[unsafe(no_mangle)]
pub extern "C" fn exports_rem_euclid(x: u64, by: u64) -> u64
    ensures { Given x (λ (x : Float). Given by (λ (by : Float). Handed (rem_euclid_f x by) result)) }
{
    exports::exports_rem_euclid(x, by)
}

#[unsafe(no_mangle)]
pub extern "C" fn exports_as_u8(x: u64) -> u64
    ensures { Given x (λ (x : Float). result ≡ to_unsigned 8 x) }
{
    exports::exports_as_u8(x)
}

#[unsafe(no_mangle)]
pub extern "C" fn exports_as_u16(x: u64) -> u64
    ensures { Given x (λ (x : Float). result ≡ to_unsigned 16 x) }
{
    exports::exports_as_u16(x)
}

#[unsafe(no_mangle)]
pub extern "C" fn exports_as_i32(x: u64) -> u64
    ensures { Given x (λ (x : Float). Whole (to_signed 31 x) result) }
{
    exports::exports_as_i32(x)
}

#[unsafe(no_mangle)]
pub extern "C" fn exports_as_i64(x: u64) -> u64
    ensures { Given x (λ (x : Float). Whole (to_signed 63 x) result) }
{
    exports::exports_as_i64(x)
}

#[unsafe(no_mangle)]
pub extern "C" fn exports_day(t: u64) -> u64
    ensures { Given t (λ (t : Float). Handed (day_f t) result) }
{
    exports::exports_day(t)
}

#[unsafe(no_mangle)]
pub extern "C" fn exports_time_within_day(t: u64) -> u64
    ensures { Given t (λ (t : Float). Handed (time_within_day_f t) result) }
{
    exports::exports_time_within_day(t)
}

#[unsafe(no_mangle)]
pub extern "C" fn exports_days_in_year(y: u64) -> u64
    ensures { Given y (λ (y : Float). result ≡ days_in_year_f y) }
{
    exports::exports_days_in_year(y)
}

#[unsafe(no_mangle)]
pub extern "C" fn exports_day_from_year(y: u64) -> u64
    ensures { Given y (λ (y : Float). Handed (day_from_year_f y) result) }
{
    exports::exports_day_from_year(y)
}

#[unsafe(no_mangle)]
pub extern "C" fn exports_time_from_year(y: u64) -> u64
    ensures { Given y (λ (y : Float). Handed (time_from_year_f y) result) }
{
    exports::exports_time_from_year(y)
}

#[unsafe(no_mangle)]
pub extern "C" fn exports_year_from_time(t: u64) -> u64
    ensures { Given t (λ (t : Float). Whole (year_from_time_f t) result) }
{
    exports::exports_year_from_time(t)
}

#[unsafe(no_mangle)]
pub extern "C" fn exports_day_within_year(t: u64) -> u64
    ensures { Given t (λ (t : Float). result ≡ day_within_year_f t) }
{
    exports::exports_day_within_year(t)
}

#[unsafe(no_mangle)]
pub extern "C" fn exports_in_leap_year(t: u64) -> u64
    ensures { Given t (λ (t : Float). result ≡ in_leap_year_f t) }
{
    exports::exports_in_leap_year(t)
}

#[unsafe(no_mangle)]
pub extern "C" fn exports_month_from_time(t: u64) -> u64
    ensures { Given t (λ (t : Float). result ≡ month_from_time_f t) }
{
    exports::exports_month_from_time(t)
}

#[unsafe(no_mangle)]
pub extern "C" fn exports_date_from_time(t: u64) -> u64
    ensures { Given t (λ (t : Float). result ≡ date_from_time_f t) }
{
    exports::exports_date_from_time(t)
}

#[unsafe(no_mangle)]
pub extern "C" fn exports_week_day(t: u64) -> u64
    ensures { Given t (λ (t : Float). result ≡ week_day_f t) }
{
    exports::exports_week_day(t)
}

#[unsafe(no_mangle)]
pub extern "C" fn exports_hour_from_time(t: u64) -> u64
    ensures { Given t (λ (t : Float). result ≡ hour_from_time_f t) }
{
    exports::exports_hour_from_time(t)
}

#[unsafe(no_mangle)]
pub extern "C" fn exports_min_from_time(t: u64) -> u64
    ensures { Given t (λ (t : Float). result ≡ min_from_time_f t) }
{
    exports::exports_min_from_time(t)
}

#[unsafe(no_mangle)]
pub extern "C" fn exports_sec_from_time(t: u64) -> u64
    ensures { Given t (λ (t : Float). result ≡ sec_from_time_f t) }
{
    exports::exports_sec_from_time(t)
}

#[unsafe(no_mangle)]
pub extern "C" fn exports_ms_from_time(t: u64) -> u64
    ensures { Given t (λ (t : Float). result ≡ ms_from_time_f t) }
{
    exports::exports_ms_from_time(t)
}

#[unsafe(no_mangle)]
pub extern "C" fn exports_make_time(hour: u64, min: u64, sec: u64, ms: u64) -> u64
    ensures { Given hour (λ (hour : Float). Given min (λ (min : Float). Given sec (λ (sec : Float). Given ms (λ (ms : Float). Handed (make_time_f hour min sec ms) result)))) }
{
    exports::exports_make_time(hour, min, sec, ms)
}

#[unsafe(no_mangle)]
pub extern "C" fn exports_make_day(year: u64, month: u64, date: u64) -> u64
    ensures { Given year (λ (year : Float). Given month (λ (month : Float). Given date (λ (date : Float). Handed (make_day_f year month date) result))) }
{
    exports::exports_make_day(year, month, date)
}

#[unsafe(no_mangle)]
pub extern "C" fn exports_make_date(day: u64, time: u64) -> u64
    ensures { Given day (λ (day : Float). Given time (λ (time : Float). Handed (make_date_f day time) result)) }
{
    exports::exports_make_date(day, time)
}

#[unsafe(no_mangle)]
pub extern "C" fn exports_make_full_year(year: u64) -> u64
    ensures { Given year (λ (year : Float). Handed (make_full_year_f year) result) }
{
    exports::exports_make_full_year(year)
}

#[unsafe(no_mangle)]
pub extern "C" fn exports_time_clip(time: u64) -> u64
    ensures { Given time (λ (time : Float). Handed (time_clip_f time) result) }
{
    exports::exports_time_clip(time)
}

#[unsafe(no_mangle)]
pub extern "C" fn exports_zone_accepted(zone: &[u8]) -> u64
    ensures { result ≡ under_list zone.now 1 }
{
    exports::exports_zone_accepted(zone)
}

#[unsafe(no_mangle)]
pub extern "C" fn exports_zone_offset(zone: &[u8], second: u64) -> u64
    ensures { result ≡ under_list zone.now (word (offset_at (records zone.now) (twos_complement 64 second))) }
{
    exports::exports_zone_offset(zone, second)
}

#[unsafe(no_mangle)]
pub extern "C" fn exports_local_timezone_offset_seconds(zone: &[u8], t: u64) -> u64
    ensures { result ≡ under_list zone.now (word (offset_seconds_f (records zone.now) (of_bits binary64 t))) }
{
    exports::exports_local_timezone_offset_seconds(zone, t)
}

#[unsafe(no_mangle)]
pub extern "C" fn exports_local_time(zone: &[u8], t: u64) -> u64
    ensures { result ≡ under_list zone.now (to_bits binary64 (local_time_f (records zone.now) (of_bits binary64 t))) }
{
    exports::exports_local_time(zone, t)
}

#[unsafe(no_mangle)]
pub extern "C" fn exports_utc_t(zone: &[u8], t: u64) -> u64
    ensures { result ≡ under_list zone.now (to_bits binary64 (utc_f (records zone.now) (of_bits binary64 t))) }
{
    exports::exports_utc_t(zone, t)
}

#[unsafe(no_mangle)]
pub extern "C" fn exports_process_4(val: u64, len: u64) -> u64
    ensures { result ≡ join4 (moved 32 ((len % 4 + 3) % 4 + 1) (val % 2 ^ 32)) }
{
    exports::exports_process_4(val, len)
}

#[unsafe(no_mangle)]
pub extern "C" fn exports_process_8(val: u64, len: u64) -> u64
    ensures { result ≡ join8 (moved 64 ((len % 8 + 7) % 8 + 1) val) }
{
    exports::exports_process_8(val, len)
}

#[unsafe(no_mangle)]
pub extern "C" fn exports_pad_two(t: u64) -> u64
    ensures { Packed (digits 2 (t % 100)) 2 result }
{
    exports::exports_pad_two(t)
}

#[unsafe(no_mangle)]
pub extern "C" fn exports_pad_three(t: u64) -> u64
    ensures { Packed (digits 3 (t % 1000)) 3 result }
{
    exports::exports_pad_three(t)
}

#[unsafe(no_mangle)]
pub extern "C" fn exports_pad_four(t: u64) -> u64
    ensures { Packed (digits 4 (t % 10000)) 4 result }
{
    exports::exports_pad_four(t)
}

#[unsafe(no_mangle)]
pub extern "C" fn exports_pad_five(t: u64) -> u64
    ensures { Packed (digits 5 (t % 100000)) 5 result }
{
    exports::exports_pad_five(t)
}

#[unsafe(no_mangle)]
pub extern "C" fn exports_pad_six(t: u64) -> u64
    ensures { Packed (digits 6 (t % 1000000)) 6 result }
{
    exports::exports_pad_six(t)
}
