// What stands below the C interface, in shapes that C can call, so that it is compared with the original on its own: an f64 is given as its bits,
// a whole number in two's complement, a truth as 0 or 1, digits as bytes with the first lowest. The crate `exports_c` exports each under its
// name; its archive is for the differential run alone.
#![tactic(auto)]

ghost use Rattle.std.specs.Prelude.{◌≡◌, ◌+◌, ◌%◌, ◌^◌, Float, List, ℕ};
ghost use Rattle.std.specs.Fn.{FnOnceReturnsAtMut};
ghost use Rattle.std.specs.Float.{binary64};
ghost use Rattle.std.specs.Float.Ieee.{of_bits, to_bits, to_unsigned, to_signed};
ghost use Rattle.ecma262.specs.Digits.{digits};
ghost use Rattle.float.specs.Rounding.{floor_f, trunc_f, abs_f, copysign_f, rem_euclid_f};
ghost use Rattle.calendar.specs.Calendar.{day_f, time_within_day_f, days_in_year_f, day_from_year_f, time_from_year_f, year_from_time_f, day_within_year_f, in_leap_year_f, month_from_time_f, date_from_time_f, week_day_f, hour_from_time_f, min_from_time_f, sec_from_time_f, ms_from_time_f};
ghost use Rattle.make.specs.Make.{make_time_f, make_day_f, make_date_f, make_full_year_f, time_clip_f};
ghost use Rattle.little_endian.specs.Bytes.{twos_complement, little_endian};
ghost use Rattle.zone.specs.Zone.{records, offset_at};
ghost use Rattle.local.specs.Local.{offset_seconds_f, local_time_f, utc_f};
ghost use Rattle.fast_atoi.specs.Inner.{moved, join4, join8};
ghost use Rattle.exports.specs.Inner.{Given, Handed, Whole, Packed, word, under_list, eight_zeros};

use text::Output;
use zone::ZoneList;

// ---- words

// A whole number as a word.
fn word(z: i64) -> u64
    ensures { result ≡ word z }
{
    z.cast_unsigned()
}

fn word32(z: i32) -> u64
    ensures { result ≡ word z }
{
    word(i64::from(z))
}

// ---- f64's own methods and saturating casts

pub fn exports_floor(x: u64) -> u64
    ensures { Given x (λ (x : Float). Handed (floor_f x) result) }
{
    float::bits_of(float::floor(float::of_bits(x)))
}

pub fn exports_trunc(x: u64) -> u64
    ensures { Given x (λ (x : Float). Handed (trunc_f x) result) }
{
    float::bits_of(float::trunc(float::of_bits(x)))
}

pub fn exports_abs(x: u64) -> u64
    ensures { Given x (λ (x : Float). Handed (abs_f x) result) }
{
    float::bits_of(float::abs(float::of_bits(x)))
}

pub fn exports_copysign(x: u64, sign: u64) -> u64
    ensures { Given x (λ (x : Float). Given sign (λ (sign : Float). Handed (copysign_f x sign) result)) }
{
    float::bits_of(float::copysign(float::of_bits(x), float::of_bits(sign)))
}

pub fn exports_rem_euclid(x: u64, by: u64) -> u64
    ensures { Given x (λ (x : Float). Given by (λ (by : Float). Handed (rem_euclid_f x by) result)) }
{
    float::bits_of(float::rem_euclid(float::of_bits(x), float::of_bits(by)))
}

pub fn exports_as_u8(x: u64) -> u64
    ensures { Given x (λ (x : Float). result ≡ to_unsigned 8 x) }
{
    u64::from(float::as_u8(float::of_bits(x)))
}

pub fn exports_as_u16(x: u64) -> u64
    ensures { Given x (λ (x : Float). result ≡ to_unsigned 16 x) }
{
    u64::from(float::as_u16(float::of_bits(x)))
}

pub fn exports_as_i32(x: u64) -> u64
    ensures { Given x (λ (x : Float). Whole (to_signed 31 x) result) }
{
    word32(float::as_i32(float::of_bits(x)))
}

pub fn exports_as_i64(x: u64) -> u64
    ensures { Given x (λ (x : Float). Whole (to_signed 63 x) result) }
{
    word(float::as_i64(float::of_bits(x)))
}

// ---- the calendar

pub fn exports_day(t: u64) -> u64
    ensures { Given t (λ (t : Float). Handed (day_f t) result) }
{
    float::bits_of(calendar::day(float::of_bits(t)))
}

pub fn exports_time_within_day(t: u64) -> u64
    ensures { Given t (λ (t : Float). Handed (time_within_day_f t) result) }
{
    float::bits_of(calendar::time_within_day(float::of_bits(t)))
}

pub fn exports_days_in_year(y: u64) -> u64
    ensures { Given y (λ (y : Float). result ≡ days_in_year_f y) }
{
    u64::from(calendar::days_in_year(float::of_bits(y)))
}

pub fn exports_day_from_year(y: u64) -> u64
    ensures { Given y (λ (y : Float). Handed (day_from_year_f y) result) }
{
    float::bits_of(calendar::day_from_year(float::of_bits(y)))
}

pub fn exports_time_from_year(y: u64) -> u64
    ensures { Given y (λ (y : Float). Handed (time_from_year_f y) result) }
{
    float::bits_of(calendar::time_from_year(float::of_bits(y)))
}

pub fn exports_year_from_time(t: u64) -> u64
    ensures { Given t (λ (t : Float). Whole (year_from_time_f t) result) }
{
    word32(calendar::year_from_time(float::of_bits(t)))
}

pub fn exports_day_within_year(t: u64) -> u64
    ensures { Given t (λ (t : Float). result ≡ day_within_year_f t) }
{
    u64::from(calendar::day_within_year(float::of_bits(t)))
}

pub fn exports_in_leap_year(t: u64) -> u64
    ensures { Given t (λ (t : Float). result ≡ in_leap_year_f t) }
{
    u64::from(calendar::in_leap_year(float::of_bits(t)))
}

pub fn exports_month_from_time(t: u64) -> u64
    ensures { Given t (λ (t : Float). result ≡ month_from_time_f t) }
{
    u64::from(calendar::month_from_time(float::of_bits(t)))
}

pub fn exports_date_from_time(t: u64) -> u64
    ensures { Given t (λ (t : Float). result ≡ date_from_time_f t) }
{
    u64::from(calendar::date_from_time(float::of_bits(t)))
}

pub fn exports_week_day(t: u64) -> u64
    ensures { Given t (λ (t : Float). result ≡ week_day_f t) }
{
    u64::from(calendar::week_day(float::of_bits(t)))
}

pub fn exports_hour_from_time(t: u64) -> u64
    ensures { Given t (λ (t : Float). result ≡ hour_from_time_f t) }
{
    u64::from(calendar::hour_from_time(float::of_bits(t)))
}

pub fn exports_min_from_time(t: u64) -> u64
    ensures { Given t (λ (t : Float). result ≡ min_from_time_f t) }
{
    u64::from(calendar::min_from_time(float::of_bits(t)))
}

pub fn exports_sec_from_time(t: u64) -> u64
    ensures { Given t (λ (t : Float). result ≡ sec_from_time_f t) }
{
    u64::from(calendar::sec_from_time(float::of_bits(t)))
}

pub fn exports_ms_from_time(t: u64) -> u64
    ensures { Given t (λ (t : Float). result ≡ ms_from_time_f t) }
{
    u64::from(calendar::ms_from_time(float::of_bits(t)))
}

// ---- the makers

pub fn exports_make_time(hour: u64, min: u64, sec: u64, ms: u64) -> u64
    ensures { Given hour (λ (hour : Float). Given min (λ (min : Float). Given sec (λ (sec : Float). Given ms (λ (ms : Float). Handed (make_time_f hour min sec ms) result)))) }
{
    float::bits_of(make::make_time(
        float::of_bits(hour),
        float::of_bits(min),
        float::of_bits(sec),
        float::of_bits(ms),
    ))
}

pub fn exports_make_day(year: u64, month: u64, date: u64) -> u64
    ensures { Given year (λ (year : Float). Given month (λ (month : Float). Given date (λ (date : Float). Handed (make_day_f year month date) result))) }
{
    float::bits_of(make::make_day(
        float::of_bits(year),
        float::of_bits(month),
        float::of_bits(date),
    ))
}

pub fn exports_make_date(day: u64, time: u64) -> u64
    ensures { Given day (λ (day : Float). Given time (λ (time : Float). Handed (make_date_f day time) result)) }
{
    float::bits_of(make::make_date(float::of_bits(day), float::of_bits(time)))
}

pub fn exports_make_full_year(year: u64) -> u64
    ensures { Given year (λ (year : Float). Handed (make_full_year_f year) result) }
{
    float::bits_of(make::make_full_year(float::of_bits(year)))
}

pub fn exports_time_clip(time: u64) -> u64
    ensures { Given time (λ (time : Float). Handed (time_clip_f time) result) }
{
    float::bits_of(make::time_clip(float::of_bits(time)))
}

// ---- the zone list and local time: 0 where the list is not accepted

#[tactic(auto, unfolding(crate::specs::Inner::under_list))]
pub fn exports_zone_accepted(zone: &[u8]) -> u64
    ensures { result ≡ under_list zone.now 1 }
{
    u64::from(ZoneList::accept(zone).is_some())
}

#[tactic(auto, unfolding(crate::specs::Inner::under_list))]
pub fn exports_zone_offset(zone: &[u8], second: u64) -> u64
    ensures { result ≡ under_list zone.now (word (offset_at (records zone.now) (twos_complement 64 second))) }
{
    ZoneList::accept(zone).map_or(0, |list| {
        word32(list.lookup(little_endian::signed64(second)))
    })
}

#[tactic(auto, unfolding(crate::specs::Inner::under_list))]
pub fn exports_local_timezone_offset_seconds(zone: &[u8], t: u64) -> u64
    ensures { result ≡ under_list zone.now (word (offset_seconds_f (records zone.now) (of_bits binary64 t))) }
{
    ZoneList::accept(zone).map_or(0, |list| {
        word32(local::local_timezone_offset_seconds(float::of_bits(t), list))
    })
}

#[tactic(auto, unfolding(crate::specs::Inner::under_list))]
pub fn exports_local_time(zone: &[u8], t: u64) -> u64
    ensures { result ≡ under_list zone.now (to_bits binary64 (local_time_f (records zone.now) (of_bits binary64 t))) }
{
    ZoneList::accept(zone).map_or(0, |list| {
        float::bits_of(local::local_time(float::of_bits(t), list))
    })
}

#[tactic(auto, unfolding(crate::specs::Inner::under_list))]
pub fn exports_utc_t(zone: &[u8], t: u64) -> u64
    ensures { result ≡ under_list zone.now (to_bits binary64 (utc_f (records zone.now) (of_bits binary64 t))) }
{
    ZoneList::accept(zone).map_or(0, |list| {
        float::bits_of(local::utc_t(float::of_bits(t), list))
    })
}

// ---- digits: a count of digits is taken from 1 to the block's bytes, and a number by as many digits as the pad has

pub fn exports_process_4(val: u64, len: u64) -> u64
    ensures { result ≡ join4 (moved 32 ((len % 4 + 3) % 4 + 1) (val % 2 ^ 32)) }
{
    u64::from(fast_atoi::process_4(
        (val % 0x1_0000_0000) as u32,
        ((len % 4 + 3) % 4 + 1) as usize,
    ))
}

pub fn exports_process_8(val: u64, len: u64) -> u64
    ensures { result ≡ join8 (moved 64 ((len % 8 + 7) % 8 + 1) val) }
{
    fast_atoi::process_8(val, ((len % 8 + 7) % 8 + 1) as usize)
}

// What is stored into eight bytes of 0, as a word.
fn packed<F: FnOnce(&mut [u8])>(store: F) -> u64
    requires { (bytes : _) → (bytes.now ≡ eight_zeros) → F.pre store bytes }
    ensures { (bytes : List ℕ) × FnOnceReturnsAtMut F.FnOnce store eight_zeros tt bytes × (result ≡ little_endian 8 bytes 0) }
{
    let mut bytes = [0u8; 8];
    store(&mut bytes);
    little_endian::u64_at(&bytes, 0)
}

pub fn exports_pad_two(t: u64) -> u64
    ensures { Packed (digits 2 (t % 100)) 2 result }
{
    packed(|bytes| text::pad_two((t % 100) as u8, &mut Output::new(bytes)))
}

pub fn exports_pad_three(t: u64) -> u64
    ensures { Packed (digits 3 (t % 1000)) 3 result }
{
    packed(|bytes| text::pad_three((t % 1000) as u16, &mut Output::new(bytes)))
}

pub fn exports_pad_four(t: u64) -> u64
    ensures { Packed (digits 4 (t % 10000)) 4 result }
{
    packed(|bytes| text::pad_four((t % 10000) as u32, &mut Output::new(bytes)))
}

pub fn exports_pad_five(t: u64) -> u64
    ensures { Packed (digits 5 (t % 100000)) 5 result }
{
    packed(|bytes| text::pad_five((t % 100000) as u32, &mut Output::new(bytes)))
}

pub fn exports_pad_six(t: u64) -> u64
    ensures { Packed (digits 6 (t % 1000000)) 6 result }
{
    packed(|bytes| text::pad_six((t % 1000000) as u32, &mut Output::new(bytes)))
}
