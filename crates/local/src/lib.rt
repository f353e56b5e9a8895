// Local time of builtins/date/utils.rs under a zone list, function by function under its names. Each contract is the original's operations
// in its order (specs/Local.antt), for every f64; what they are on whole times is in proofs/Whole.antt. Of a whole time, which nearly every
// time is, the second is worked out in integers.
#![tactic(auto)]

ghost use Rattle.std.specs.Prelude.{◌≡◌, ◌≤◌, nat_abs};
ghost use Rattle.zone.specs.Inner.{records_of};
ghost use Rattle.local.specs.Local.{asked_second, asked_second_f, offset_seconds_f, shift_f, local_time_f, utc_f};

use calendar::MS_PER_SECOND;
use zone::ZoneList;

// The seconds before 1970 from which calendar counts a time.
const SECONDS_BEFORE_1970: i64 = calendar::MS_BEFORE_1970 / 1_000;

// The second of a whole time, rounded down: counted as calendar does, no time is negative, and an unsigned quotient rounds down.
pub fn second_of(t: i64) -> i64
    requires { nat_abs t ≤ 37_000_000_000_000_000 }
    ensures { result ≡ asked_second t }
{
    (calendar::counted(t) / 1_000) as i64 - SECONDS_BEFORE_1970
}

// The second to look up; beyond 64 bits the nearest end. The quick way is for whole times whose operations below are exact.
fn asked_second(t: f64) -> i64
    ensures { result ≡ asked_second_f t }
{
    if float::is_whole_within(t, 8_999_999_999_999_999.0) {
        return second_of(float::exact_i64(t));
    }
    let millis = float::rem_euclid(t, MS_PER_SECOND);
    float::as_i64((t - millis) / MS_PER_SECOND)
}

// The offset at t, read as an instant.
#[tactic(auto, unfolding(crate::specs::Local::offset_seconds_f))]
pub fn local_timezone_offset_seconds(t: f64, zone: ZoneList) -> i32
    ensures { result ≡ offset_seconds_f (records_of zone.entry) t }
{
    zone.lookup(asked_second(t))
}

// That offset in milliseconds.
fn shift(t: f64, zone: ZoneList) -> f64
    ensures { result ≡ shift_f (records_of zone.entry) t }
{
    f64::from(local_timezone_offset_seconds(t, zone)) * MS_PER_SECOND
}

// LocalTime(t)
#[tactic(auto, unfolding(crate::specs::Local::local_time_f))]
pub fn local_time(t: f64, zone: ZoneList) -> f64
    ensures { result ≡ local_time_f (records_of zone.entry) t }
{
    t + shift(t, zone)
}

// UTC(t)
pub fn utc_t(t: f64, zone: ZoneList) -> f64
    ensures { result ≡ utc_f (records_of zone.entry) t }
{
    // 1. If t is not finite, return NaN.
    if !t.is_finite() {
        return f64::NAN;
    }
    t - shift(t, zone)
}
