// The three writers: a time value's text into a lent output, or why not.
#![tactic(auto)]

ghost use Rattle.std.specs.Prelude.{◌≡◌};
ghost use Rattle.std.specs.Float.{binary64};
ghost use Rattle.std.specs.Float.Ieee.{to_bits};
ghost use Rattle.ecma262.specs.Texts.{iso_text, utc_text, invalid_date};
ghost use Rattle.float.specs.Whole.{trunc_z};
ghost use Rattle.answer.specs.Answer.{nan_value};
ghost use Rattle.writer.specs.Inner.{IsShown, FieldsAt, replied};
ghost use Rattle.writer.specs.Outcome.{written, Leaves};
ghost use Rattle.timevalue.specs.TimeValue.{IsTime};
ghost use Rattle.zone.specs.Inner.{records_of};
ghost use Rattle.writer.specs.Writer.{iso_outcome, utc_outcome, to_date_string, local_outcome};

use answer::{NAN_VALUE, Refusal, Text};
use text::DateFields;
use timevalue::TimeValue;
use zone::ZoneList;

// The fields of a whole time, by the calendar's functions, for the printing functions.
fn date_fields(t: f64) -> DateFields
    requires { IsShown t }
    ensures { FieldsAt (trunc_z t) result }
{
    let day = calendar::year_month_date(t);
    let clock = calendar::clock_of(t);
    DateFields {
        year: day.year,
        month: day.month,
        date: day.date,
        hour: clock.hour,
        minute: clock.minute,
        second: clock.second,
        weekday: calendar::week_day(t),
        ms: clock.ms,
    }
}

// What a printing function answered, as the reply for a time value.
fn reply(value: u64, printed: Option<usize>) -> Result<Text, Refusal>
    ensures { result ≡ replied value printed }
{
    let length = printed.ok_or(Refusal::Output)?;
    Ok(Text { value, length })
}

// The ISO text, and below it the UTC text, of a whole time.
#[tactic(auto, unfolding(crate::specs::Outcome::written))]
pub fn write_iso(t: f64, output: &mut [u8]) -> Result<Text, Refusal>
    requires { IsShown t }
    ensures { Leaves (written (to_bits binary64 t) (iso_text (trunc_z t)) output.old) result output.new }
{
    let printed = text::iso_string(date_fields(t), output);
    reply(float::bits_of(t), printed)
}

#[tactic(auto, unfolding(crate::specs::Outcome::written))]
pub fn write_utc(t: f64, output: &mut [u8]) -> Result<Text, Refusal>
    requires { IsShown t }
    ensures { Leaves (written (to_bits binary64 t) (utc_text (trunc_z t)) output.old) result output.new }
{
    let printed = text::utc_string(date_fields(t), output);
    reply(float::bits_of(t), printed)
}

// ToDateString(tv) of a time of the range, under an accepted list.
pub fn to_date_string_t(tv: f64, zone: ZoneList, output: &mut [u8]) -> Result<Text, Refusal>
    requires { IsTime tv }
    ensures { Leaves (written (to_bits binary64 tv) (to_date_string (records_of zone.entry) (trunc_z tv)) output.old) result output.new }
{
    // 1. If tv is NaN, return "Invalid Date": `to_string` has tested that.
    // 2. Let t be LocalTime(tv).
    let t = local::local_time(tv, zone);
    // 3. Return DateString(t), SPACE, TimeString(t) and the suffix, which the original looks up at t and the standard at tv.
    let offset = local::local_timezone_offset_seconds(t, zone);
    let printed = text::local_string(date_fields(t), offset, output);
    reply(float::bits_of(tv), printed)
}

// The text of NaN.
#[tactic(auto, unfolding(crate::specs::Outcome::written))]
fn write_invalid(output: &mut [u8]) -> Result<Text, Refusal>
    ensures { Leaves (written nan_value invalid_date output.old) result output.new }
{
    let printed = text::invalid_date(output);
    reply(NAN_VALUE, printed)
}

// Date.prototype.toISOString
#[tactic(auto, unfolding(crate::specs::Writer::iso_outcome))]
pub fn to_iso_string(time: u64, output: &mut [u8]) -> Result<Text, Refusal>
    ensures { Leaves (iso_outcome time output.old) result output.new }
{
    match timevalue::time_value(time).ok_or(Refusal::TimeValue)? {
        TimeValue::Nan => Err(Refusal::NoTime),
        TimeValue::Time(t) => write_iso(t, output),
    }
}

// Date.prototype.toUTCString
#[tactic(auto, unfolding(crate::specs::Writer::utc_outcome))]
pub fn to_utc_string(time: u64, output: &mut [u8]) -> Result<Text, Refusal>
    ensures { Leaves (utc_outcome time output.old) result output.new }
{
    match timevalue::time_value(time).ok_or(Refusal::TimeValue)? {
        TimeValue::Nan => write_invalid(output),
        TimeValue::Time(t) => write_utc(t, output),
    }
}

// Date.prototype.toString, by ToDateString
#[tactic(auto, unfolding(crate::specs::Writer::local_outcome))]
pub fn to_string(zone: &[u8], time: u64, output: &mut [u8]) -> Result<Text, Refusal>
    ensures { Leaves (local_outcome zone.now time output.old) result output.new }
{
    let list = ZoneList::accept(zone).ok_or(Refusal::ZoneList)?;
    match timevalue::time_value(time).ok_or(Refusal::TimeValue)? {
        TimeValue::Nan => write_invalid(output),
        TimeValue::Time(t) => to_date_string_t(t, list, output),
    }
}
