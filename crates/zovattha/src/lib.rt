// The functions of include/zovattha.h, and nothing else; the crate `zovattha_c` exports each under its name. None has a `requires`: any bits
// and any bytes get an answer.
#![tactic(auto)]

ghost use Rattle.std.specs.Prelude.{◌≡◌, true, false, []};
ghost use Rattle.answer.specs.Answer.{answer_of_time};
ghost use Rattle.new_date.specs.declared.Part.TheVariants.{Milliseconds, Seconds, Minutes, Hours, Date, Month, FullYear};
ghost use Rattle.fields.specs.Outcome.{build_outcome, set_outcome};
ghost use Rattle.reader.specs.Outcome.{read_outcome};
ghost use Rattle.rewrite.specs.Rewrite.{rewrite_outcome};
ghost use Rattle.writer.specs.Writer.{iso_outcome, utc_outcome, local_outcome};
ghost use Rattle.zovattha.specs.Call.{Answers};

use answer::Answer;
use new_date::Part;

// ---- the reader and rewriting

pub fn zovattha_read(zone: &[u8], text: &[u8]) -> Answer
    ensures { result ≡ answer_of_time (read_outcome zone.now text.now) }
{
    reader::read(zone, text).into()
}

pub fn zovattha_rewrite(zone: &[u8], text: &[u8], out: &mut [u8]) -> Answer
    ensures { Answers (rewrite_outcome zone.now text.now out.old) result out.new }
{
    rewrite::rewrite(zone, text, out).into()
}

// ---- writers

pub fn zovattha_to_iso_string(time: u64, out: &mut [u8]) -> Answer
    ensures { Answers (iso_outcome time out.old) result out.new }
{
    writer::to_iso_string(time, out).into()
}

pub fn zovattha_to_utc_string(time: u64, out: &mut [u8]) -> Answer
    ensures { Answers (utc_outcome time out.old) result out.new }
{
    writer::to_utc_string(time, out).into()
}

// The local writer.
pub fn zovattha_to_string(zone: &[u8], time: u64, out: &mut [u8]) -> Answer
    ensures { Answers (local_outcome zone.now time out.old) result out.new }
{
    writer::to_string(zone, time, out).into()
}

// ---- the field builder and the setters. A UTC call takes no zone list.

pub fn zovattha_build_utc(fields: &[u8]) -> Answer
    ensures { result ≡ answer_of_time (build_outcome false [] fields.now) }
{
    fields::build(None, fields).into()
}

pub fn zovattha_build_local(zone: &[u8], fields: &[u8]) -> Answer
    ensures { result ≡ answer_of_time (build_outcome true zone.now fields.now) }
{
    fields::build(Some(zone), fields).into()
}

pub fn zovattha_set_utc_milliseconds(time: u64, fields: &[u8]) -> Answer
    ensures { result ≡ answer_of_time (set_outcome Milliseconds false [] time fields.now) }
{
    fields::set(Part::Milliseconds, None, time, fields).into()
}

pub fn zovattha_set_milliseconds(zone: &[u8], time: u64, fields: &[u8]) -> Answer
    ensures { result ≡ answer_of_time (set_outcome Milliseconds true zone.now time fields.now) }
{
    fields::set(Part::Milliseconds, Some(zone), time, fields).into()
}

pub fn zovattha_set_utc_seconds(time: u64, fields: &[u8]) -> Answer
    ensures { result ≡ answer_of_time (set_outcome Seconds false [] time fields.now) }
{
    fields::set(Part::Seconds, None, time, fields).into()
}

pub fn zovattha_set_seconds(zone: &[u8], time: u64, fields: &[u8]) -> Answer
    ensures { result ≡ answer_of_time (set_outcome Seconds true zone.now time fields.now) }
{
    fields::set(Part::Seconds, Some(zone), time, fields).into()
}

pub fn zovattha_set_utc_minutes(time: u64, fields: &[u8]) -> Answer
    ensures { result ≡ answer_of_time (set_outcome Minutes false [] time fields.now) }
{
    fields::set(Part::Minutes, None, time, fields).into()
}

pub fn zovattha_set_minutes(zone: &[u8], time: u64, fields: &[u8]) -> Answer
    ensures { result ≡ answer_of_time (set_outcome Minutes true zone.now time fields.now) }
{
    fields::set(Part::Minutes, Some(zone), time, fields).into()
}

pub fn zovattha_set_utc_hours(time: u64, fields: &[u8]) -> Answer
    ensures { result ≡ answer_of_time (set_outcome Hours false [] time fields.now) }
{
    fields::set(Part::Hours, None, time, fields).into()
}

pub fn zovattha_set_hours(zone: &[u8], time: u64, fields: &[u8]) -> Answer
    ensures { result ≡ answer_of_time (set_outcome Hours true zone.now time fields.now) }
{
    fields::set(Part::Hours, Some(zone), time, fields).into()
}

pub fn zovattha_set_utc_date(time: u64, fields: &[u8]) -> Answer
    ensures { result ≡ answer_of_time (set_outcome Date false [] time fields.now) }
{
    fields::set(Part::Date, None, time, fields).into()
}

pub fn zovattha_set_date(zone: &[u8], time: u64, fields: &[u8]) -> Answer
    ensures { result ≡ answer_of_time (set_outcome Date true zone.now time fields.now) }
{
    fields::set(Part::Date, Some(zone), time, fields).into()
}

pub fn zovattha_set_utc_month(time: u64, fields: &[u8]) -> Answer
    ensures { result ≡ answer_of_time (set_outcome Month false [] time fields.now) }
{
    fields::set(Part::Month, None, time, fields).into()
}

pub fn zovattha_set_month(zone: &[u8], time: u64, fields: &[u8]) -> Answer
    ensures { result ≡ answer_of_time (set_outcome Month true zone.now time fields.now) }
{
    fields::set(Part::Month, Some(zone), time, fields).into()
}

pub fn zovattha_set_utc_full_year(time: u64, fields: &[u8]) -> Answer
    ensures { result ≡ answer_of_time (set_outcome FullYear false [] time fields.now) }
{
    fields::set(Part::FullYear, None, time, fields).into()
}

pub fn zovattha_set_full_year(zone: &[u8], time: u64, fields: &[u8]) -> Answer
    ensures { result ≡ answer_of_time (set_outcome FullYear true zone.now time fields.now) }
{
    fields::set(Part::FullYear, Some(zone), time, fields).into()
}
