// The static library behind include/zovattha.h: each function of `zovattha` under its name for C, with its clauses. Nothing else is here.
#![tactic(auto)]

ghost use Rattle.std.specs.Prelude.{◌≡◌, true, false, []};
ghost use Rattle.answer.specs.Answer.{answer_of_time};
ghost use Rattle.new_date.specs.declared.Part.TheVariants.{Milliseconds, Seconds, Minutes, Hours, Date, Month, FullYear};
ghost use Rattle.fields.specs.Outcome.{build_outcome, set_outcome};
ghost use Rattle.reader.specs.Outcome.{read_outcome};
ghost use Rattle.rewrite.specs.Rewrite.{rewrite_outcome};
ghost use Rattle.writer.specs.Writer.{iso_outcome, utc_outcome, local_outcome};
ghost use Rattle.zovattha.specs.Call.{Answers};

use answer::Answer;

#[unsafe(no_mangle)]
pub extern "C" fn zovattha_read(zone: &[u8], text: &[u8]) -> Answer
    ensures { result ≡ answer_of_time (read_outcome zone.now text.now) }
{
    zovattha::zovattha_read(zone, text)
}

#[unsafe(no_mangle)]
pub extern "C" fn zovattha_rewrite(zone: &[u8], text: &[u8], out: &mut [u8]) -> Answer
    ensures { Answers (rewrite_outcome zone.now text.now out.old) result out.new }
{
    zovattha::zovattha_rewrite(zone, text, out)
}

#[unsafe(no_mangle)]
pub extern "C" fn zovattha_to_iso_string(time: u64, out: &mut [u8]) -> Answer
    ensures { Answers (iso_outcome time out.old) result out.new }
{
    zovattha::zovattha_to_iso_string(time, out)
}

#[unsafe(no_mangle)]
pub extern "C" fn zovattha_to_utc_string(time: u64, out: &mut [u8]) -> Answer
    ensures { Answers (utc_outcome time out.old) result out.new }
{
    zovattha::zovattha_to_utc_string(time, out)
}

#[unsafe(no_mangle)]
pub extern "C" fn zovattha_to_string(zone: &[u8], time: u64, out: &mut [u8]) -> Answer
    ensures { Answers (local_outcome zone.now time out.old) result out.new }
{
    zovattha::zovattha_to_string(zone, time, out)
}

#[unsafe(no_mangle)]
pub extern "C" fn zovattha_build_utc(fields: &[u8]) -> Answer
    ensures { result ≡ answer_of_time (build_outcome false [] fields.now) }
{
    zovattha::zovattha_build_utc(fields)
}

#[unsafe(no_mangle)]
pub extern "C" fn zovattha_build_local(zone: &[u8], fields: &[u8]) -> Answer
    ensures { result ≡ answer_of_time (build_outcome true zone.now fields.now) }
{
    zovattha::zovattha_build_local(zone, fields)
}

#[unsafe(no_mangle)]
pub extern "C" fn zovattha_set_utc_milliseconds(time: u64, fields: &[u8]) -> Answer
    ensures { result ≡ answer_of_time (set_outcome Milliseconds false [] time fields.now) }
{
    zovattha::zovattha_set_utc_milliseconds(time, fields)
}

#[unsafe(no_mangle)]
pub extern "C" fn zovattha_set_milliseconds(zone: &[u8], time: u64, fields: &[u8]) -> Answer
    ensures { result ≡ answer_of_time (set_outcome Milliseconds true zone.now time fields.now) }
{
    zovattha::zovattha_set_milliseconds(zone, time, fields)
}

#[unsafe(no_mangle)]
pub extern "C" fn zovattha_set_utc_seconds(time: u64, fields: &[u8]) -> Answer
    ensures { result ≡ answer_of_time (set_outcome Seconds false [] time fields.now) }
{
    zovattha::zovattha_set_utc_seconds(time, fields)
}

#[unsafe(no_mangle)]
pub extern "C" fn zovattha_set_seconds(zone: &[u8], time: u64, fields: &[u8]) -> Answer
    ensures { result ≡ answer_of_time (set_outcome Seconds true zone.now time fields.now) }
{
    zovattha::zovattha_set_seconds(zone, time, fields)
}

#[unsafe(no_mangle)]
pub extern "C" fn zovattha_set_utc_minutes(time: u64, fields: &[u8]) -> Answer
    ensures { result ≡ answer_of_time (set_outcome Minutes false [] time fields.now) }
{
    zovattha::zovattha_set_utc_minutes(time, fields)
}

#[unsafe(no_mangle)]
pub extern "C" fn zovattha_set_minutes(zone: &[u8], time: u64, fields: &[u8]) -> Answer
    ensures { result ≡ answer_of_time (set_outcome Minutes true zone.now time fields.now) }
{
    zovattha::zovattha_set_minutes(zone, time, fields)
}

#[unsafe(no_mangle)]
pub extern "C" fn zovattha_set_utc_hours(time: u64, fields: &[u8]) -> Answer
    ensures { result ≡ answer_of_time (set_outcome Hours false [] time fields.now) }
{
    zovattha::zovattha_set_utc_hours(time, fields)
}

#[unsafe(no_mangle)]
pub extern "C" fn zovattha_set_hours(zone: &[u8], time: u64, fields: &[u8]) -> Answer
    ensures { result ≡ answer_of_time (set_outcome Hours true zone.now time fields.now) }
{
    zovattha::zovattha_set_hours(zone, time, fields)
}

#[unsafe(no_mangle)]
pub extern "C" fn zovattha_set_utc_date(time: u64, fields: &[u8]) -> Answer
    ensures { result ≡ answer_of_time (set_outcome Date false [] time fields.now) }
{
    zovattha::zovattha_set_utc_date(time, fields)
}

#[unsafe(no_mangle)]
pub extern "C" fn zovattha_set_date(zone: &[u8], time: u64, fields: &[u8]) -> Answer
    ensures { result ≡ answer_of_time (set_outcome Date true zone.now time fields.now) }
{
    zovattha::zovattha_set_date(zone, time, fields)
}

#[unsafe(no_mangle)]
pub extern "C" fn zovattha_set_utc_month(time: u64, fields: &[u8]) -> Answer
    ensures { result ≡ answer_of_time (set_outcome Month false [] time fields.now) }
{
    zovattha::zovattha_set_utc_month(time, fields)
}

#[unsafe(no_mangle)]
pub extern "C" fn zovattha_set_month(zone: &[u8], time: u64, fields: &[u8]) -> Answer
    ensures { result ≡ answer_of_time (set_outcome Month true zone.now time fields.now) }
{
    zovattha::zovattha_set_month(zone, time, fields)
}

#[unsafe(no_mangle)]
pub extern "C" fn zovattha_set_utc_full_year(time: u64, fields: &[u8]) -> Answer
    ensures { result ≡ answer_of_time (set_outcome FullYear false [] time fields.now) }
{
    zovattha::zovattha_set_utc_full_year(time, fields)
}

#[unsafe(no_mangle)]
pub extern "C" fn zovattha_set_full_year(zone: &[u8], time: u64, fields: &[u8]) -> Answer
    ensures { result ≡ answer_of_time (set_outcome FullYear true zone.now time fields.now) }
{
    zovattha::zovattha_set_full_year(zone, time, fields)
}
