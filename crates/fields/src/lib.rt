// The field builder and the setters of builtins/date/mod.rs, on a time value's bits, a zone list and a field record. A local call has a zone list,
// and a UTC call none. Each contract is one definition for any bits and any bytes (specs/Outcome.antt); that it is the standard's own steps in the
// exact domain is in proofs/Outcomes.antt.
#![tactic(auto)]

ghost use Rattle.std.specs.Prelude.{◌≡◌, ◌<◌, ℕ, is_some, IfOk, Result};
ghost use Rattle.answer.specs.declared.Refusal.{Refusal};
ghost use Rattle.new_date.specs.Calls.{set, bits_of, shift_in};
ghost use Rattle.new_date.specs.Inner.{list_bytes, records_in};
ghost use Rattle.fields.specs.Outcome.{start_of, zone_row, record_rows, build_outcome, set_outcome};
ghost use Rattle.fields.specs.Inner.{zone_bytes, past};

use answer::Refusal;
use field_record::FieldRecord;
use new_date::Part;
use timevalue::TimeValue;
use zone::ZoneList;

// ---- the rows of the table. Row 2 is `timevalue`'s.

// Row 1, of a local call. It is inlined: where the list is handed on to a function, it is copied first, for a UTC call too, which has none.
#[inline(always)]
fn list_of<'a>(zone: Option<&'a [u8]>) -> Result<Option<ZoneList<'a>>, Refusal>
    ensures row { (rest : Result ℕ Refusal) → zone_row (is_some zone.entry) (zone_bytes zone.entry) rest ≡ past result rest }
    ensures same { IfOk result (λ list. (is_some list ≡ is_some zone.entry) × (list_bytes list ≡ zone_bytes zone.entry)) }
{
    let Some(bytes) = zone else {
        return Ok(None);
    };
    let list = ZoneList::accept(bytes).ok_or(Refusal::ZoneList)?;
    Ok(Some(list))
}

// Rows 3 and 4, of a call that has so many bits.
fn record_of<'a>(fields: &'a [u8], bits: u32) -> Result<FieldRecord<'a>, Refusal>
    requires { bits < 8 }
    ensures rows { (rest : Result ℕ Refusal) → record_rows bits fields.now rest ≡ past result rest }
    ensures same { IfOk result (λ made. made.bytes.now ≡ fields.now) }
{
    let made = FieldRecord::new(fields).ok_or(Refusal::RecordLength)?;
    if made.has_other_bit(bits) {
        return Err(Refusal::RecordMap);
    }
    Ok(made)
}

// ---- the builder

// Date.UTC, and the constructor of many fields
#[tactic(auto, unfolding(crate::specs::Outcome::build_outcome, new_date::specs::Calls::value_from))]
pub fn build(zone: Option<&[u8]>, fields: &[u8]) -> Result<u64, Refusal>
    ensures { result ≡ build_outcome (is_some zone.entry) (zone_bytes zone.entry) fields.now }
{
    let list = list_of(zone)?;
    let arguments = record_of(fields, 7)?;
    Ok(new_date::value_of(list, new_date::built(arguments)))
}

// ---- the setters

// How many arguments a setter has.
fn bits_of(first: Part) -> u32
    ensures { result ≡ bits_of (set first) }
{
    match first {
        Part::Milliseconds => 1,
        Part::Seconds => 2,
        Part::Minutes => 3,
        Part::Hours => 4,
        Part::Date => 1,
        Part::Month => 2,
        Part::FullYear => 3,
    }
}

// t, set to LocalTime(t) where the call is local.
fn shift_in(zone: Option<ZoneList>, t: f64) -> f64
    ensures { result ≡ shift_in (is_some zone.entry) (records_in zone.entry) t }
{
    zone.map_or(t, |list| local::local_time(t, list))
}

// Where a setter starts. Of a NaN date the setters' own operations give NaN, but for the year's.
#[tactic(auto, using(new_date::proofs::Literals::not_a_number), unfolding(crate::specs::Outcome::start_of))]
fn start_of(zone: Option<ZoneList>, date: TimeValue) -> f64
    ensures { result ≡ start_of (is_some zone.entry) (records_in zone.entry) date }
{
    match date {
        TimeValue::Time(t) => shift_in(zone, t),
        TimeValue::Nan => f64::NAN,
    }
}

// The setter that is named after this part: Date.prototype.setHours and setUTCHours for `Part::Hours`, and so on.
#[tactic(auto, unfolding(crate::specs::Outcome::set_outcome, new_date::specs::Calls::value_from))]
pub fn set(first: Part, zone: Option<&[u8]>, time: u64, fields: &[u8]) -> Result<u64, Refusal>
    ensures { result ≡ set_outcome first (is_some zone.entry) (zone_bytes zone.entry) time fields.now }
{
    let list = list_of(zone)?;
    let date = timevalue::time_value(time).ok_or(Refusal::TimeValue)?;
    let t = start_of(list, date);
    let arguments = record_of(fields, bits_of(first))?;
    Ok(new_date::value_of(list, new_date::set(first, t, arguments)))
}
