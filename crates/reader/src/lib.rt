// `finish` and `finish_local` of date/utils.rs: from the form of a text to its instant, and the reader's answer.
//
// The original makes the instant in f64. Here it is made in whole numbers and becomes an f64 at the end: the fields of a text are whole, and
// its years go to ±999,999, where f64 sums would round. The day is calendar's, and the second of a local time local's.
#![tactic(auto)]

ghost use Rattle.std.specs.Prelude.{◌≡◌, ◌+◌, ◌-◌, ◌*◌, ◌≤◌, ◌<◌, pos, nat_abs};
ghost use Rattle.ecma262.specs.Date.{make_day, make_date, time_of};
ghost use Rattle.ecma262.specs.Format.{year_number, date_fields, time_fields, form_fields, form_zone, YearBounds, DateBounds, TimeBounds, ZoneBounds, Bounds};
ghost use Rattle.zone.specs.Inner.{records_of};
ghost use Rattle.local.specs.Local.{utc_time};
ghost use Rattle.parser.specs.Inner.{as_year, as_date, as_time, as_zone, as_form};
ghost use Rattle.reader.specs.Denotes.{less_written, less_offset, instant_of};
ghost use Rattle.reader.specs.Outcome.{refusal_of, answer_at, read_outcome};

use answer::Refusal;
use parser::{Date, Fault, Form, Time, Year, Zone};
use zone::ZoneList;

// The year as written, with its sign.
fn year_number(y: Year) -> i64
    requires { YearBounds (as_year y) }
    ensures { (result ≡ year_number (as_year y)) × (nat_abs result ≤ 1_000_000) }
{
    match y {
        Year::Four(year)
        | Year::Six {
            negative: false,
            year,
        } => i64::from(year),
        Year::Six {
            negative: true,
            year,
        } => -i64::from(year),
    }
}

// MakeTime of a time's fields.
#[tactic(auto, using(ecma262::proofs::Decimals::ms_below))]
fn clock(t: Time) -> u32
    requires { TimeBounds (as_time t) }
    ensures { (result ≡ 3_600_000 * (time_fields (as_time t)).hour + 60_000 * (time_fields (as_time t)).minute + 1_000 * (time_fields (as_time t)).second + (time_fields (as_time t)).ms) × (result < 100_000_000) }
{
    let f = t.fields();
    3_600_000 * f.hour + 60_000 * f.minute + 1_000 * f.second + f.ms
}

// A form's fields, an absent one at its default: the day of the month as written, and the milliseconds of the day.
#[derive(Clone, Copy)]
struct Fields {
    year: i64,
    month: u32,
    day: u32,
    time: u32,
    ghost year_small: { nat_abs year ≤ 1_000_000 },
    ghost month_small: { month < 12 },
    ghost day_small: { day ≤ 31 },
    ghost time_small: { time < 100_000_000 },
}

impl Fields {
    // The fields as written, of a year, a date and a number of milliseconds.
    fn at(y: Year, d: Date, time: u32) -> Fields
        requires { YearBounds (as_year y) × DateBounds (as_date d) × (time < 100_000_000) }
        ensures { (result.year ≡ year_number (as_year y)) × (result.month ≡ (date_fields (as_date d)).month - 1) × (result.day ≡ (date_fields (as_date d)).day) × (result.time ≡ time) }
    {
        let (month, day) = match d {
            Date::ToYear => (1, 1),
            Date::ToMonth(month) => (month, 1),
            Date::ToDay { month, day } => (month, day),
        };
        Fields {
            year: year_number(y),
            month: month - 1,
            day,
            time,
        }
    }

    fn of(form: Form) -> Fields
        requires { Bounds (as_form form) }
        ensures { make_date (make_day result.year (pos result.month) (pos result.day)) (pos result.time) ≡ time_of (form_fields (as_form form)) }
    {
        match form {
            Form::Date(y, d) => Fields::at(y, d, 0),
            Form::Timed(y, d, t, _) => Fields::at(y, d, clock(t)),
        }
    }

    // MakeDay of the fields.
    #[tactic(auto, using(crate::proofs::Days::day_small))]
    fn day_number(self) -> i64
        ensures made { result ≡ make_day self.year (pos self.month) (pos self.day) }
        ensures small { nat_abs result ≤ 402_000_000 }
    {
        calendar::day_number(self.year, self.month, i64::from(self.day))
    }

    // MakeDate of the day and the time.
    fn time(self) -> FieldsTime
        ensures { result.ms ≡ make_date (make_day self.year (pos self.month) (pos self.day)) (pos self.time) }
    {
        FieldsTime {
            ms: self.day_number() * 86_400_000 + i64::from(self.time),
        }
    }
}

// The zone of a form, a date alone being UTC.
fn zone_of(form: Form) -> Zone
    requires { Bounds (as_form form) }
    ensures { (as_zone result ≡ form_zone (as_form form)) × ZoneBounds (as_zone result) }
{
    match form {
        Form::Date(..) => Zone::Zulu,
        Form::Timed(_, _, _, z) => z,
    }
}

// The time of the fields, which an offset can be taken from in 64 bits.
#[derive(Clone, Copy)]
struct FieldsTime {
    ms: i64,
    ghost small: { nat_abs ms ≤ 37_000_000_000_000_000 },
}

impl FieldsTime {
    // Less an offset of that sign, hour and minute: `+01:00` is ahead, so its instant is earlier.
    fn less_offset(self, negative: bool, hour: u32, minute: u32) -> i64
        requires { (hour ≤ 23) × (minute ≤ 59) }
        ensures { result ≡ less_written negative hour minute self.ms }
    {
        let offset = i64::from(clock(Time::ToMinute { hour, minute }));
        if negative {
            self.ms + offset
        } else {
            self.ms - offset
        }
    }

    // Less the offset that the list gives at it, read as an instant: `utc_t`.
    #[tactic(auto, unfolding(local::specs::Local::utc_time, local::specs::Local::offset_of_local, local::specs::Local::offset_of_instant))]
    fn less_local(self, zone: ZoneList) -> i64
        ensures { result ≡ utc_time (records_of zone.entry) self.ms }
    {
        self.ms - i64::from(zone.lookup(local::second_of(self.ms))) * 1_000
    }

    // Less the offset of a zone as it is written.
    fn less_zone(self, zone: ZoneList, z: Zone) -> i64
        requires { ZoneBounds (as_zone z) }
        ensures { result ≡ less_offset (records_of zone.entry) (as_zone z) self.ms }
    {
        match z {
            Zone::Absent => self.less_local(zone),
            Zone::Zulu => self.ms,
            Zone::ToHour { negative, hour } => self.less_offset(negative, hour, 0),
            Zone::ToMinute {
                negative,
                hour,
                minute,
            } => self.less_offset(negative, hour, minute),
        }
    }
}

// The instant of a form.
#[tactic(auto, unfolding(crate::specs::Denotes::instant_of))]
fn instant_of(zone: ZoneList, form: Form) -> i64
    requires { Bounds (as_form form) }
    ensures { result ≡ instant_of (records_of zone.entry) (as_form form) }
{
    Fields::of(form).time().less_zone(zone, zone_of(form))
}

// The answer for an instant: the range is 8,640,000,000,000,000 either way.
#[tactic(auto, using(crate::proofs::Answers::answer_beyond, crate::proofs::Answers::answer_inside))]
fn answer_at(t: i64) -> Result<u64, Refusal>
    ensures { result ≡ answer_at t }
{
    if 8_640_000_000_000_000 < t.unsigned_abs() {
        return Err(Refusal::Instant);
    }
    Ok(float::bits_of(t as f64))
}

fn refusal_of(f: Fault) -> Refusal
    ensures { result ≡ refusal_of f }
{
    match f {
        Fault::Short => Refusal::TextEnds,
        Fault::Bad => Refusal::TextByte,
        Fault::Range => Refusal::TextField,
        Fault::Trailing => Refusal::TextRest,
    }
}

// The instant that a text denotes under a zone list, or the first refusal that applies.
#[tactic(auto, using(crate::proofs::Answers::bounds), unfolding(crate::specs::Outcome::read_outcome))]
pub fn read(zone: &[u8], text: &[u8]) -> Result<u64, Refusal>
    ensures { result ≡ read_outcome zone.now text.now }
{
    let list = ZoneList::accept(zone).ok_or(Refusal::ZoneList)?;
    let form = text_reader::parse_text(text).map_err(refusal_of)?;
    answer_at(instant_of(list, form))
}
