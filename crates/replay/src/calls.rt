//! The calls, by a case's tag: one `match` for each group of functions.
use crate::answer_line::AnswerLine;
use crate::case::Case;
use answer::{Answer, Text};

impl Case {
    /// f64's own methods and casts.
    fn floats(&self) -> Option<u64> {
        let (x, y) = (self.first.word, self.second.word);
        Some(match &self.tag {
            b"FLOR" => exports::exports_floor(x),
            b"TRNC" => exports::exports_trunc(x),
            b"ABSF" => exports::exports_abs(x),
            b"CPSN" => exports::exports_copysign(x, y),
            b"REMU" => exports::exports_rem_euclid(x, y),
            b"TOU1" => exports::exports_as_u8(x),
            b"TOU2" => exports::exports_as_u16(x),
            b"TOI4" => exports::exports_as_i32(x),
            b"TOI8" => exports::exports_as_i64(x),
            _ => return None,
        })
    }

    /// The calendar: days and years.
    fn days(&self) -> Option<u64> {
        let t = self.first.word;
        Some(match &self.tag {
            b"DAYT" => exports::exports_day(t),
            b"YFRT" => exports::exports_year_from_time(t),
            b"DWYR" => exports::exports_day_within_year(t),
            b"INLP" => exports::exports_in_leap_year(t),
            b"MFRT" => exports::exports_month_from_time(t),
            b"DFRT" => exports::exports_date_from_time(t),
            b"WKDY" => exports::exports_week_day(t),
            b"DIYR" => exports::exports_days_in_year(t),
            b"DFYR" => exports::exports_day_from_year(t),
            b"TFYR" => exports::exports_time_from_year(t),
            _ => return None,
        })
    }

    /// The calendar: within a day.
    fn clock(&self) -> Option<u64> {
        let t = self.first.word;
        Some(match &self.tag {
            b"TWDY" => exports::exports_time_within_day(t),
            b"HFRT" => exports::exports_hour_from_time(t),
            b"MINT" => exports::exports_min_from_time(t),
            b"SFRT" => exports::exports_sec_from_time(t),
            b"MSFT" => exports::exports_ms_from_time(t),
            _ => return None,
        })
    }

    /// The makers.
    fn makers(&self) -> Option<u64> {
        let (x, y) = (self.first.word, self.second.word);
        let (z, w) = (self.third.word, self.fourth.word);
        Some(match &self.tag {
            b"MKTM" => exports::exports_make_time(x, y, z, w),
            b"MKDY" => exports::exports_make_day(x, y, z),
            b"MKDT" => exports::exports_make_date(x, y),
            b"MKFY" => exports::exports_make_full_year(x),
            b"CLIP" => exports::exports_time_clip(x),
            _ => return None,
        })
    }

    /// The zone list and local time.
    fn zones(&self) -> Option<u64> {
        let (zone, x) = (&self.first.bytes, self.second.word);
        Some(match &self.tag {
            b"ZACC" => exports::exports_zone_accepted(zone),
            b"ZOFF" => exports::exports_zone_offset(zone, x),
            b"LOFF" => exports::exports_local_timezone_offset_seconds(zone, x),
            b"LOCT" => exports::exports_local_time(zone, x),
            b"UTCT" => exports::exports_utc_t(zone, x),
            _ => return None,
        })
    }

    /// Digits.
    fn digits(&self) -> Option<u64> {
        let (x, length) = (self.first.word, self.second.word);
        Some(match &self.tag {
            b"PRC4" => exports::exports_process_4(x, length),
            b"PRC8" => exports::exports_process_8(x, length),
            b"PAD2" => exports::exports_pad_two(x),
            b"PAD3" => exports::exports_pad_three(x),
            b"PAD4" => exports::exports_pad_four(x),
            b"PAD5" => exports::exports_pad_five(x),
            b"PAD6" => exports::exports_pad_six(x),
            _ => return None,
        })
    }

    /// The setters, UTC.
    fn utc_setters(&self) -> Option<Answer> {
        let (time, fields) = (self.first.word, &self.second.bytes);
        Some(match &self.tag {
            b"UMIL" => zovattha::zovattha_set_utc_milliseconds(time, fields),
            b"USEC" => zovattha::zovattha_set_utc_seconds(time, fields),
            b"UMIN" => zovattha::zovattha_set_utc_minutes(time, fields),
            b"UHOU" => zovattha::zovattha_set_utc_hours(time, fields),
            b"UDAT" => zovattha::zovattha_set_utc_date(time, fields),
            b"UMON" => zovattha::zovattha_set_utc_month(time, fields),
            b"UFYR" => zovattha::zovattha_set_utc_full_year(time, fields),
            _ => return None,
        })
    }

    /// The setters, local.
    fn local_setters(&self) -> Option<Answer> {
        let (zone, time, fields) = (&self.first.bytes, self.second.word, &self.third.bytes);
        Some(match &self.tag {
            b"LMIL" => zovattha::zovattha_set_milliseconds(zone, time, fields),
            b"LSEC" => zovattha::zovattha_set_seconds(zone, time, fields),
            b"LMIN" => zovattha::zovattha_set_minutes(zone, time, fields),
            b"LHOU" => zovattha::zovattha_set_hours(zone, time, fields),
            b"LDAT" => zovattha::zovattha_set_date(zone, time, fields),
            b"LMON" => zovattha::zovattha_set_month(zone, time, fields),
            b"LFYR" => zovattha::zovattha_set_full_year(zone, time, fields),
            _ => return None,
        })
    }

    /// The reader and the builder.
    fn reader_and_builder(&self) -> Option<Answer> {
        let (first, second) = (&self.first.bytes, &self.second.bytes);
        Some(match &self.tag {
            b"READ" => zovattha::zovattha_read(first, second),
            b"BUTC" => zovattha::zovattha_build_utc(first),
            b"BLOC" => zovattha::zovattha_build_local(first, second),
            _ => return None,
        })
    }

    /// The writers of an instant, whose output is the second field.
    fn utc_writers(&mut self) -> Option<Answer> {
        let (time, output) = (self.first.word, &mut self.second.bytes);
        Some(match &self.tag {
            b"WISO" => zovattha::zovattha_to_iso_string(time, output),
            b"WUTC" => zovattha::zovattha_to_utc_string(time, output),
            _ => return None,
        })
    }

    /// Those that take a zone list, whose output is the third field.
    fn local_writers(&mut self) -> Option<Answer> {
        let (zone, output) = (&self.first.bytes, &mut self.third.bytes);
        Some(match &self.tag {
            b"REWR" => zovattha::zovattha_rewrite(zone, &self.second.bytes, output),
            b"WLOC" => zovattha::zovattha_to_string(zone, self.second.word, output),
            _ => return None,
        })
    }

    /// The answer of a function that writes no output; one that is no C function gives a value alone.
    fn answer(&self) -> Option<Answer> {
        self.floats()
            .or_else(|| self.days())
            .or_else(|| self.clock())
            .or_else(|| self.makers())
            .or_else(|| self.digits())
            .or_else(|| self.zones())
            .map(|value| Answer::from(Text { value, length: 0 }))
            .or_else(|| self.reader_and_builder())
            .or_else(|| self.utc_setters())
            .or_else(|| self.local_setters())
    }

    /// Calls what the tag names; `None` where that is not known.
    pub(crate) fn answer_line(&mut self) -> Option<AnswerLine<'_>> {
        if let Some(answer) = self.answer() {
            return Some(AnswerLine {
                answer,
                output: &[],
            });
        }
        if let Some(answer) = self.utc_writers() {
            return Some(AnswerLine {
                answer,
                output: &self.second.bytes,
            });
        }
        let answer = self.local_writers()?;
        Some(AnswerLine {
            answer,
            output: &self.third.bytes,
        })
    }
}
