// The zone list as "a lent run of records, each a second and an offset": a slice of records, judged and searched as the bytes are, through the
// same definitions.
#![tactic(auto)]

ghost use Rattle.std.specs.Prelude.{◌≡◌, leb, nat_abs};
ghost use Rattle.std.specs.List.{IsAllAdjacentAnswer};
ghost use Rattle.zone.specs.Zone.{IsZoneList, is_zone_list, offset_at};
ghost use Rattle.zone_records.specs.Slice.{as_records};
ghost use Rattle.zone_records.specs.Inner.{follows};

use zone::{LARGEST_OFFSET, MOST_RECORDS};

#[derive(Clone, Copy)]
pub struct ZoneRecord {
    pub second: i64,
    pub offset: i32,
}

// Whether a slice of records is a zone list, by the rule that bytes are judged by.
pub fn accept(zone: &[ZoneRecord]) -> bool
    ensures { result ≡ is_zone_list (as_records zone.now) }
{
    (1..=MOST_RECORDS).contains(&zone.len()) && is_bounded(zone[0].offset) && all_follow(zone)
}

// Less than a day, forwards or back.
fn is_bounded(offset: i32) -> bool
    ensures { result ≡ leb (nat_abs offset) 86399 }
{
    (-LARGEST_OFFSET..=LARGEST_OFFSET).contains(&offset)
}

// Whether each record but the first is within the bounds and after the one before it: in one pass, so that a fault is met as early as it stands.
fn all_follow(zone: &[ZoneRecord]) -> bool
    ensures { IsAllAdjacentAnswer (λ y z b. b ≡ follows y z) zone.now result }
{
    zone.is_sorted_by(|before, after| {
        (-LARGEST_OFFSET..=LARGEST_OFFSET).contains(&after.offset) && before.second < after.second
    })
}

// The offset that a slice of records gives at a second: of the last record not after it, or of the first.
pub fn lookup(zone: &[ZoneRecord], second: i64) -> i32
    requires { IsZoneList (as_records zone.now) }
    ensures { result ≡ offset_at (as_records zone.now) second }
{
    let after = zone.partition_point(|record| record.second <= second);
    zone[after.saturating_sub(1)].offset
}
