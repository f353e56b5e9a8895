// Judges the lists of records that stand in stdin, each as many records as two bytes say, and looks up seconds 2^30 apart in those that are
// accepted: each offset is a line, and so is each refusal. README.md says where stdin and stdout come from.
#![tactic(auto)]

use std::io::Read;
use zone_records::ZoneRecord;

// No list of more records is judged: one that says more ends the run.
const MOST_RECORDS: usize = 1025;

// A proved loop ends: no more lists than this are judged.
const MOST_LISTS: u32 = 16;

// The next record. Bytes that are missing at the end of the input are zero.
fn next_record(rt: &HostRuntime) -> ZoneRecord {
    let mut bytes = [0; 12];
    let _ = rt.stdin().read_exact(&mut bytes);
    ZoneRecord {
        second: zone::second_at(&bytes, 0),
        offset: zone::offset_at(&bytes, 0),
    }
}

// The seconds asked: in steps of 2^30, from before the first record of the longest list of stdin to past its last. A write that fails is passed over.
fn judge(rt: &HostRuntime, list: &[ZoneRecord]) {
    if !zone_records::accept(list) {
        let _ = println!(rt; "refused");
        return;
    }
    for step in -1028..=1028 {
        let offset = zone_records::lookup(list, step << 30);
        let _ = println!(rt; "{offset}");
    }
}

// Judges each list as soon as it is read. Where no size is left, or a read fails, the input has ended.
fn main(rt: HostRuntime) {
    let none = ZoneRecord {
        second: 0,
        offset: 0,
    };
    let mut records = [none; MOST_RECORDS];
    for _ in 0..MOST_LISTS {
        let mut size = [0; 2];
        if rt.stdin().read_exact(&mut size).is_err() {
            return;
        }
        let Some(list) = records.get_mut(..usize::from(u16::from_le_bytes(size))) else {
            return;
        };
        for record in list.iter_mut() {
            *record = next_record(&rt);
        }
        judge(&rt, list);
    }
}
