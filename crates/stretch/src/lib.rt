// The shortest stretch of consecutive records that breaks a row. It runs each start once, over one row without a monitor, to find the least number of
// records that break the row from there. Then it tries the stretches by length and by start.
#![tactic(auto)]

ghost use Rattle.std.specs.Prelude.{◌≡◌, ◌≤◌, ◌<◌, length};
ghost use Rattle.constraint.specs.LongAnswers.{stretch_answer_of};
ghost use Rattle.constraint.specs.Stretches.{AnswersStretchUpTo};
ghost use Rattle.constraint.specs.Types.{Known};
ghost use Rattle.table_row.specs.Records.{row_in};
ghost use Rattle.stretch.specs.Machine.{seen_as, KeepsRecord, GathersRecords, NeedsFrom, NeedsEach, Searches, TriesAll};

use clock::Clock;
use constraint::{FoundStretch, Refusal, RefusedAt};
use questions::{NO_EVENT, NO_STREAM};
use ring::SIZE;
use row::{StepInput, stored};
use row_type::parts::kind_of;
use row_type::row_words::BROKEN;
use table::scan;
use table_row::TableRow;

// How many records a recording may have.
pub const RECORD_LIMIT: usize = 256;

// More records than there are. It stays a number, and no Option: the definition `Needs` compares it with the length of a stretch.
const NEVER: usize = RECORD_LIMIT + 1;

// What is kept of a record: its stream, which is NO_STREAM for a tick, and its time.
#[derive(Clone, Copy)]
pub struct KeptRecord {
    pub stream: u64,
    pub time: u64,
}

// What a row sees of a record.
fn seen(kept: KeptRecord) -> StepInput
    ensures { result ≡ seen_as kept.stream kept.time }
{
    if kept.stream == NO_STREAM {
        return StepInput {
            kind: NO_EVENT,
            stream: NO_STREAM,
            time: kept.time,
            closes: false,
        };
    }
    StepInput {
        kind: kind_of(kept.stream),
        stream: kept.stream,
        time: kept.time,
        closes: false,
    }
}

// Stores a record behind the `count` records before it, if there is room. Returns how many there are then, 257 standing for more than 256.
fn append(records: &mut [KeptRecord; 256], count: usize, o: StepInput) -> usize
    ensures { KeepsRecord records.old count o records.new result }
{
    if RECORD_LIMIT <= count {
        return NEVER;
    }
    records[count] = KeptRecord {
        stream: o.stream,
        time: o.time,
    };
    count + 1
}

// The records of a recording, and how many there are, 257 standing for more than 256: questions 13 and 14 and those of the steps.
// It stays a `while` loop: a record is as long as its own first bytes say.
fn gather(bytes: &[u8], records: &mut [KeptRecord; 256]) -> Result<usize, RefusedAt>
    requires { length records.old ≡ 256 }
    ensures { GathersRecords bytes.now records.new result }
{
    if !recording::version_known(bytes) {
        return Err(RefusedAt {
            refusal: Refusal::RecordingVersion,
            place: 0,
        });
    }
    let mut clock = Clock::start();
    let mut count = 0;
    let mut place = 1;
    while place < bytes.len() {
        let read = match clock.read(bytes, place) {
            Ok(read) => read,
            Err(refusal) => return Err(RefusedAt { refusal, place }),
        };
        count = append(records, count, questions::step_input(read.call, 0));
        place = read.next;
    }
    Ok(count)
}

// §14.2
// The least number of records from a start on that break the row; 257 where none do, as the end or a 12 comes first.
fn need_from(wanted: TableRow, records: &[KeptRecord; 256], count: usize, start: usize) -> usize
    requires { (count ≤ 256) × Known (row_in wanted) }
    ensures { NeedsFrom (row_in wanted) records.now count start result }
{
    let mut words = [[0u64; SIZE]; 2];
    stored::begin(&mut words, wanted.tag, &wanted.values);
    for at in start..count {
        let o = seen(records[at]);
        if stored::step_overflows(&words, o) {
            return NEVER;
        }
        let size = at - start + 1;
        stored::step(&mut words, o, size as u64);
        if 0 < words[1][BROKEN] {
            return size;
        }
    }
    NEVER
}

// The same for each start.
fn needs(wanted: TableRow, records: &[KeptRecord; 256], count: usize) -> [usize; 256]
    requires { (count ≤ 256) × Known (row_in wanted) }
    ensures { NeedsEach (row_in wanted) records.now count result }
{
    let mut need = [0usize; 256];
    for start in 0..count {
        need[start] = need_from(wanted, records, count, start);
    }
    need
}

// §14.3
// Returns the first stretch of `count` records, by length and then by start, that is as long as its start needs. It counts each stretch that it
// tries. It stays one `while`: two `for`s, one in the other, would break the project's rule of one loop in a function.
fn search(need: &[usize; 256], count: usize) -> Option<FoundStretch>
    requires { count ≤ 256 }
    ensures { Searches need.now count result }
{
    let mut first: usize = 0;
    let mut size: usize = 1;
    let mut tried: usize = 0;
    while size <= count {
        tried += 1;
        if need[first] <= size {
            return Some(FoundStretch {
                first: first as u8,
                size: size as u16,
                tried: tried as u32,
            });
        }
        if first + size < count {
            first += 1;
        } else {
            first = 0;
            size += 1;
        }
    }
    None
}

// A refusal without a place.
fn refused(refusal: Refusal) -> RefusedAt
    ensures { result ≡ record { refusal = refusal; place = 0 } }
{
    RefusedAt { refusal, place: 0 }
}

// The answer of a row: the first stretch that breaks it, or 23.
fn try_row(
    wanted: TableRow,
    records: &[KeptRecord; 256],
    count: usize,
) -> Result<FoundStretch, RefusedAt>
    requires { (count ≤ 256) × Known (row_in wanted) }
    ensures { TriesAll (row_in wanted) records.now count (stretch_answer_of result) }
{
    let need = needs(wanted, records, count);
    match search(&need, count) {
        Some(found) => Ok(found),
        None => Err(refused(Refusal::NoStretch)),
    }
}

// §8.22, §8.23, §14.4, §14.5
// The shortest stretch of a recording that breaks a row of a table of an edition up to the newest, and how many were tried by length and by start;
// or the refusal. For n records it takes at most n(n + 1)/2 steps of the row.
pub fn shortest(
    newest: u8,
    table: &[u8],
    recording: &[u8],
    row: u64,
) -> Result<FoundStretch, RefusedAt>
    ensures { AnswersStretchUpTo newest table.now recording.now row (stretch_answer_of result) }
{
    let found = scan::row_numbered(newest, table, row)?;
    let none = KeptRecord { stream: 0, time: 0 };
    let mut records = [none; 256];
    let count = gather(recording, &mut records)?;
    if RECORD_LIMIT < count {
        return Err(refused(Refusal::TooManyRecords));
    }
    match found {
        None => Err(refused(Refusal::NoRow)),
        Some(wanted) => try_row(wanted, &records, count),
    }
}
