// Stamps known within a range: whether a Repeat row of span 1 is kept for every choice of true times, for none, or only for some.
#![tactic(auto)]

ghost use Rattle.std.specs.Prelude.{◌≡◌, Option};
ghost use Rattle.constraint.specs.LongAnswers.{stamped_of};
ghost use Rattle.constraint.specs.Stamps.{AnswersStampsUpTo};
ghost use Rattle.stamps.specs.Words.{stamped_word};
ghost use Rattle.stamps.specs.Machine.{next_low, next_high, first_stamp, pair_fits, later_stamp, stamp_after, call_after, close_verdict};
ghost use Rattle.stamps.specs.Machine.{stamps_verdict, PassesStamps, Finds};

use clock::Clock;
use constraint::{Call, LAST_TIME, NO_LIMIT, Refusal, RefusedAt, StampedVerdict};
use table::scan;
use table_row::TableRow;

// The type byte of a Repeat.
const REPEAT: u8 = 3;

// A Repeat row of span 1, and by how much its stamps are late at most.
#[derive(Clone, Copy, Default)]
pub struct LateRow {
    pub event: u64,
    pub lower: u64,
    pub upper: u64,
    pub late: u64,
}

// What is kept of its stamps, after the first one.
#[derive(Clone, Copy)]
pub struct Stamps {
    // the last one
    pub stamp: u64,
    // its true time can be from earliest to the stamp
    pub earliest: u64,
    // and from low to high where all are lower to upper apart
    pub low: u64,
    pub high: u64,
    // each choice of true times is lower to upper apart; some choice is
    pub each: bool,
    pub some: bool,
}

// The word for what a row reads: kept, broken or unsure.
pub fn word(verdict: StampedVerdict) -> &'static str
    ensures { result.now ≡ stamped_word verdict }
{
    match verdict {
        StampedVerdict::Kept => "kept",
        StampedVerdict::Broken => "broken",
        StampedVerdict::Unsure => "unsure",
    }
}

// The first place of a true time stamped t.
fn next_low(lower: u64, late: u64, low: u64, t: u64) -> u64
    ensures { result ≡ next_low lower late low t }
{
    low.saturating_add(lower.max(1)).max(t.saturating_sub(late))
}

// Its last place.
fn next_high(upper: u64, high: u64, t: u64) -> u64
    ensures { result ≡ next_high upper high t }
{
    if upper == NO_LIMIT {
        return t;
    }
    high.saturating_add(upper).min(t)
}

impl LateRow {
    // Whether each two true times of the last two stamps are lower to upper apart.
    fn pair_fits(self, earliest: u64, next: u64, stamp: u64, t: u64) -> bool
        ensures { result ≡ pair_fits self earliest next stamp t }
    {
        self.lower <= next.saturating_sub(stamp).max(1) && t <= earliest.saturating_add(self.upper)
    }

    // With the first stamp.
    fn first(self, t: u64) -> Stamps
        ensures { result ≡ first_stamp self t }
    {
        let earliest = t.saturating_sub(self.late);
        Stamps {
            stamp: t,
            earliest,
            low: earliest,
            high: t,
            each: true,
            some: true,
        }
    }

    // With a later stamp.
    #[tactic(auto, unfolding(crate::specs::Machine::later_stamp))]
    fn later(self, s: Stamps, t: u64) -> Stamps
        ensures { result ≡ later_stamp self s t }
    {
        let earliest = next_low(0, self.late, s.earliest, t);
        let low = next_low(self.lower, self.late, s.low, t);
        let high = next_high(self.upper, s.high, t);
        Stamps {
            stamp: t,
            earliest,
            low,
            high,
            each: s.each && self.pair_fits(s.earliest, earliest, s.stamp, t),
            some: s.some && self.lower.max(1) <= self.upper && low <= high,
        }
    }

    // With one stamp more.
    fn stamped(self, stamps: Option<Stamps>, t: u64) -> Stamps
        ensures { result ≡ stamp_after self stamps t }
    {
        match stamps {
            Some(s) => self.later(s, t),
            None => self.first(t),
        }
    }

    // After a call.
    fn after(self, stamps: Option<Stamps>, call: Call) -> Option<Stamps>
        ensures { result ≡ call_after self stamps call }
    {
        match call {
            Call::Event { kind, time } if kind as u64 == self.event => {
                Some(self.stamped(stamps, time))
            }
            _ => stamps,
        }
    }

    // What the row reads at the clock where there was a stamp.
    #[tactic(auto, unfolding(crate::specs::Machine::close_verdict))]
    fn reads(self, s: Stamps, now: u64) -> StampedVerdict
        ensures { result ≡ close_verdict self s now }
    {
        if s.each && now <= s.earliest.saturating_add(self.upper) {
            return StampedVerdict::Kept;
        }
        if s.some && now <= s.high.saturating_add(self.upper) {
            return StampedVerdict::Unsure;
        }
        StampedVerdict::Broken
    }

    // What it reads there in any case.
    fn verdict(self, stamps: Option<Stamps>, now: u64) -> StampedVerdict
        ensures { result ≡ stamps_verdict self stamps now }
    {
        match stamps {
            Some(s) => self.reads(s, now),
            None => StampedVerdict::Kept,
        }
    }
}

// §12.3
// The pass over a recording: questions 13 and 14 and those of the steps, and what the row reads in the end.
fn pass(bytes: &[u8], asked: LateRow) -> Result<StampedVerdict, RefusedAt>
    ensures { PassesStamps bytes.now asked result }
{
    if !recording::version_known(bytes) {
        return Err(RefusedAt {
            refusal: Refusal::RecordingVersion,
            place: 0,
        });
    }
    let mut clock = Clock::start();
    let mut stamps: Option<Stamps> = None;
    let mut place: usize = 1;
    // A walk by place: a turn goes on by as many bytes as it reads, and a `for` can't.
    while place < bytes.len() {
        let read = match clock.read(bytes, place) {
            Ok(read) => read,
            Err(refusal) => return Err(RefusedAt { refusal, place }),
        };
        stamps = asked.after(stamps, read.call);
        place = clock.ticks(bytes, read.next);
    }
    Ok(asked.verdict(stamps, clock.time))
}

// The Repeat of span 1 that a row is, if there is a row: questions 15 and 25.
fn row_of(row: Option<TableRow>, late: u64) -> Result<LateRow, Refusal>
    ensures { Finds row late result }
{
    let Some(row) = row else {
        return Err(Refusal::NoRow);
    };
    let values = row.values;
    if row.tag != REPEAT || values[1] != 1 {
        return Err(Refusal::NotRepeat);
    }
    Ok(LateRow {
        event: values[0],
        lower: values[2],
        upper: values[3],
        late,
    })
}

// §8.25, §12.4, §12.5
// What a row of a table of an edition up to the newest reads at the close of a recording whose stamps are late by at most so much; or the refusal.
pub fn read(
    newest: u8,
    table: &[u8],
    recording: &[u8],
    row: u64,
    late: u64,
) -> Result<StampedVerdict, RefusedAt>
    ensures { AnswersStampsUpTo newest table.now recording.now row late (stamped_of result) }
{
    let found = row_of(scan::row_numbered(newest, table, row)?, late);
    // The recording is judged before the row, over any row where there is none to ask.
    let verdict = pass(recording, found.unwrap_or_default())?;
    if let Err(refusal) = found {
        return Err(RefusedAt { refusal, place: 0 });
    }
    if LAST_TIME < late {
        return Err(RefusedAt {
            refusal: Refusal::TimeRange,
            place: 0,
        });
    }
    Ok(verdict)
}
