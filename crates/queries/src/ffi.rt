// What a host can ask of a lent monitor. These calls only read its words.
ghost use Rattle.std.specs.Prelude.{◌<◌, ◌≤◌, ◌≡◌, ltb, unwrap_or};
ghost use Rattle.constraint.specs.Limits.{no_limit};
ghost use Rattle.constraint.specs.declared.Call.{Call};
ghost use Rattle.row.specs.StepParts.{crowded_by};
ghost use Rattle.row.specs.Machine.{mark};
ghost use Rattle.monitor.specs.declared.Monitor.{Monitor};
ghost use Rattle.in_place.specs.Layout.{row_at};
ghost use Rattle.in_place.specs.Contract.{HoldsMonitor, ReadOff};
ghost use Rattle.queries.specs.Numbers.{deadline_by, first_marked, waiting_at, oldest_at, oldest_stream_at};
ghost use Rattle.queries.specs.Oldest.{no_stream};
ghost use Rattle.queries.specs.Contract.{PlaceOf};
ghost use Rattle.queries.specs.Contract.{AsksClock, AsksSteps, AsksClosed, AsksBrokenRows, AsksWaiting};
ghost use Rattle.queries.specs.Contract.{AsksRowDeadline, AsksDeadline, AsksCrowdedRow, AsksCause, AsksMoment, AsksOldest, AsksOldestStream};

use crate::{NO_STREAM, cause_by, deadline_by, moment_by, oldest_kind, stream_from, waiting_by};
use constraint::NO_LIMIT;
use in_place::calls::event_refusal;
use in_place::{CLOCK, COUNT, NUMBERS, Words, closed, held};
use questions::event_of;
use ring::time_at;
use row::StepInput;
use row::stored::step_overflows;
use row_type::row_words::{BROKEN, DUE, HEAD, KEPT, LEN, TYPE_TAG};

// §15.1
// Returns the clock.
#[unsafe(no_mangle)]
pub extern "C" fn delkuthi_clock(m: &Words) -> u64
    ensures { ReadOff m.now AsksClock result }
{
    m[NUMBERS][0][CLOCK]
}

// §15.2
// Returns the number of steps taken, including the close.
#[unsafe(no_mangle)]
pub extern "C" fn delkuthi_steps(m: &Words) -> u64
    ensures { ReadOff m.now AsksSteps result }
{
    m[NUMBERS][0][COUNT]
}

// §15.3, §15.13
// Returns 1 once the recording is closed, else 0. It returns no other number, whatever the monitor's memory holds.
#[unsafe(no_mangle)]
pub extern "C" fn delkuthi_closed(m: &Words) -> u8
    ensures { (result ≤ 1) × ReadOff m.now AsksClosed result }
{
    u8::from(closed(m))
}

// Returns the place of a row, if there is a row of that number.
fn place_of(m: &Words, row: u64) -> Option<usize>
    ensures { PlaceOf m.now row result }
{
    (row < held(m) as u64).then_some(row as usize)
}

// Returns the deadline of a row that exists.
fn deadline_at(m: &Words, i: usize) -> u64
    requires { i < 32 }
    ensures { (n : Monitor) → HoldsMonitor m.now n → result ≡ deadline_by n.closed (row_at n i).now.broken (row_at n i).now.due }
{
    deadline_by(u64::from(closed(m)), m[i][1][BROKEN], m[i][1][DUE])
}

// §15.8
// Returns the deadline of a row, or the largest number if it has none.
#[unsafe(no_mangle)]
pub extern "C" fn delkuthi_row_deadline(m: &Words, row: u64) -> u64
    ensures { ReadOff m.now (λ monitor. AsksRowDeadline monitor row) result }
{
    match place_of(m, row) {
        Some(i) => deadline_at(m, i),
        None => NO_LIMIT,
    }
}

// §15.9
// Returns the earliest of the rows' deadlines.
#[unsafe(no_mangle)]
pub extern "C" fn delkuthi_deadline(m: &Words) -> u64
    ensures { ReadOff m.now AsksDeadline result }
{
    let mut least = NO_LIMIT;
    for i in 0..held(m) {
        least = least.min(deadline_at(m, i));
    }
    least
}

// Returns how many wait in a row that exists.
fn waiting_at(m: &Words, i: usize) -> u64
    requires { i < 32 }
    ensures { (n : Monitor) → HoldsMonitor m.now n → result ≡ waiting_at n i }
{
    let closed = u64::from(closed(m));
    waiting_by(closed, m[i][1][BROKEN], m[i][1][TYPE_TAG], m[i][1][LEN])
}

// §15.5
// Returns how many wait in a row, if it reads open.
#[unsafe(no_mangle)]
pub extern "C" fn delkuthi_row_waiting(m: &Words, row: u64) -> u64
    ensures { ReadOff m.now (λ monitor. AsksWaiting monitor row) result }
{
    match place_of(m, row) {
        Some(i) => waiting_at(m, i),
        None => 0,
    }
}

// Returns the time of the oldest that waits in a row that exists, if something waits.
fn oldest_at(m: &Words, i: usize) -> Option<u64>
    requires { i < 32 }
    ensures { (n : Monitor) → HoldsMonitor m.now n → unwrap_or result no_limit ≡ oldest_at n i }
{
    if waiting_at(m, i) == 0 {
        return None;
    }
    Some(time_at(&m[i][0], m[i][1][HEAD] as usize, 0))
}

// §15.19
// Returns the time of the oldest that waits in a row, or the largest number if nothing waits.
#[unsafe(no_mangle)]
pub extern "C" fn delkuthi_row_oldest(m: &Words, row: u64) -> u64
    ensures { ReadOff m.now (λ monitor. AsksOldest monitor row) result }
{
    match place_of(m, row) {
        Some(i) => oldest_at(m, i).unwrap_or(NO_LIMIT),
        None => NO_LIMIT,
    }
}

// Returns the stream of the oldest that waits in a row that exists, if something waits.
fn oldest_stream_at(m: &Words, i: usize) -> Option<u8>
    requires { i < 32 }
    ensures { (n : Monitor) → HoldsMonitor m.now n → unwrap_or result no_stream ≡ oldest_stream_at n i }
{
    if waiting_at(m, i) == 0 {
        return None;
    }
    Some(stream_from(oldest_kind(&m[i][1])))
}

// §15.19
// Returns the stream of the oldest that waits in a row, or 255 if nothing waits.
#[unsafe(no_mangle)]
pub extern "C" fn delkuthi_row_oldest_stream(m: &Words, row: u64) -> u8
    ensures { ReadOff m.now (λ monitor. AsksOldestStream monitor row) result }
{
    match place_of(m, row) {
        Some(i) => oldest_stream_at(m, i).unwrap_or(NO_STREAM),
        None => NO_STREAM,
    }
}

// §15.14
// Returns why a row broke: 1 it was overdue, 2 an event broke it, 3 the close did. Returns 0 if it is not broken. It returns at most 3, whatever the
// monitor's memory holds.
#[unsafe(no_mangle)]
pub extern "C" fn delkuthi_row_cause(m: &Words, row: u64) -> u8
    ensures { (result ≤ 3) × ReadOff m.now (λ monitor. AsksCause monitor row) result }
{
    match place_of(m, row) {
        Some(i) => cause_by(m[i][1][BROKEN], m[i][1][HEAD]),
        None => 0,
    }
}

// §15.15
// Returns the moment at which a row broke: the deadline that passed, or the time of the event or of the close. Returns the largest number if it is
// not broken.
#[unsafe(no_mangle)]
pub extern "C" fn delkuthi_row_moment(m: &Words, row: u64) -> u64
    ensures { ReadOff m.now (λ monitor. AsksMoment monitor row) result }
{
    match place_of(m, row) {
        Some(i) => moment_by(m[i][1][BROKEN], m[i][1][KEPT]),
        None => NO_LIMIT,
    }
}

// Returns 1 if a row is broken, else 0.
fn broken_at(m: &Words, i: usize) -> u32
    requires { i < 32 }
    ensures { (result ≤ 1) × ((n : Monitor) → HoldsMonitor m.now n → result ≡ mark (ltb 0 (row_at n i).now.broken)) }
{
    u32::from(0 < m[i][1][BROKEN])
}

// §15.4
// Returns a bit for each row: 1 if the row is broken.
#[unsafe(no_mangle)]
pub extern "C" fn delkuthi_broken_rows(m: &Words) -> u32
    ensures { ReadOff m.now AsksBrokenRows result }
{
    let mut mask = 0;
    for i in (0..held(m)).rev() {
        mask = mask * 2 + broken_at(m, i);
    }
    mask
}

// What is the number of no row.
const NO_ROW: u8 = 32;

// Returns the first of `rows` rows that the event would overflow, if it would overflow one.
fn first_crowded(m: &Words, rows: usize, o: StepInput) -> Option<u8>
    requires { rows ≤ 32 }
    ensures { (unwrap_or result 32 ≤ 32) × ((n : Monitor) → HoldsMonitor m.now n
        → unwrap_or result 32 ≡ first_marked rows (λ w. crowded_by w.parameters w.now o) 0 n.rows) }
{
    for i in 0..rows {
        if step_overflows(&m[i], o) {
            return Some(i as u8);
        }
    }
    None
}

// §15.11
// Returns the first row that an event of a plain kind would overflow, or 32 if the event would not be refused with 12. It returns at most 32,
// whatever the monitor's memory holds.
#[unsafe(no_mangle)]
pub extern "C" fn delkuthi_crowded_row(m: &Words, kind: u8, time: u64) -> u8
    ensures { (result ≤ 32) × ReadOff m.now (λ monitor. AsksCrowdedRow monitor (Call.Event kind time)) result }
{
    if event_refusal(m, kind, time).is_err() {
        return NO_ROW;
    }
    first_crowded(m, held(m), event_of(u64::from(kind), time)).unwrap_or(NO_ROW)
}
