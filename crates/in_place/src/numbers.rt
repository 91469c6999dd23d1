// The numbers of a lent monitor outside its rows: the questions that they answer, and what a step stores in them.
ghost use Rattle.std.specs.Prelude.{◌<◌, ◌≡◌, get_or, set};
ghost use Rattle.constraint.specs.Answers.{number_in};
ghost use Rattle.in_place.specs.Layout.{Lent, words_of_lent, Shaped};
ghost use Rattle.in_place.specs.Steps.{Updates, UpdatesOpen, Computes, RecordsStep, RestoresCounters, first_refusal, with_soonest, with_full};
ghost use Rattle.in_place.specs.Steps.{with_next, with_closed};
ghost use Rattle.in_place.specs.Steps.{recorded_monitor, recorded_on, recorded_to};

use crate::{
    ALL_ROWS, CLOCK, COLOURED, COUNT, FULL, NUMBERS, OPEN, PLAIN, SOONEST, UNDO_ALLOWED,
    UNDO_CLOCK, UNDO_CLOSED, UNDO_COUNT, UNDO_NEXT, UNDO_STREAM, Words,
};
use constraint::Refusal;
use monitor::Monitor;

// Returns the first free time of a stream.
pub(crate) fn free_at(m: &Words, stream: usize) -> u64
    requires { stream < 176 }
    ensures { (h : Lent) → m.now ≡ words_of_lent h → Shaped h → result ≡ get_or h.monitor.next stream 0 }
{
    if stream < 48 {
        return m[NUMBERS][0][PLAIN + stream];
    }
    let place = stream - 48;
    m[COLOURED][place / 64][place % 64]
}

// Stores a new first free time of a stream.
pub(crate) fn put_free(m: &mut Words, stream: usize, time: u64)
    requires { stream < 176 }
    ensures { Updates m.old (λ h. with_next h (set h.monitor.next stream time)) m.new }
{
    if stream < 48 {
        m[NUMBERS][0][PLAIN + stream] = time;
        return;
    }
    let place = stream - 48;
    m[COLOURED][place / 64][place % 64] = time;
}

// Asks questions 8 and 24, which come first in every call.
pub(crate) fn first_refusal(m: &Words) -> Result<(), Refusal>
    ensures { Computes m.now first_refusal (number_in result) }
{
    if m[NUMBERS][0][OPEN] == 0 {
        return Err(Refusal::Closed);
    }
    if Monitor::LAST_COUNT <= m[NUMBERS][0][COUNT] {
        return Err(Refusal::CountFull);
    }
    Ok(())
}

// Stores a new soonest deadline.
pub(crate) fn put_soonest(m: &mut Words, time: u64)
    ensures { Updates m.old (λ h. with_soonest h time) m.new }
{
    m[NUMBERS][0][SOONEST] = time;
}

// Stores a new set of the rows that may be nearly full.
pub(crate) fn put_full(m: &mut Words, rows: u64)
    ensures { Updates m.old (λ h. with_full h rows) m.new }
{
    m[NUMBERS][0][FULL] = rows;
}

// Counts one more step, to a time, and saves a stream and its first free time for a withdrawal.
fn record_step(n: &mut [[u64; 64]; 2], stream: u64, free: u64, time: u64)
    ensures { RecordsStep (λ m. recorded_monitor m stream free time 0) n.old n.new }
{
    let clock = n[0][CLOCK];
    let count = n[0][COUNT];
    n[0][CLOCK] = time;
    n[0][COUNT] = count.saturating_add(1);
    n[0][UNDO_ALLOWED] = 1;
    n[0][UNDO_STREAM] = stream;
    n[0][UNDO_NEXT] = free;
    n[0][UNDO_CLOCK] = clock;
    n[0][UNDO_COUNT] = count;
    n[0][UNDO_CLOSED] = 0;
}

// Updates the numbers for an event of a stream.
pub(crate) fn record_event(m: &mut Words, stream: usize, time: u64)
    requires { stream < 176 }
    ensures { UpdatesOpen m.old (λ h. recorded_on h stream time) m.new }
{
    let free = free_at(m, stream);
    put_free(m, stream, time.saturating_add(1));
    record_step(&mut m[NUMBERS], stream as u64, free, time);
}

// Updates the numbers for a tick.
pub(crate) fn record_tick(m: &mut Words, time: u64)
    ensures { (h : Lent) → m.old ≡ words_of_lent h → Shaped h → h.monitor.closed ≡ 0
        → m.new ≡ words_of_lent (recorded_to h time 0) }
{
    let free = free_at(m, 0);
    record_step(&mut m[NUMBERS], 0, free, time);
}

// Marks the recording as closed.
pub(crate) fn mark_closed(m: &mut Words)
    ensures { Updates m.old (λ h. with_closed h 1) m.new }
{
    m[NUMBERS][0][OPEN] = 0;
}

// Restores the numbers from before the last step. After that no step may be withdrawn, the next step checks every row's deadline, and every row may
// be nearly full.
pub(crate) fn restore_counters(n: &mut [[u64; 64]; 2])
    ensures { RestoresCounters n.old n.new }
{
    let clock = n[0][UNDO_CLOCK];
    let count = n[0][UNDO_COUNT];
    let closed = n[0][UNDO_CLOSED];
    n[0][CLOCK] = clock;
    n[0][COUNT] = count;
    n[0][OPEN] = 1u64.saturating_sub(closed);
    n[0][SOONEST] = 0;
    n[0][FULL] = ALL_ROWS;
    n[0][UNDO_ALLOWED] = 0;
    n[0][UNDO_STREAM] = 0;
    n[0][UNDO_NEXT] = 0;
    n[0][UNDO_CLOCK] = 0;
    n[0][UNDO_COUNT] = 0;
    n[0][UNDO_CLOSED] = 0;
}
