// The calls on a lent monitor. Each is taken, or refused by the first question that is answered "no".
ghost use Rattle.std.specs.Prelude.{◌<◌, ◌≡◌, get_or};
ghost use Rattle.questions.specs.Questions.{time_refusal};
ghost use Rattle.constraint.specs.declared.Call.{Call};
ghost use Rattle.constraint.specs.Answers.{number_in};
ghost use Rattle.constraint.specs.Run.{asks, withdraws};
ghost use Rattle.row.specs.Machine.{tick_at};
ghost use Rattle.in_place.specs.Layout.{Lent, words_of_lent, Shaped};
ghost use Rattle.constraint.specs.Streams.{stream};
ghost use Rattle.in_place.specs.Steps.{Updates, Computes, ColourKnown, kind_refusal, rows_expired, deadlines_checked, AsksOverflow, OnStream};
ghost use Rattle.in_place.specs.Steps.{refusal_in, Stores};

use crate::numbers::{
    first_refusal, free_at, mark_closed, put_free, put_full, put_soonest, record_event,
    record_tick, restore_counters,
};
use crate::{
    CLOCK, COUNT, FULL, NUMBERS, SOONEST, UNDO_ALLOWED, UNDO_NEXT, UNDO_STREAM, Words, held, rows,
};
use constraint::{FIRST_COLOURED, LAST_COLOUR, LAST_KIND, Refusal};
use monitor::Monitor;
use questions::{NO_EVENT, NO_STREAM, place_in, time_refusal};
use row::StepInput;

// Applies the clock to every row that is overdue at `time`. The rows see nothing else of the step yet.
fn expire_rows(m: &mut Words, time: u64)
    ensures { Updates m.old (λ h. rows_expired h (tick_at time)) m.new }
{
    let rows = held(m);
    let soonest = rows::soonest(m, rows);
    if soonest < time {
        // Built here: `questions::step_input` takes a call and asks which one it is.
        let o = StepInput {
            kind: NO_EVENT,
            stream: NO_STREAM,
            time,
            closes: false,
        };
        let number = m[NUMBERS][0][COUNT];
        rows::apply_clock_all(m, rows, o, number);
        put_soonest(m, 0);
        return;
    }
    put_soonest(m, soonest);
}

// Calls `expire_rows` if the soonest deadline is before `time`.
fn check_deadlines(m: &mut Words, time: u64)
    ensures { Updates m.old (λ h. deadlines_checked h (tick_at time)) m.new }
{
    if m[NUMBERS][0][SOONEST] < time {
        expire_rows(m, time);
    }
}

// Returns whether an event would leave too many waiting in a row of its kind. It asks only the rows that may be nearly full. If none overflows they
// take the event, and are looked at again then.
fn event_would_overflow(m: &mut Words, kind: usize, stream: usize, time: u64) -> bool
    requires { kind < 64 }
    ensures { AsksOverflow m.old kind stream time result m.new }
{
    let full = m[NUMBERS][0][FULL];
    let asked = m[NUMBERS][1][kind] & full;
    if asked == 0 {
        return false;
    }
    if rows::rows_overflow(m, (asked % rows::SETS) as u32, stream as u64, time) {
        return true;
    }
    put_full(m, full - asked);
    false
}

// Takes an event of a stream that only question 12 can still refuse.
fn event_on(m: &mut Words, kind: usize, stream: usize, time: u64) -> Result<(), Refusal>
    requires { (kind < 64) × (stream < 176) }
    ensures { OnStream m.old kind stream time (number_in result) m.new }
{
    if event_would_overflow(m, kind, stream, time) {
        return Err(Refusal::Crowded);
    }
    record_event(m, stream, time);
    check_deadlines(m, time);
    rows::dispatch_event(m, kind, stream as u64, time);
    Ok(())
}

// Asks the questions about an event that come before its form: 8, 24 and 9.
fn kind_refusal(m: &Words, kind: u8) -> Result<(), Refusal>
    ensures { (number_in result ≡ 0 → kind < 64) × Computes m.now (λ h. kind_refusal h kind) (number_in result) }
{
    first_refusal(m)?;
    if LAST_KIND < kind {
        return Err(Refusal::Kind);
    }
    Ok(())
}

// Asks the questions about the time of an event of a stream: 10 and 11.
fn stream_refusal(m: &Words, stream: usize, time: u64) -> Result<(), Refusal>
    requires { stream < 176 }
    ensures { Computes m.now (λ h. time_refusal time h.monitor.clock (get_or h.monitor.next stream 0)) (number_in result) }
{
    time_refusal(time, m[NUMBERS][0][CLOCK], free_at(m, stream))
}

// Asks all questions about an event of a plain kind except 12.
pub fn event_refusal(m: &Words, kind: u8, time: u64) -> Result<(), Refusal>
    ensures { (number_in result ≡ 0 → kind < 48)
        × ((h : Lent) → m.now ≡ words_of_lent h → Shaped h → number_in result ≡ refusal_in h (Call.Event kind time)) }
{
    kind_refusal(m, kind)?;
    if FIRST_COLOURED <= kind {
        return Err(Refusal::Form);
    }
    stream_refusal(m, kind as usize, time)
}

// Takes an event of a plain kind.
pub fn event(m: &mut Words, kind: u8, time: u64) -> Result<(), Refusal>
    ensures { Stores m.old (asks (Call.Event kind time)) (number_in result) m.new }
{
    event_refusal(m, kind, time)?;
    event_on(m, kind as usize, kind as usize, time)
}

// Returns the stream of a coloured kind and a colour.
fn stream_of(kind: u8, colour: u8) -> usize
    requires { ColourKnown kind colour }
    ensures { (result ≡ stream kind colour) × (result < 176) }
{
    48 + 8 * (kind as usize - 48) + colour as usize
}

// Asks all questions about an event of a coloured kind except 12.
fn coloured_refusal(m: &Words, kind: u8, colour: u8, time: u64) -> Result<(), Refusal>
    ensures { (number_in result ≡ 0 → ColourKnown kind colour)
        × Computes m.now (λ h. refusal_in h (Call.ColouredEvent kind colour time)) (number_in result) }
{
    kind_refusal(m, kind)?;
    if kind < FIRST_COLOURED || LAST_COLOUR < colour {
        return Err(Refusal::Form);
    }
    stream_refusal(m, stream_of(kind, colour), time)
}

// Takes an event of a coloured kind.
pub fn coloured_event(m: &mut Words, kind: u8, colour: u8, time: u64) -> Result<(), Refusal>
    ensures { Stores m.old (asks (Call.ColouredEvent kind colour time)) (number_in result) m.new }
{
    coloured_refusal(m, kind, colour, time)?;
    let stream = stream_of(kind, colour);
    event_on(m, kind as usize, stream, time)
}

// Asks all questions about a tick. `questions::refusal` asks the same over a clock in registers; here each number is read only when it is asked.
fn tick_refusal(m: &Words, time: u64) -> Result<(), Refusal>
    ensures { (h : Lent) → m.now ≡ words_of_lent h → Shaped h → number_in result ≡ refusal_in h (Call.Tick time) }
{
    first_refusal(m)?;
    if Monitor::LAST_TIME < time {
        return Err(Refusal::TimeRange);
    }
    if time <= m[NUMBERS][0][CLOCK] {
        return Err(Refusal::TimeOrder);
    }
    Ok(())
}

// Takes a tick, which moves the clock to a time. In line: it is so short that turning its result into C's number would cost a quarter of it.
#[inline(always)]
pub fn tick(m: &mut Words, time: u64) -> Result<(), Refusal>
    ensures { Stores m.old (asks (Call.Tick time)) (number_in result) m.new }
{
    tick_refusal(m, time)?;
    record_tick(m, time);
    check_deadlines(m, time);
    Ok(())
}

// Takes the close.
pub fn close(m: &mut Words) -> Result<(), Refusal>
    ensures { Stores m.old (asks Call.Close) (number_in result) m.new }
{
    first_refusal(m)?;
    let clock = m[NUMBERS][0][CLOCK];
    record_tick(m, clock);
    mark_closed(m);
    let number = m[NUMBERS][0][COUNT];
    let o = StepInput {
        kind: NO_EVENT,
        stream: NO_STREAM,
        time: clock,
        closes: true,
    };
    rows::apply_clock_all(m, held(m), o, number);
    put_soonest(m, 0);
    Ok(())
}

// Withdraws the last step, if one may be withdrawn.
pub fn withdraw(m: &mut Words) -> Result<(), Refusal>
    ensures { Stores m.old withdraws (number_in result) m.new }
{
    if m[NUMBERS][0][UNDO_ALLOWED] == 0 {
        return Err(Refusal::NothingToWithdraw);
    }
    let number = m[NUMBERS][0][COUNT];
    rows::undo_rows(m, held(m), number);
    let place = place_in(m[NUMBERS][0][UNDO_STREAM] as usize);
    let free = m[NUMBERS][0][UNDO_NEXT];
    put_free(m, place, free);
    restore_counters(&mut m[NUMBERS]);
    Ok(())
}
