// The questions of a call, and what a call changes outside the rows.
#![tactic(auto)]

ghost use Rattle.std.specs.Prelude.{◌≡◌, ℕ};
ghost use Rattle.constraint.specs.Answers.{number_in};
ghost use Rattle.constraint.specs.Streams.{stream};
ghost use Rattle.constraint.specs.declared.Call.{Call};
ghost use Rattle.row.specs.Machine.{event_at};
ghost use Rattle.questions.specs.Questions.{stream_for, place_for, time_refusal, own_refusal, refusal_by, step_input_by, free_after, closed_after};
ghost use Rattle.questions.specs.Questions.{undo_by, place_in};

use constraint::{
    Call, FIRST_COLOURED, LAST_COLOUR, LAST_COUNT, LAST_KIND, LAST_TIME, Refusal, STREAM_COUNT,
};
use row::StepInput;
use row_type::parts::kind_of;

// No event: a kind that no row has, and no stream. An Option would not be plainer: a row compares the kind with its five, and 65 is none of them.
pub const NO_EVENT: u64 = 65;

pub const NO_STREAM: u64 = STREAM_COUNT as u64;

// What the last step changed beside the rows, as it was: the place of its stream and the first free time there, the clock, the count and the mark
// of the close; and whether it may be withdrawn (0: no). The default: there is nothing to withdraw.
#[repr(C)]
#[derive(Clone, Copy, Default)]
pub struct Undo {
    // may and closed are no bools: they are words of the memory that C lends, which may hold any number
    pub may: u64,
    pub place: usize,
    pub next: u64,
    pub clock: u64,
    pub count: u64,
    pub closed: u64,
}

// What a call changes beside the rows, as it is before it. The numbers stay apart: each caller has them in a record of its own.
pub fn undo_of(call: Call, closed: u64, clock: u64, next: u64, count: u64) -> Undo
    ensures { result ≡ undo_by call closed clock next count }
{
    Undo {
        may: 1,
        place: place(call),
        next,
        clock,
        count,
        closed,
    }
}

// A place among the first free times, whatever a record says.
pub fn place_in(place: usize) -> usize
    ensures { result ≡ place_in place }
{
    if place < STREAM_COUNT { place } else { 0 }
}

// The stream of a coloured kind and a colour.
fn stream_of(kind: u8, colour: u8) -> u64
    ensures { result ≡ stream kind colour }
{
    let base = FIRST_COLOURED as u64;
    base + 8 * (kind as u64).saturating_sub(base) + colour as u64
}

// The stream of a call's event; 0 where there is no event.
fn stream(call: Call) -> u64
    ensures { result ≡ stream_for call }
{
    match call {
        Call::Event { kind, .. } => kind as u64,
        Call::ColouredEvent { kind, colour, .. } => stream_of(kind, colour),
        Call::Tick { .. } | Call::Close => 0,
    }
}

// The place of a call's stream among the first free times; 0 where there is no such stream.
pub fn place(call: Call) -> usize
    ensures { result ≡ place_for call }
{
    let stream = stream(call);
    if stream < NO_STREAM {
        return stream as usize;
    }
    0
}

// Questions 10 and 11 for an event, over the clock and the first free time of its stream: the first "no" refuses it.
pub fn time_refusal(time: u64, clock: u64, next: u64) -> Result<(), Refusal>
    ensures { number_in result ≡ time_refusal time clock next }
{
    if LAST_TIME < time {
        return Err(Refusal::TimeRange);
    }
    if time < clock || time < next {
        return Err(Refusal::TimeOrder);
    }
    Ok(())
}

// Questions 9, 19, 10 and 11 for an event of a plain kind.
fn event_refusal(kind: u8, time: u64, clock: u64, next: u64) -> Result<(), Refusal>
    ensures { number_in result ≡ own_refusal (Call.Event kind time) clock next }
{
    if LAST_KIND < kind {
        return Err(Refusal::Kind);
    }
    if FIRST_COLOURED <= kind {
        return Err(Refusal::Form);
    }
    time_refusal(time, clock, next)
}

// The same for an event with a colour. The two ask different questions of a kind, and share those of a time.
fn coloured_refusal(kind: u8, colour: u8, time: u64, clock: u64, next: u64) -> Result<(), Refusal>
    ensures { number_in result ≡ own_refusal (Call.ColouredEvent kind colour time) clock next }
{
    if LAST_KIND < kind {
        return Err(Refusal::Kind);
    }
    if kind < FIRST_COLOURED || LAST_COLOUR < colour {
        return Err(Refusal::Form);
    }
    time_refusal(time, clock, next)
}

// Questions 10 and 11 for a tick.
fn tick_refusal(time: u64, clock: u64) -> Result<(), Refusal>
    ensures { (next : ℕ) → number_in result ≡ own_refusal (Call.Tick time) clock next }
{
    if LAST_TIME < time {
        return Err(Refusal::TimeRange);
    }
    if time <= clock {
        return Err(Refusal::TimeOrder);
    }
    Ok(())
}

// A call's questions but 8, 24 and 12, over the clock and the first free time of its stream: the first "no" refuses it.
fn own_refusal(call: Call, clock: u64, next: u64) -> Result<(), Refusal>
    ensures { number_in result ≡ own_refusal call clock next }
{
    match call {
        Call::Event { kind, time } => event_refusal(kind, time, clock, next),
        Call::ColouredEvent { kind, colour, time } => {
            coloured_refusal(kind, colour, time, clock, next)
        }
        Call::Tick { time } => tick_refusal(time, clock),
        Call::Close => Ok(()),
    }
}

// §8.24
// The four numbers are no struct: a monitor, a clock and C's memory hold them in records of their own, and each would build it for a call.
// A call's questions but 12, over the mark of the close and the count of steps too: the first "no" refuses it.
pub fn refusal(call: Call, closed: u64, count: u64, clock: u64, next: u64) -> Result<(), Refusal>
    ensures { number_in result ≡ refusal_by call closed count clock next }
{
    if 0 < closed {
        return Err(Refusal::Closed);
    }
    if LAST_COUNT <= count {
        return Err(Refusal::CountFull);
    }
    own_refusal(call, clock, next)
}

// What the rows see of an event of a stream.
pub fn event_of(stream: u64, time: u64) -> StepInput
    ensures { result ≡ event_at stream time }
{
    StepInput {
        kind: kind_of(stream),
        stream,
        time,
        closes: false,
    }
}

// What the rows see of a call.
pub fn step_input(call: Call, clock: u64) -> StepInput
    ensures { result ≡ step_input_by call clock }
{
    match call {
        Call::Event { kind, time } => event_of(kind as u64, time),
        Call::ColouredEvent { kind, colour, time } => event_of(stream_of(kind, colour), time),
        Call::Tick { time } => StepInput {
            kind: NO_EVENT,
            stream: NO_STREAM,
            time,
            closes: false,
        },
        Call::Close => StepInput {
            kind: NO_EVENT,
            stream: NO_STREAM,
            time: clock,
            closes: true,
        },
    }
}

// The first free time of a call's stream after it; as it was where the call is no event.
pub fn free(call: Call, next: u64) -> u64
    ensures { result ≡ free_after call next }
{
    match call {
        Call::Event { time, .. } | Call::ColouredEvent { time, .. } => time.saturating_add(1),
        Call::Tick { .. } | Call::Close => next,
    }
}

// The mark of the close after a call.
pub fn closed(call: Call, closed: u64) -> u64
    ensures { result ≡ closed_after call closed }
{
    match call {
        Call::Event { .. } | Call::ColouredEvent { .. } | Call::Tick { .. } => closed,
        Call::Close => 1,
    }
}
