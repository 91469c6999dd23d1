// The clock of a recording: its time, its count and the first free time of each stream, with all questions of a step except 12. Records are read one
// by one, and no row is stepped.
#![tactic(auto)]

ghost use Rattle.std.specs.Prelude.{ℕ, ◌≡◌};
ghost use Rattle.constraint.specs.Answers.{number_in};
ghost use Rattle.constraint.specs.declared.Call.{Call};
ghost use Rattle.clock.specs.Clock.{Starts, TakesCall, ReadsNext, Ticks};

use constraint::{Call, Refusal, STREAM_COUNT};
use recording::CallRead;

#[derive(Clone, Copy)]
pub struct Clock {
    pub time: u64,
    // the steps taken
    pub count: u64,
    // for each stream the first time still free: one more than the time of its last event, or 0
    pub next: [u64; STREAM_COUNT],
    // 0: not closed. A number, as in `Monitor`: the same questions ask both
    pub closed: u64,
}

impl Clock {
    // The clock before any step.
    pub fn start() -> Self
        ensures { Starts result }
    {
        Clock {
            time: 0,
            count: 0,
            next: [0u64; STREAM_COUNT],
            closed: 0,
        }
    }

    // The answer to a call: questions 8 to 11, 19 and 24; and the clock after it, on a refusal as it was. A tick leaves each first free time.
    // In line, since a tick asks far less than an event.
    #[inline(always)]
    pub fn take(&mut self, call: Call) -> Result<(), Refusal>
        ensures takes { TakesCall self.old call (number_in result) self.new }
        ensures ticks { (t : ℕ) → call ≡ Call.Tick t → self.new.next ≡ self.old.next }
    {
        let at = questions::place(call);
        let free = self.next[at];
        questions::refusal(call, self.closed, self.count, self.time, free)?;
        let o = questions::step_input(call, self.time);
        self.time = o.time;
        self.count = self.count.saturating_add(1);
        self.next[at] = questions::free(call, free);
        self.closed = questions::closed(call, self.closed);
        Ok(())
    }

    // The record at a place: question 14, then those of its step.
    pub fn read(&mut self, bytes: &[u8], place: usize) -> Result<CallRead, Refusal>
        ensures { ReadsNext bytes.now place self.old result self.new }
    {
        let record = recording::call_at(bytes, place)?;
        self.take(record.call)?;
        Ok(record)
    }

    // The answer to a tick, and the clock after it. No first free time is asked for or changed, so none is read or stored.
    fn take_tick(&mut self, time: u64) -> Result<(), Refusal>
        ensures takes { TakesCall self.old (Call.Tick time) (number_in result) self.new }
        ensures frees { self.new.next ≡ self.old.next }
    {
        questions::refusal(Call::Tick { time }, self.closed, self.count, self.time, 0)?;
        let count = self.count.saturating_add(1);
        self.time = time;
        self.count = count;
        Ok(())
    }

    // Takes ticks from a place on, up to a record that is no tick or is refused. Returns the place behind them.
    pub fn ticks(&mut self, bytes: &[u8], place: usize) -> usize
        ensures takes { Ticks bytes.now place self.old result self.new }
        ensures frees { self.new.next ≡ self.old.next }
    {
        let mut at = place;
        // A walk by place, which is what it returns: a `for` over parts of ten bytes would count the place too.
        while let Some(time) = recording::tick_at(bytes, at) {
            let Ok(()) = self.take_tick(time) else {
                return at;
            };
            at += 10;
        }
        at
    }
}
