// Age: two words for each colour. The first is one more than the latest stimulus, the second one more than the first response; 0 for none. A
// response that no stimulus suits so far makes the first word 0 again: it is owed a stimulus at its own time.
ghost use Rattle.std.specs.Prelude.{◌≡◌};
ghost use Rattle.row_type.specs.Words.{last_saved, Applies};
ghost use Rattle.event_chain.specs.Age.{suits, after_stimulus_age, after_response_age, owed, due_age, pair_after_age, decide_age};
ghost use Rattle.event_chain.specs.FirstOwed.{first_owed_age};

use crate::marked::coloured_kind;
use crate::pairs::{self, Pair, Pairs};
use crate::reaction::latest;
use constraint::NO_LIMIT;
use ring::SIZE;
use row_type::row_words;

struct Age;

impl Pairs for Age {
    ghost owed = { owed };

    ghost pair_after = { pair_after_age };

    ghost due = { due_age 8 };

    ghost first_owed = { first_owed_age };

    // The last moment of a colour: that of a response which is owed a stimulus.
    fn owed(pair: Pair) -> u64 {
        if pair.low == 0 {
            latest(pair.high)
        } else {
            NO_LIMIT
        }
    }

    // What an event at t makes of the words of its colour.
    fn pair_after(w: &[u64; SIZE], stream: u64, pair: Pair, t: u64) -> Option<Pair> {
        if coloured_kind(stream) == w[row_words::FIRST] {
            return after_stimulus(w[row_words::LOWER], pair.high, t);
        }
        after_response(w[row_words::LOWER], w[row_words::UPPER], pair, t)
    }
}

// Whether the latest stimulus, where there is one, is minimum to maximum before a response at t.
fn suits(minimum: u64, maximum: u64, low: u64, t: u64) -> bool
    ensures { result ≡ suits minimum maximum low t }
{
    let next = t.saturating_add(1);
    0 < low && low.saturating_add(minimum) <= next && next <= low.saturating_add(maximum)
}

// What a stimulus at t makes of the words of its colour.
fn after_stimulus(minimum: u64, high: u64, t: u64) -> Option<Pair>
    ensures { result ≡ after_stimulus_age minimum high t }
{
    let next = t.saturating_add(1);
    if high == 0 || minimum == 0 && high == next {
        return Some(Pair { low: next, high });
    }
    None
}

// What a response at t makes of the words of its colour.
fn after_response(minimum: u64, maximum: u64, pair: Pair, t: u64) -> Option<Pair>
    ensures { result ≡ after_response_age minimum maximum pair.low pair.high t }
{
    let Pair { low, high } = pair;
    let next = t.saturating_add(1);
    if high == 0 {
        if suits(minimum, maximum, low, t) {
            return Some(Pair { low, high: next });
        }
        if minimum == 0 {
            return Some(Pair { low: 0, high: next });
        }
        return None;
    }
    if next <= low.saturating_add(maximum) {
        return Some(pair);
    }
    None
}

// §5.12
// What an event of one of the row's streams makes of it, where it lies.
pub fn apply(row: &mut [[u64; SIZE]; 2], stream: u64, t: u64, number: u64)
    ensures { Applies last_saved decide_age row.old stream t number row.new }
{
    pairs::apply::<Age>(row, stream, t, number);
}
