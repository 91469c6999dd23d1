// Repetition: rows of one kind that keep the range, a low and a high, of the hidden point of each of the last span events, or of all events while
// there are fewer. Lows and highs alternate, the oldest first. Each event adds two numbers.
#![tactic(auto)]

ghost use Rattle.std.specs.Prelude.{◌≡◌};
ghost use Rattle.ring.specs.Ring.{times_of};
ghost use Rattle.row_type.specs.Words.{none_saved, asked_of, Applies};
ghost use Rattle.repetition.specs.Repetition.{overflows_repetition, first_high, decide_repetition};

use constraint::NO_LIMIT;
use ring::{SIZE, Times};
use row_type::row_words;

// §5.10
// What an event makes of the row, where it lies. Its point comes at most upper behind the oldest that is kept, less one place for each point that is
// still to come before the span is over; one of the first span is tied to no earlier one from below; with a later one the oldest leaves.
pub fn apply(row: &mut [[u64; SIZE]; 2], stream: u64, t: u64, number: u64)
    ensures { Applies none_saved decide_repetition row.old stream t number row.new }
{
    let times = row_words::times(row);
    let n = (times.len / 2) as u64;
    let span = row[1][row_words::SPAN];
    let upper = row[1][row_words::UPPER];
    let near = t.saturating_sub(row[1][row_words::JITTER]);
    let first = first_high(times, t).saturating_add(upper.saturating_sub(span));
    let high = t.min(first.saturating_add(n));
    if n < span {
        row_words::push_two(row, 0, near, high, number);
        row_words::settle(&mut row[1], NO_LIMIT, 1);
        return;
    }
    let oldest = times.front();
    let low = near.max(oldest.saturating_add(row[1][row_words::LOWER]));
    if span <= upper && low <= high {
        row_words::two_for_oldest(row, low, high, number);
        row_words::settle(&mut row[1], NO_LIMIT, 1);
        return;
    }
    row_words::break_at(row, t, number);
}

// Whether an event lets two more numbers come, where there is no room for two.
#[tactic(auto, unfolding(crate::specs::Repetition::overflows_repetition))]
pub fn overflows(w: &[u64; SIZE], stream: u64, t: u64) -> bool
    ensures { result ≡ asked_of overflows_repetition w.now stream t }
{
    w[row_words::LEN] / 2 < w[row_words::SPAN]
}

// The last place where the oldest point can be; t where there is none.
#[tactic(auto, using(ring::proofs::Laws::ring_length, ring::proofs::Laws::ring_read))]
fn first_high(times: Times<'_>, t: u64) -> u64
    ensures { result ≡ first_high (times_of times.entry) t }
{
    if times.len < 2 {
        return t;
    }
    times.at(1)
}
