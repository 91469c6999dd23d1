// Reaction: two words for each colour. Both 0: nothing yet; a second word above 0: the first response has to come from the first word on and
// before the second; else it came at one less than the first word.
ghost use Rattle.std.specs.Prelude.{◌≡◌};
ghost use Rattle.row_type.specs.Words.{last_saved, Applies};
ghost use Rattle.event_chain.specs.Reaction.{latest, due_but, after_stimulus, after_response, pair_after, decide_reaction};
ghost use Rattle.event_chain.specs.FirstOwed.{first_owed_reaction};

use crate::marked::coloured_kind;
pub use crate::pairs::Pair;
use crate::pairs::{self, Pairs};
use constraint::NO_LIMIT;
use ring::SIZE;
use row_type::row_words;

struct Reaction;

impl Pairs for Reaction {
    ghost owed = { λ low high. latest high };

    ghost pair_after = { pair_after };

    ghost due = { λ colour low high words. due_but 8 colour high words };

    ghost first_owed = { first_owed_reaction };

    // The last moment for a colour's first response, by its second word.
    fn owed(pair: Pair) -> u64 {
        latest(pair.high)
    }

    // What an event at t makes of the words of its colour.
    fn pair_after(w: &[u64; SIZE], stream: u64, pair: Pair, t: u64) -> Option<Pair> {
        if coloured_kind(stream) == w[row_words::FIRST] {
            return after_stimulus(w[row_words::LOWER], w[row_words::UPPER], pair, t);
        }
        after_response(pair, t)
    }
}

// What a stimulus at t makes of the words of its colour.
fn after_stimulus(minimum: u64, maximum: u64, pair: Pair, t: u64) -> Option<Pair>
    ensures { result ≡ after_stimulus minimum maximum pair.low pair.high t }
{
    let Pair { low, high } = pair;
    let from = t.saturating_add(minimum);
    if high == 0 {
        if low == 0 {
            let end = t.saturating_add(maximum).saturating_add(1);
            return Some(Pair {
                low: from,
                high: end,
            });
        }
        if from < low {
            return Some(Pair { low, high: 0 });
        }
        return None;
    }
    if from < high {
        return Some(Pair { low: from, high });
    }
    None
}

// What a response at t makes of the words of its colour.
fn after_response(pair: Pair, t: u64) -> Option<Pair>
    ensures { result ≡ after_response pair.low pair.high t }
{
    let Pair { low, high } = pair;
    let answered = Pair {
        low: t.saturating_add(1),
        high: 0,
    };
    if high == 0 {
        if low == 0 {
            return Some(answered);
        }
        return Some(Pair { low, high: 0 });
    }
    if t < low {
        return None;
    }
    Some(answered)
}

// The last moment for a colour's first response, by its second word.
pub(crate) fn latest(high: u64) -> u64
    ensures { result ≡ latest high }
{
    if high == 0 { NO_LIMIT } else { high - 1 }
}

// §5.9, §5.9.1 to §5.9.5
// What an event of one of the row's streams makes of it, where it lies.
pub fn apply(row: &mut [[u64; SIZE]; 2], stream: u64, t: u64, number: u64)
    ensures { Applies last_saved decide_reaction row.old stream t number row.new }
{
    pairs::apply::<Reaction>(row, stream, t, number);
}
