// InputSynchronization: the word of each kind of stimuli is one more than the latest, that of the response behind them one more than the first; 0
// for none.
ghost use Rattle.std.specs.Prelude.{◌≡◌, length};
ghost use Rattle.constraint.specs.Steps.{at};
ghost use Rattle.event_chain.specs.Coloured.{most_of};
ghost use Rattle.row_type.specs.Words.{last_saved, Applies};
ghost use Rattle.event_chain.specs.InputSynchronization.{together, owed_input, breaks_input, next_input, decide_input_synchronization};

use crate::coloured::{self, Kinds, Place, Synchronization, WIDTH, Words, first_word};
use crate::least::least_by;
use constraint::NO_LIMIT;
use ring::SIZE;

struct InputSynchronization;

impl Synchronization for InputSynchronization {
    ghost owed = { owed_input };

    ghost breaks = { breaks_input };

    ghost next = { next_input };

    // The last moment of a colour: that of a response which is owed a stimulus.
    fn owed(kinds: Kinds, w: &[u64; WIDTH]) -> u64 {
        let response = w[kinds.count];
        if response == 0 || together(kinds, w) {
            return NO_LIMIT;
        }
        response - 1
    }

    // A stimulus after the first response breaks the row.
    fn breaks(kinds: Kinds, words: Words<'_>, place: Place, t: u64) -> bool {
        if place.kind < kinds.count {
            let response = words.at(place.colour, kinds.count);
            return 0 < response && response < t.saturating_add(1);
        }
        false
    }

    // A kind of stimuli keeps its latest, and the response its first.
    fn next(kinds: Kinds, old: u64, kind: usize, t: u64) -> u64 {
        if kind < kinds.count {
            return t.saturating_add(1);
        }
        first_word(old, t)
    }

    // A stimulus before the response leaves the due time as it is.
    fn quiet(kinds: Kinds, words: Words<'_>, place: Place) -> bool {
        place.kind < kinds.count && words.at(place.colour, kinds.count) == 0
    }
}

// Each kind has a stimulus, and the latest ones lie within tolerance of one another.
fn together(kinds: Kinds, w: &[u64; WIDTH]) -> bool
    ensures { result ≡ together kinds.count kinds.tolerance w.now }
{
    let first = least_by(kinds.count, |i| w[i]);
    0 < first && most(&w[..kinds.count]) <= first.saturating_add(kinds.tolerance)
}

// The largest word.
fn most(w: &[u64]) -> u64
    ensures { result ≡ most_of (at w.now) (length w.now) }
{
    let mut most = 0u64;
    for x in w {
        most = most.max(*x);
    }
    most
}

// §5.14
// What an event of one of the row's streams makes of it, where it lies.
pub fn apply(row: &mut [[u64; SIZE]; 2], stream: u64, t: u64, number: u64)
    ensures { Applies last_saved decide_input_synchronization row.old stream t number row.new }
{
    coloured::apply::<InputSynchronization>(row, stream, t, number);
}
