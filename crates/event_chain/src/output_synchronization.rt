// OutputSynchronization: each word of a colour is one more than the first event of its kind, or 0 for none; the stimulus is at place 0.
ghost use Rattle.std.specs.Prelude.{◌≡◌, ◌<◌};
ghost use Rattle.constraint.specs.Steps.{at};
ghost use Rattle.ring.specs.Ring.{times_of};
ghost use Rattle.row_type.specs.Words.{last_saved, Applies};
ghost use Rattle.event_chain.specs.Reaction.{latest};
ghost use Rattle.event_chain.specs.Coloured.{words_at, first_word};
ghost use Rattle.event_chain.specs.OutputSynchronization.{first_response, owed_output, breaks_output, decide_output_synchronization};

use crate::coloured::{self, Kinds, Place, Synchronization, WIDTH, Words, first_word};
use crate::least::least_by;
use crate::reaction::latest;
use constraint::NO_LIMIT;
use ring::SIZE;

struct OutputSynchronization;

impl Synchronization for OutputSynchronization {
    ghost owed = { owed_output };

    ghost breaks = { breaks_output };

    ghost next = { λ n old j t. first_word old t };

    // The last moment of a colour.
    fn owed(kinds: Kinds, w: &[u64; WIDTH]) -> u64 {
        if w[0] == 0 || 0 < least_by(kinds.count, |i| w[i + 1]) {
            return NO_LIMIT;
        }
        let first = least_by(kinds.count, |i| latest(w[i + 1]));
        first.saturating_add(kinds.tolerance).min(NO_LIMIT - 1)
    }

    // A stimulus after a response breaks the row.
    fn breaks(kinds: Kinds, words: Words<'_>, place: Place, t: u64) -> bool {
        place.kind == 0 && first_at(kinds, words, place.colour) < t
    }

    // Each kind keeps its first event.
    fn next(_kinds: Kinds, old: u64, _kind: usize, t: u64) -> u64 {
        first_word(old, t)
    }

    // Any event may change what is owed.
    fn quiet(_kinds: Kinds, _words: Words<'_>, _place: Place) -> bool {
        false
    }
}

// The first response of a colour of all kinds, or the mark.
fn first_at(kinds: Kinds, words: Words<'_>, colour: usize) -> u64
    requires { colour < 8 }
    ensures { result ≡ first_response kinds.count (words_at (times_of words.entry.times) colour) }
{
    least_by(kinds.count, |i| latest(words.at(colour, i + 1)))
}

// §5.13
// What an event of one of the row's streams makes of it, where it lies.
pub fn apply(row: &mut [[u64; SIZE]; 2], stream: u64, t: u64, number: u64)
    ensures { Applies last_saved decide_output_synchronization row.old stream t number row.new }
{
    coloured::apply::<OutputSynchronization>(row, stream, t, number);
}
