// What Reaction and Age share: two words for each colour, of which an event makes two new ones, or it breaks the row.
ghost use Rattle.std.specs.Prelude.{◌≡◌, ◌<◌, List, Option, ℕ};
ghost use Rattle.ring.specs.Ring.{times_of};
ghost use Rattle.row_type.specs.declared.Parameters.{Parameters};
ghost use Rattle.row_type.specs.Words.{parameters_at, last_saved, MakesAt, Applies};
ghost use Rattle.event_chain.specs.Marked.{due_next};
ghost use Rattle.event_chain.specs.declared.pairs.Pair.{Pair as WordsOf};
ghost use Rattle.event_chain.specs.Pairs.{pair_in, due_pairs, change_pair, decide_pairs};

use crate::least::least_by;
use crate::marked::{COLOURS, due_marked, due_next, put_marked};
use ring::{SIZE, Times};
use row_type::row_words;

// How many words a row has.
const WORDS: usize = 16;

// The two words of a colour.
#[derive(Clone, Copy)]
pub struct Pair {
    pub low: u64,
    pub high: u64,
}

// A type of such rows. Its due time, where the words of one colour are new, is the first of all last moments.
pub(crate) trait Pairs {
    ghost owed: { ℕ → ℕ → ℕ };

    ghost pair_after: { Parameters → ℕ → ℕ → ℕ → ℕ → Option WordsOf };

    ghost due: { ℕ → ℕ → ℕ → List ℕ → ℕ };

    // The last moment of a colour, by its words.
    fn owed(pair: Pair) -> u64
        ensures { result ≡ owed pair.low pair.high };

    // What an event at t makes of the words of its colour: none where it breaks the row.
    fn pair_after(w: &[u64; SIZE], stream: u64, pair: Pair, t: u64) -> Option<Pair>
        ensures { result ≡ pair_after (parameters_at w.now) stream pair.low pair.high t };

    ghost first_owed: { (colour low high : ℕ) (words : List ℕ) → due colour low high words ≡ due_pairs owed colour low high words 8 };
}

// The words of the n-th colour.
#[inline]
fn pair_at(times: Times<'_>, n: usize) -> Pair
    requires { n < 8 }
    ensures { result ≡ pair_in (times_of times.entry) n }
{
    Pair {
        low: times.word(2 * n),
        high: times.word(2 * n + 1),
    }
}

// The due time: the first last moment of all colours, the words of one colour being new.
fn due_but<T: Pairs>(times: Times<'_>, colour: usize, pair: Pair) -> u64
    ensures { result ≡ T.due colour pair.low pair.high (times_of times.entry) }
{
    least_by(
        COLOURS,
        |n| T::owed(if n == colour { pair } else { pair_at(times, n) }),
    )
}

// The due time after an event of a colour, by the due time before and the colour's words before and after it.
fn due_after<T: Pairs>(before: u64, times: Times<'_>, colour: usize, old: Pair, pair: Pair) -> u64
    ensures { result ≡ due_next before (T.owed old.low old.high) (T.owed pair.low pair.high)
        (T.due colour pair.low pair.high (times_of times.entry)) }
{
    due_next(before, T::owed(old), T::owed(pair), || {
        due_but::<T>(times, colour, pair)
    })
}

// The words of a colour are new, or the row breaks.
fn store<T: Pairs>(
    row: &mut [[u64; SIZE]; 2],
    colour: usize,
    old: Pair,
    pair: Option<Pair>,
    t: u64,
    number: u64,
)
    requires { colour < 8 }
    ensures { MakesAt last_saved row.old
        (λ parameters registers words. change_pair T.owed T.due registers words colour (T.owed old.low old.high) pair) t number
        row.new }
{
    let Some(pair) = pair else {
        row_words::break_at(row, t, number);
        return;
    };
    let before = due_marked(row[1][row_words::LAST]);
    let due = due_after::<T>(before, row_words::times(row), colour, old, pair);
    put_marked(row, 2 * colour, pair.low, pair.high, due, number);
}

// What an event of one of the row's streams makes of it, where it lies.
pub(crate) fn apply<T: Pairs>(row: &mut [[u64; SIZE]; 2], stream: u64, t: u64, number: u64)
    ensures { Applies last_saved (decide_pairs T.owed T.due T.pair_after) row.old stream t number row.new }
{
    let times = row_words::times(row);
    if times.len < WORDS {
        row_words::break_at(row, t, number);
        return;
    }
    let colour = (stream % 8) as usize;
    let old = Pair {
        low: times.at(2 * colour),
        high: times.at(2 * colour + 1),
    };
    let pair = T::pair_after(&row[1], stream, old, t);
    store::<T>(row, colour, old, pair, t, number);
}
