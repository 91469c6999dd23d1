// What OutputSynchronization and InputSynchronization share: five words for each colour, one for each of the row's kinds.
ghost use Rattle.std.specs.Prelude.{◌≡◌, ◌<◌, ◌≤◌, ◌+◌, ◌*◌, ◌%◌, Bool, List, [], ℕ, set, true, get_or};
ghost use Rattle.constraint.specs.Steps.{at};
ghost use Rattle.ring.specs.Ring.{times_of};
ghost use Rattle.row_type.specs.Words.{last_saved, Makes, MakesAt, Applies, parameters_at};
ghost use Rattle.event_chain.specs.Marked.{coloured_kind, due_next, marking};
ghost use Rattle.event_chain.specs.Coloured.{words_at, due_words, one_new, noted, unchanged, event_words, first_word};
ghost use Rattle.event_chain.specs.Coloured.{kind_count, place_among, decide_words, OwesNothing};

use crate::least::least_by;
use crate::marked::{COLOURS, coloured_kind, due_marked, due_next, put_marked};
use constraint::NO_LIMIT;
use ring::{SIZE, Times};
use row_type::row_words;

// How many words a colour has.
pub(crate) const WIDTH: usize = 5;

// How many a row has.
const WORDS: usize = 40;

// A row's kinds: how many there are beside the stimulus or the response, at most four, and how far apart their events may be.
#[derive(Clone, Copy)]
pub(crate) struct Kinds {
    pub(crate) count: usize,
    pub(crate) tolerance: u64,
    ghost few: { count ≤ 4 },
}

impl Kinds {
    // The kinds of a row, by its numbers.
    fn of(w: &[u64; SIZE]) -> Kinds
        ensures count { result.count ≡ kind_count (parameters_at w.now) }
        ensures tolerance { result.tolerance ≡ (parameters_at w.now).upper }
    {
        Kinds {
            count: w[row_words::SPAN].min(4) as usize,
            tolerance: w[row_words::UPPER],
        }
    }
}

// Where an event's word stands: its colour, and the place of its kind among the row's five.
#[derive(Clone, Copy)]
pub(crate) struct Place {
    pub(crate) colour: usize,
    pub(crate) kind: usize,
    ghost in_row: { (colour < 8) × (kind < 5) },
}

impl Place {
    // The place of a stream's events, by the row's numbers. A kind that is none of the first four has the last place.
    fn of(w: &[u64; SIZE], stream: u64) -> Place
        ensures colour { result.colour ≡ stream % 8 }
        ensures kind { result.kind ≡ place_among (parameters_at w.now) (coloured_kind stream) }
    {
        let of = coloured_kind(stream);
        let kind = if w[row_words::FIRST] == of {
            0
        } else if w[row_words::SECOND] == of {
            1
        } else if w[row_words::THIRD] == of {
            2
        } else if w[row_words::FOURTH] == of {
            3
        } else {
            4
        };
        Place {
            colour: (stream % 8) as usize,
            kind,
        }
    }
}

// The words of a row that has all 40.
#[derive(Clone, Copy)]
pub(crate) struct Words<'a> {
    times: Times<'a>,
    ghost whole: { 40 ≤ times.len },
}

impl<'a> Words<'a> {
    // A word of a colour.
    #[inline]
    pub(crate) fn at(self, colour: usize, kind: usize) -> u64
        requires { (colour < 8) × (kind < 5) }
        ensures { result ≡ get_or (times_of self.entry.times) (5 * colour + kind) 0 }
    {
        self.times.at(WIDTH * colour + kind)
    }

    // The words of a colour.
    #[inline]
    fn colour(self, n: usize) -> [u64; WIDTH]
        requires { n < 8 }
        ensures { result ≡ words_at (times_of self.entry.times) n }
    {
        [
            self.at(n, 0),
            self.at(n, 1),
            self.at(n, 2),
            self.at(n, 3),
            self.at(n, 4),
        ]
    }
}

// A type of such rows.
pub(crate) trait Synchronization {
    ghost owed: { ℕ → ℕ → List ℕ → ℕ };

    ghost breaks: { ℕ → List ℕ → ℕ → ℕ → Bool };

    ghost next: { ℕ → ℕ → ℕ → ℕ → ℕ };

    // The last moment of a colour, by its words.
    fn owed(kinds: Kinds, w: &[u64; WIDTH]) -> u64
        ensures { result ≡ owed kinds.count kinds.tolerance w.now };

    // Whether an event at t breaks the row.
    fn breaks(kinds: Kinds, words: Words<'_>, place: Place, t: u64) -> bool
        ensures { result ≡ breaks kinds.count (words_at (times_of words.entry.times) place.colour) place.kind t };

    // The word of a kind after an event at t, by the word before.
    fn next(kinds: Kinds, old: u64, kind: usize, t: u64) -> u64
        ensures { result ≡ next kinds.count old kind t };

    // Whether a new word surely leaves the due time as it is, for nothing is owed before or after it.
    fn quiet(kinds: Kinds, words: Words<'_>, place: Place) -> bool
        ensures { result ≡ true → OwesNothing (owed kinds.count kinds.tolerance) (words_at (times_of words.entry.times) place.colour) place.kind };
}

// A kind's word after an event at t: one more than its first event.
pub(crate) fn first_word(x: u64, t: u64) -> u64
    ensures { result ≡ first_word x t }
{
    if x == 0 { t.saturating_add(1) } else { x }
}

// The due time: the first last moment of all colours, one word of a colour being new.
fn due_but<T: Synchronization>(kinds: Kinds, words: Words<'_>, place: Place, value: u64) -> u64
    ensures { result ≡ due_words (T.owed kinds.count kinds.tolerance) (times_of words.entry.times) place.colour place.kind value 8 }
{
    least_by(COLOURS, |n| {
        let mut w = words.colour(n);
        if n == place.colour {
            w[place.kind] = value;
        }
        T::owed(kinds, &w)
    })
}

// The due time after a word of a colour is new, by the due time before.
fn due_after<T: Synchronization>(
    before: u64,
    kinds: Kinds,
    words: Words<'_>,
    place: Place,
    value: u64,
) -> u64
    ensures { result ≡ due_next before (T.owed kinds.count kinds.tolerance (words_at (times_of words.entry.times) place.colour))
        (T.owed kinds.count kinds.tolerance (set (words_at (times_of words.entry.times) place.colour) place.kind value))
        (due_words (T.owed kinds.count kinds.tolerance) (times_of words.entry.times) place.colour place.kind value 8) }
{
    let mut w = words.colour(place.colour);
    let old = T::owed(kinds, &w);
    w[place.kind] = value;
    let new = T::owed(kinds, &w);
    due_next(before, old, new, || {
        due_but::<T>(kinds, words, place, value)
    })
}

// A word is new, and the row goes on with a due time.
fn put_word(row: &mut [[u64; SIZE]; 2], place: Place, value: u64, due: u64, number: u64)
    ensures { Makes last_saved row.old
        (λ parameters registers words. marking (one_new (5 * place.colour + place.kind) value words) registers due) number row.new }
{
    let i = WIDTH * place.colour + place.kind;
    let behind = row_words::times(row).word(i + 1);
    put_marked(row, i, value, behind, due, number);
}

// No word changes.
fn keep(row: &mut [[u64; SIZE]; 2], number: u64)
    ensures { Makes last_saved row.old (λ parameters registers words. unchanged registers) number row.new }
{
    let due = due_marked(row[1][row_words::LAST]);
    row_words::save_undo_last(row);
    row_words::stay(row, number);
    row_words::settle(&mut row[1], due, u64::from(due == NO_LIMIT));
}

// A word of a colour is new, and the row goes on with the due time that follows from it. It stays a function of its own, which reads the row's kinds
// again: in line, or with the kinds passed to it, it takes registers from the events that need no new due time.
#[inline(never)]
fn note<T: Synchronization>(row: &mut [[u64; SIZE]; 2], place: Place, value: u64, number: u64)
    requires { 40 ≤ get_or (get_or row.now 1 []) 16 0 }
    ensures { Makes last_saved row.old (λ parameters registers words.
        noted (T.owed (kind_count parameters) parameters.upper) registers words place.colour place.kind value) number row.new }
{
    let kinds = Kinds::of(&row[1]);
    let times = row_words::times(row);
    let words = Words { times };
    let before = due_marked(row[1][row_words::LAST]);
    let due = due_after::<T>(before, kinds, words, place, value);
    put_word(row, place, value, due, number);
}

// What an event at a place makes of a row of such kinds.
fn apply_at<T: Synchronization>(
    row: &mut [[u64; SIZE]; 2],
    kinds: Kinds,
    place: Place,
    t: u64,
    number: u64,
)
    requires count { kinds.count ≡ kind_count (parameters_at (get_or row.now 1 [])) }
    requires tolerance { kinds.tolerance ≡ (parameters_at (get_or row.now 1 [])).upper }
    ensures { MakesAt last_saved row.old
        (λ parameters registers words. event_words (T.owed kinds.count kinds.tolerance) (T.breaks kinds.count)
        (λ w j t. T.next kinds.count (at w j) j t) registers words place.colour place.kind t) t number
        row.new }
{
    let times = row_words::times(row);
    if times.len < WORDS {
        row_words::break_at(row, t, number);
        return;
    }
    let words = Words { times };
    if T::breaks(kinds, words, place, t) {
        row_words::break_at(row, t, number);
        return;
    }
    let old = words.at(place.colour, place.kind);
    let value = T::next(kinds, old, place.kind, t);
    if value == old {
        keep(row, number);
        return;
    }
    if T::quiet(kinds, words, place) {
        let due = due_marked(row[1][row_words::LAST]);
        put_word(row, place, value, due, number);
        return;
    }
    note::<T>(row, place, value, number);
}

// What an event of one of the row's streams makes of it, where it lies.
pub(crate) fn apply<T: Synchronization>(
    row: &mut [[u64; SIZE]; 2],
    stream: u64,
    t: u64,
    number: u64,
)
    ensures { Applies last_saved (decide_words T.owed T.breaks (λ n w j t. T.next n (at w j) j t)) row.old stream t number row.new }
{
    let kinds = Kinds::of(&row[1]);
    let place = Place::of(&row[1], stream);
    apply_at::<T>(row, kinds, place, t, number);
}
