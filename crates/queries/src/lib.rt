// What a host can ask while a monitor runs, computed from the numbers that the monitor keeps.
// The C interface has a number for no deadline, no moment, no cause and no stream, and the least deadline is the least of them: so they stay numbers.
#![tactic(auto)]

pub mod ffi;

ghost use Rattle.std.specs.Prelude.{◌≤◌, min, ◌≡◌};
ghost use Rattle.row_type.specs.Parameters.{waits_in};
ghost use Rattle.row_type.specs.Words.{parameters_at, registers_at};
ghost use Rattle.queries.specs.Oldest.{no_stream};
ghost use Rattle.queries.specs.Numbers.{deadline_by, waiting_by, cause_in, moment_in, group_kind, oldest_kind};

use constraint::NO_LIMIT;
use monitor::Monitor;
use ring::SIZE;
use row_type::row_words;

// §15.6, §15.7
// Returns the deadline of a row, given the mark of the close, the step that broke the row and its due time.
pub fn deadline_by(closed: u64, broken: u64, due: u64) -> u64
    ensures { result ≡ deadline_by closed broken due }
{
    if 0 < closed || 0 < broken {
        return NO_LIMIT;
    }
    if due < Monitor::LAST_TIME {
        return due;
    }
    NO_LIMIT
}

// §15.14
// Returns the cause of a break, given the step that broke the row and the word that a broken row has for the cause. It is one of three, whatever the
// word is; 0 if the row is not broken.
pub fn cause_by(broken: u64, cause: u64) -> u8
    ensures { (result ≤ 3) × (result ≡ cause_in broken cause) }
{
    match (broken, cause) {
        (0, _) => 0,
        (_, 1) => 1,
        (_, 2) => 2,
        _ => 3,
    }
}

// §15.15
// Returns the moment of a break, given the step that broke the row and the word that a broken row has for the moment.
pub fn moment_by(broken: u64, moment: u64) -> u64
    ensures { result ≡ moment_in broken moment }
{
    if 0 < broken { moment } else { NO_LIMIT }
}

// Returns whether the times that a row of this type keeps are those that wait in it.
fn waits_in(tag: u64) -> bool
    ensures { result ≡ waits_in tag }
{
    matches!(tag, 1 | 2 | 7)
}

// Returns how many wait in a row, given the mark of the close, the step that broke the row, its type and how many times it keeps.
pub fn waiting_by(closed: u64, broken: u64, tag: u64, kept: u64) -> u64
    ensures { result ≡ waiting_by closed broken tag kept }
{
    if 0 < closed || 0 < broken {
        return 0;
    }
    if waits_in(tag) { kept } else { 0 }
}

// §15.19
// What is no stream.
pub const NO_STREAM: u8 = 255;

// §15.18
// Returns the first kind that has an event in the oldest group of a StrongSynchronization, given the row's numbers.
fn group_kind(w: &[u64; SIZE]) -> u64
    ensures { result ≡ group_kind (parameters_at w.now) (registers_at w.now) }
{
    if 0 < w[row_words::ONE] {
        return w[row_words::FIRST];
    }
    if 0 < w[row_words::TWO] {
        return w[row_words::SECOND];
    }
    if 0 < w[row_words::THREE] {
        return w[row_words::THIRD];
    }
    if 0 < w[row_words::FOUR] {
        return w[row_words::FOURTH];
    }
    NO_LIMIT
}

// §15.18
// Returns the kind of the oldest that waits in a row, given the row's numbers, where something waits.
pub fn oldest_kind(w: &[u64; SIZE]) -> u64
    ensures { result ≡ oldest_kind (parameters_at w.now) (registers_at w.now) }
{
    if w[row_words::TYPE_TAG] == 7 {
        return group_kind(w);
    }
    w[row_words::FIRST]
}

// Returns a number as a stream; one that is too large is none.
pub fn stream_from(number: u64) -> u8
    ensures { result ≡ min number no_stream }
{
    number.min(u64::from(NO_STREAM)) as u8
}
