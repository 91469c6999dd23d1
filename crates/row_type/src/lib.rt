// The parts that every row type uses: a constraint as numbers, what a row keeps of its events, and the change that an event makes.
#![tactic(auto)]

use ring::Edit;

pub mod from_constraint;
pub mod parts;
pub mod row_words;

// The constraint's fields as numbers. A field that a type does not have is 0; a kind that it does not have is 64.
#[repr(C)]
#[derive(Clone, Copy)]
pub struct Parameters {
    // the number of its type
    pub tag: u64,
    // source, event, start, stimulus or first kind
    pub first: u64,
    // target, stop, response or second kind
    pub second: u64,
    // preempt or third kind
    pub third: u64,
    // resume or fourth kind
    pub fourth: u64,
    // fifth kind
    pub fifth: u64,
    // span or maximum
    pub span: u64,
    // lower, minimum or length
    pub lower: u64,
    // upper, maximum or tolerance
    pub upper: u64,
    pub jitter: u64,
    pub minimum: u64,
}

// Five numbers that a row keeps beside its times. A type uses some of these, and its module says for what; the others stay 0.
// They are words of the lent memory, so that 0 stands for none (registers_at).
#[repr(C)]
#[derive(Clone, Copy, Default)]
pub struct Registers {
    // one more than a time, or 0 for none: that of the last event, of the last target, or of a target beyond the number of sources
    pub last: u64,
    // counts, places of the last hidden point, or the phase of an execution and how long it has run
    pub first: u64,
    pub second: u64,
    pub third: u64,
    pub fourth: u64,
}

// What a row keeps beside its rule and its times.
#[repr(C)]
#[derive(Clone, Copy, Default)]
pub struct State {
    pub registers: Registers,
    // where its times begin, and how many there are
    pub head: usize,
    pub len: usize,
    // the last clock at which the row is still open if no event of the row comes
    pub due: u64,
    // 1: it is kept if the recording is closed now; a word of the lent memory, and so is broken (number_words)
    pub kept: u64,
    // the step that broke it; 0: not broken
    pub broken: u64,
}

// What an event makes of a row: it breaks it; or its times are edited, its marks and its due time are new, and it is kept or
// not if the recording is closed then. Only definitions use it: breaks stays a flag, as the theorems on changed_words hold it.
#[derive(Drop)]
pub struct Change {
    pub breaks: bool,
    pub edit: Edit,
    pub registers: Registers,
    pub due: u64,
    pub kept: bool,
}
