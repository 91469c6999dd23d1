// What every crate uses: the limits, a call, the refusals, and the verdict of a row. The contract's definitions are in specs/.
#![tactic(auto)]

ghost use Rattle.std.specs.Prelude.{◌≡◌};
ghost use Rattle.constraint.specs.Answers.{refusal_number};

// §1.2
// The largest kind of event.
pub const LAST_KIND: u8 = 63;
// §1.2
// The first coloured kind: those below it are plain.
pub const FIRST_COLOURED: u8 = 48;
// §1.2
// The largest colour.
pub const LAST_COLOUR: u8 = 7;
// How many streams there are: 48 plain kinds, and 16 coloured ones of 8 colours.
pub const STREAM_COUNT: usize = 176;
// §1.1
// The largest time, 2^60 - 1.
pub const LAST_TIME: u64 = 1152921504606846975;
// §1.7
// The largest count of steps, 2^64 - 1.
pub const LAST_COUNT: u64 = 18446744073709551615;
// The mark for an upper that is no limit, 2^64 - 1.
pub const NO_LIMIT: u64 = 18446744073709551615;
// How many rows a table has at most.
pub const ROW_LIMIT: usize = 32;
// The largest span or maximum.
pub const SPAN_LIMIT: u8 = 64;
// The largest span of a Repetition.
pub const REPETITION_SPAN_LIMIT: u8 = 8;
// How many a row keeps waiting at most.
pub const WAITING_LIMIT: usize = 64;

// A call, with its arguments as given: an event of a kind at a time, one of a coloured kind with its colour, a tick to a time, or the close.
#[derive(Clone, Copy, PartialEq, Eq)]
pub enum Call {
    Event { kind: u8, time: u64 },
    ColouredEvent { kind: u8, colour: u8, time: u64 },
    Tick { time: u64 },
    Close,
}

// Why a call is refused: the first question that is answered "no". Each has the number of its question, which a host reads.
#[derive(Clone, Copy, PartialEq, Eq)]
pub enum Refusal {
    // a table, or a row of it
    TableVersion = 1,
    RowCut = 2,
    TooManyRows = 3,
    RowShape = 4,
    RowKinds = 5,
    RowRange = 6,
    RowBounds = 7,
    // a step
    Closed = 8,
    Kind = 9,
    TimeRange = 10,
    TimeOrder = 11,
    Crowded = 12,
    // a recording, or a record of it
    RecordingVersion = 13,
    Record = 14,
    // the number of a row
    NoRow = 15,
    // a buffer
    Room = 16,
    // a file
    FileSize = 17,
    // the kinds of a row, asked after 5
    RowSort = 18,
    // the kind or the colour of an event, asked after 9
    Form = 19,
    // two recordings
    CommonKind = 20,
    // a withdrawal
    NothingToWithdraw = 21,
    // the shortest stretch
    TooManyRecords = 22,
    NoStretch = 23,
    // a step, asked after 8
    CountFull = 24,
    // a row for late stamps
    NotRepeat = 25,
    // a withdrawal of one step
    OtherStep = 26,
}

impl From<Refusal> for u8 {
    ghost from_gives = { λ refusal number. number ≡ refusal_number refusal };

    // The number of the question.
    fn from(refusal: Refusal) -> u8 {
        refusal as u8
    }
}

// A refusal, and the place in the table or the recording that it is about.
#[derive(Clone, Copy, PartialEq, Eq)]
pub struct RefusedAt {
    pub refusal: Refusal,
    pub place: usize,
}

// The verdict of a row: open, kept, or broken with the step that broke it.
#[derive(Clone, Copy, PartialEq, Eq)]
pub enum Verdict {
    Open,
    Kept,
    Broken(u64),
}

// What a Repeat row of span 1 reads at the close where stamps may be late: kept for each choice of true times, broken for each, or
// unsure, as the choices differ.
#[derive(Clone, Copy, PartialEq, Eq)]
pub enum StampedVerdict {
    Kept,
    Broken,
    Unsure,
}

// Why two recordings are not joined: the first or the second is refused, or the buffer is too short.
#[derive(Clone, Copy, PartialEq, Eq)]
pub enum JoinRefusal {
    First(RefusedAt),
    Second(RefusedAt),
    TooShort,
}

// The shortest stretch that breaks a row: the number of its first record, from 0, its length, and how many stretches were tried, with it.
#[derive(Clone, Copy, PartialEq, Eq)]
pub struct FoundStretch {
    pub first: u8,
    pub size: u16,
    pub tried: u32,
}
