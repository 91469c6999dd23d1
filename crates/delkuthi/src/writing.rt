// Writes the records of a recording one behind the other into a buffer, for a host in C.
ghost use Rattle.std.specs.Prelude.{◌≡◌};
ghost use Rattle.constraint.specs.Answers.{answer_of};
ghost use Rattle.constraint.specs.Questions.{Judged};
ghost use Rattle.constraint.specs.declared.Call.{Call};
ghost use Rattle.delkuthi.specs.Writing.{version_for, place_for, form_questions, write_questions, begun, put_number, PutsRecord};

use crate::answers::place_number;
use constraint::{Call, FIRST_COLOURED, LAST_COLOUR, LAST_KIND, LAST_TIME, Refusal};
use join::{put_call, size_of};

// The version of a recording that the writer begins.
const VERSION: u8 = 2;

// Returns the version of the recording that the buffer has, or that is begun in it.
fn version_for(recording: &[u8], size: usize) -> u8
    ensures { result ≡ version_for recording.now size }
{
    if size == 0 {
        VERSION
    } else {
        recording::version(recording)
    }
}

// Returns the place of the next record.
fn place_for(size: usize) -> usize
    ensures { result ≡ place_for size }
{
    size.max(1)
}

// Asks 10.
fn time_form(time: u64) -> Result<(), Refusal>
    ensures { Judged (form_questions 2 (Call.Tick time)) (answer_of result) }
{
    if LAST_TIME < time {
        return Err(Refusal::TimeRange);
    }
    Ok(())
}

// Asks 9, 19 and 10 of an event of a plain kind.
fn plain_form(kind: u8, time: u64) -> Result<(), Refusal>
    ensures { Judged (form_questions 2 (Call.Event kind time)) (answer_of result) }
{
    if LAST_KIND < kind {
        return Err(Refusal::Kind);
    }
    if FIRST_COLOURED <= kind {
        return Err(Refusal::Form);
    }
    time_form(time)
}

// Asks 9, 19 and 10 of an event of a coloured kind. A recording of version 1 has no colours.
fn coloured_form(version: u8, kind: u8, colour: u8, time: u64) -> Result<(), Refusal>
    ensures { Judged (form_questions version (Call.ColouredEvent kind colour time)) (answer_of result) }
{
    if LAST_KIND < kind {
        return Err(Refusal::Kind);
    }
    if kind < FIRST_COLOURED || LAST_COLOUR < colour || version == 1 {
        return Err(Refusal::Form);
    }
    time_form(time)
}

// Asks the questions of a record alone. A close has no record.
fn form_refusal(version: u8, call: Call) -> Result<(), Refusal>
    ensures { Judged (form_questions version call) (answer_of result) }
{
    match call {
        Call::Event { kind, time } => plain_form(kind, time),
        Call::ColouredEvent { kind, colour, time } => coloured_form(version, kind, colour, time),
        Call::Tick { time } => time_form(time),
        Call::Close => Err(Refusal::Record),
    }
}

// Asks all questions.
fn write_refusal(recording: &[u8], size: usize, call: Call) -> Result<(), Refusal>
    ensures { Judged (write_questions recording.now size call) (answer_of result) }
{
    let version = version_for(recording, size);
    if version != 1 && version != 2 {
        return Err(Refusal::RecordingVersion);
    }
    form_refusal(version, call)?;
    if recording.len().saturating_sub(size_of(call)) < place_for(size) {
        return Err(Refusal::Room);
    }
    Ok(())
}

// Begins a recording where there is none.
fn begin(recording: &mut [u8], size: usize)
    ensures { recording.new ≡ begun recording.old size }
{
    if size == 0 {
        big_endian::put_byte(recording, 0, VERSION);
    }
}

// Writes a record behind the first `size` bytes of a buffer. Returns the size then.
fn put_record(recording: &mut [u8], size: usize, call: Call) -> Result<usize, Refusal>
    ensures { PutsRecord recording.old size call (put_number result) recording.new }
{
    write_refusal(recording, size, call)?;
    let place = place_for(size);
    let next = place + size_of(call);
    begin(recording, size);
    put_call(recording, place, call);
    Ok(next)
}

// Returns 256 times the size of the recording then, or the number of the refusal.
fn put_number(put: Result<usize, Refusal>) -> u64
    ensures { result ≡ put_number put }
{
    match put {
        Ok(next) => place_number(next),
        Err(refusal) => u64::from(u8::from(refusal)),
    }
}

// §7.26
// Writes an event of a plain kind. Returns 256 times the size of the recording then, or the number of the refusal.
#[unsafe(no_mangle)]
pub extern "C" fn delkuthi_put_event(recording: &mut [u8], size: usize, kind: u8, time: u64) -> u64
    ensures { PutsRecord recording.old size (Call.Event kind time) result recording.new }
{
    put_number(put_record(recording, size, Call::Event { kind, time }))
}

// §7.26
// Writes an event of a coloured kind.
#[unsafe(no_mangle)]
pub extern "C" fn delkuthi_put_coloured_event(
    recording: &mut [u8],
    size: usize,
    kind: u8,
    colour: u8,
    time: u64,
) -> u64
    ensures { PutsRecord recording.old size (Call.ColouredEvent kind colour time) result recording.new }
{
    put_number(put_record(recording, size, Call::ColouredEvent { kind, colour, time }))
}

// §7.26
// Writes a tick.
#[unsafe(no_mangle)]
pub extern "C" fn delkuthi_put_tick(recording: &mut [u8], size: usize, time: u64) -> u64
    ensures { PutsRecord recording.old size (Call.Tick time) result recording.new }
{
    put_number(put_record(recording, size, Call::Tick { time }))
}
