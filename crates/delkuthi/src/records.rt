// Takes a recording call by call on one lent monitor: the calls of its records, then the close.
ghost use Rattle.constraint.specs.Answers.{number_in};
ghost use Rattle.constraint.specs.Run.{asks};
ghost use Rattle.monitor.specs.declared.Monitor.{Monitor};
ghost use Rattle.in_place.specs.Contract.{Takes, HoldsMonitor};
ghost use Rattle.table.specs.ReadAnswer.{read_answer_of};
ghost use Rattle.delkuthi.specs.Taking.{TakesRecords};
ghost use Rattle.delkuthi.specs.TakingRecords.{TakesNext, TakesBytes, NumbersTaken};

use crate::answers::taken_number;
use constraint::{Call, Refusal, RefusedAt};
use in_place::{Words, calls};

// Takes a call on a lent monitor.
fn take(m: &mut Words, call: Call) -> Result<(), Refusal>
    ensures { Takes m.old (asks call) (number_in result) m.new }
{
    match call {
        Call::Event { kind, time } => calls::event(m, kind, time),
        Call::ColouredEvent { kind, colour, time } => calls::coloured_event(m, kind, colour, time),
        Call::Tick { time } => calls::tick(m, time),
        Call::Close => calls::close(m),
    }
}

// Takes the record at a place of a recording on a lent monitor. Returns the place behind it.
fn take_next(m: &mut Words, bytes: &[u8], place: usize) -> Result<usize, Refusal>
    ensures { TakesNext bytes.now place m.old result m.new }
{
    let record = recording::call_at(bytes, place)?;
    take(m, record.call)?;
    Ok(record.next)
}

// §7.1, §7.6, §9.4
// Takes the records of a recording on a lent monitor up to the first one that is refused.
fn take_records(m: &mut Words, bytes: &[u8]) -> Result<(), RefusedAt>
    ensures { TakesBytes bytes.now m.old (read_answer_of result) m.new }
{
    if !recording::version_known(bytes) {
        return Err(RefusedAt {
            refusal: Refusal::RecordingVersion,
            place: 0,
        });
    }
    let mut place = 1;
    // Stays a `while`: each record says where the next one is, so no range has the places.
    while place < bytes.len() {
        match take_next(m, bytes, place) {
            Ok(next) => place = next,
            Err(refusal) => return Err(RefusedAt { refusal, place }),
        }
    }
    Ok(())
}

// Takes a whole recording on a fresh lent monitor. It is accepted if the monitor takes every record and the close.
pub(crate) fn take_recording(m: &mut Words, bytes: &[u8]) -> Result<(), RefusedAt>
    requires { (fresh : Monitor) × HoldsMonitor m.old fresh }
    ensures { TakesRecords m.old bytes.now (read_answer_of result) m.new }
{
    take_records(m, bytes)?;
    // The close is taken: no recording closes a monitor or fills its count.
    let _ = calls::close(m);
    Ok(())
}

// §7.24, §11.5
// Takes the records of a recording, without a close. Returns 0 if all are taken. Otherwise it returns 256 times the place of the first record that
// is refused plus the number of the refusal; the records before it are taken.
#[unsafe(no_mangle)]
pub extern "C" fn delkuthi_take(m: &mut Words, recording: &[u8]) -> u64
    ensures { NumbersTaken m.old recording.now result m.new }
{
    taken_number(take_records(m, recording))
}
