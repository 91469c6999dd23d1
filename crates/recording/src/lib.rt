// Reads a recording's bytes: its version, and the record at a place.
#![tactic(auto)]

ghost use Rattle.std.specs.Prelude.{◌≡◌, true, ◌+◌, ◌≤◌, length};
ghost use Rattle.constraint.specs.Steps.{at};
ghost use Rattle.constraint.specs.Records.{Decides};
ghost use Rattle.constraint.specs.Bytes.{number_at};
ghost use Rattle.constraint.specs.Recording.{colour_in, call_of, VersionKnown};
ghost use Rattle.recording.specs.Record.{Sizes, ReadsRecord, ReadsCall, TickAt, ReadsTick};

use constraint::{Call, Refusal};

// What is no colour. It stays a number: the definition `colour_in` and a call's colour have no other word for it.
const NO_COLOUR: u8 = 255;

// What is read of a record: its call, and the place behind it.
#[derive(Clone, Copy)]
pub struct CallRead {
    pub call: Call,
    pub next: usize,
}

// The version of a recording: its first byte, or 0 where there is none.
pub fn version(bytes: &[u8]) -> u8
    ensures { result ≡ at bytes.now 0 }
{
    big_endian::byte_at(bytes, 0)
}

// §8.1, §8.13
// Question 13: is the first byte there, and 1 or 2?
pub fn version_known(bytes: &[u8]) -> bool
    ensures { Decides (VersionKnown bytes.now) result }
{
    matches!(version(bytes), 1 | 2)
}

// The colour that a byte says: version 1 has no colours.
fn colour_in(version: u8, colour: u8) -> u8
    ensures { result ≡ colour_in version colour }
{
    if version == 1 { NO_COLOUR } else { colour }
}

// The number in the two bytes from a place on, which are there. It is in line also in code that is compiled for size: each caller has asked
// whether the bytes are there, so nothing is left to ask.
#[inline(always)]
fn two_there(bytes: &[u8], place: usize) -> u16
    requires { place + 2 ≤ length bytes.now }
    ensures { result ≡ number_at 2 bytes.now place }
{
    u16::from_be_bytes([bytes[place], bytes[place + 1]])
}

// The number in the eight bytes from a place on, which are there. They are taken out first, so that a compiler without proofs asks once whether they
// are there, and not for each byte.
fn eight_there(bytes: &[u8], place: usize) -> u64
    requires { place + 8 ≤ length bytes.now }
    ensures { result ≡ number_at 8 bytes.now place }
{
    let there = &bytes[place..place + 8];
    u64::from_be_bytes([
        there[0], there[1], there[2], there[3], there[4], there[5], there[6], there[7],
    ])
}

// The call of a record's bytes behind its length field, of which the last eight are its time.
fn call_of(version: u8, body: &[u8]) -> Call
    requires { (8 ≤ length body.now) × (length body.now ≤ 10) }
    ensures { result ≡ call_of version body.now }
{
    let length = body.len();
    let time = eight_there(body, length - 8);
    let kind = body[0];
    match length {
        8 => Call::Tick { time },
        9 => Call::Event { kind, time },
        _ => Call::ColouredEvent {
            kind,
            colour: colour_in(version, body[1]),
            time,
        },
    }
}

// Whether a whole record of length 8 stands at a place.
fn is_tick(bytes: &[u8], place: usize) -> bool
    ensures { result ≡ true → TickAt bytes.now place }
{
    10 <= bytes.len() && place <= bytes.len() - 10 && two_there(bytes, place) == 8
}

// §7.2
// The tick at a place, if there is one. A recording is mostly ticks, and this reads one faster than `call_at`.
pub fn tick_at(bytes: &[u8], place: usize) -> Option<u64>
    ensures { ReadsTick bytes.now place result }
{
    if is_tick(bytes, place) {
        return Some(eight_there(bytes, place + 2));
    }
    None
}

// How many bytes the record has with which a stretch begins, its length field among them; none where it is not whole or its length is not 8 to 10.
fn size_of(stretch: &[u8]) -> Option<usize>
    ensures { Sizes stretch.now result }
{
    let there = stretch.len();
    if there < 10 {
        return None;
    }
    let length = usize::from(two_there(stretch, 0));
    if length < 8 || 10 < length || there - 2 < length {
        return None;
    }
    Some(length + 2)
}

// The record with which a stretch begins: question 14, then its call and, as the place behind it, its size.
fn read_record(version: u8, stretch: &[u8]) -> Result<CallRead, Refusal>
    ensures { ReadsRecord version stretch.now result }
{
    let size = size_of(stretch).ok_or(Refusal::Record)?;
    let call = call_of(version, &stretch[2..size]);
    Ok(CallRead { call, next: size })
}

// §7.2, §8.14
// The record at a place, which is read from its own stretch.
pub fn call_at(bytes: &[u8], place: usize) -> Result<CallRead, Refusal>
    ensures { ReadsCall bytes.now place result }
{
    if bytes.len() < place {
        return Err(Refusal::Record);
    }
    let record = read_record(version(bytes), &bytes[place..])?;
    Ok(CallRead {
        call: record.call,
        next: place + record.next,
    })
}
