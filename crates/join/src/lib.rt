// Joins two recordings. Records are ordered by time; at equal times those of the first recording come first. Ticks that are not later than the joined
// clock are left out.
#![tactic(auto)]

ghost use Rattle.std.specs.Prelude.{◌≡◌, ◌&&◌, ℕ, ◌+◌, ◌≤◌, max, length, true, false, List};
ghost use Rattle.std.proofs.lemmas.List.Edits.{sets};
ghost use Rattle.constraint.specs.Steps.{at};
ghost use Rattle.constraint.specs.Joined.{AnswersJoin};
ghost use Rattle.constraint.specs.Bytes.{bytes_of};
ghost use Rattle.constraint.specs.LongAnswers.{joined_of};
ghost use Rattle.join.specs.Walk.{call_bytes, call_kind, head_for, head_front, head_bytes, is_kept, HeadAt, Keeps, Nexts, Walks, OutgrowsIn};
ghost use Rattle.join.specs.Walk.{RecordSize, first_common, is_marked, marked_with, Passes};

use clock::Clock;
use constraint::{Call, JoinRefusal, Refusal, RefusedAt};

// What the walk keeps of a record: how many bytes it has, its time, kind and colour. Where there is none it has 0 bytes, and the time is later than
// any: so one comparison of times says which of two comes next, where two Options would need four cases.
#[derive(Clone, Copy)]
pub struct Head {
    pub size: usize,
    pub time: u64,
    pub kind: u8,
    pub colour: u8,
}

// A place in a recording, and the head of the record there.
#[derive(Clone, Copy)]
pub struct Cursor {
    pub place: usize,
    pub head: Head,
}

// The record that comes next, if there is one: its head, and the places in both recordings behind it.
#[derive(Clone, Copy)]
pub struct Next {
    pub head: Head,
    pub first: usize,
    pub second: usize,
}

// The joined recording so far: its size and its clock.
#[derive(Clone, Copy)]
pub struct Part {
    pub size: usize,
    pub clock: u64,
}

// What a pass over a recording gives: a mark for each kind that it has, and the place of the first record of a kind to avoid.
#[derive(Drop)]
pub struct Passed {
    pub kinds: [bool; 64],
    pub common: Option<usize>,
}

// The kind of a call's event.
fn kind_of(call: Call) -> Option<u8>
    ensures { result ≡ call_kind call }
{
    match call {
        Call::Event { kind, .. } | Call::ColouredEvent { kind, .. } => Some(kind),
        Call::Tick { .. } | Call::Close => None,
    }
}

// How many bytes a record has.
#[tactic(auto, unfolding(constraint::specs::Bytes::bytes_of))]
pub fn size_of(call: Call) -> usize
    ensures { result ≡ length (call_bytes call) }
{
    match call {
        Call::Event { .. } => 11,
        Call::ColouredEvent { .. } => 12,
        Call::Tick { .. } => 10,
        Call::Close => 0,
    }
}

// Stores a record's length, kind and colour in a buffer from a place on, and its time behind them.
pub fn put_call(buffer: &mut [u8], place: usize, call: Call)
    requires { place + length (call_bytes call) ≤ 18446744073709551615 }
    ensures { buffer.new ≡ sets buffer.old place (call_bytes call) }
{
    match call {
        Call::Event { kind, time } => {
            big_endian::put(buffer, place, &[0, 9, kind]);
            big_endian::put_eight(buffer, place + 3, time);
        }
        Call::ColouredEvent { kind, colour, time } => {
            big_endian::put(buffer, place, &[0, 10, kind, colour]);
            big_endian::put_eight(buffer, place + 4, time);
        }
        Call::Tick { time } => {
            big_endian::put(buffer, place, &[0, 8]);
            big_endian::put_eight(buffer, place + 2, time);
        }
        Call::Close => {}
    }
}

impl Head {
    // Where there is no record.
    const NONE: Head = Head {
        size: 0,
        time: u64::MAX,
        kind: 0,
        colour: 0,
    };

    // The head of a tick.
    fn tick(time: u64) -> Self
        ensures { result ≡ head_for (Call.Tick time) }
    {
        Head {
            size: 10,
            time,
            kind: 0,
            colour: 0,
        }
    }
}

// The head of a call's record.
fn head_of(call: Call) -> Head
    ensures { result ≡ head_for call }
{
    match call {
        Call::Event { kind, time } => Head {
            size: 11,
            time,
            kind,
            colour: 0,
        },
        Call::ColouredEvent { kind, colour, time } => Head {
            size: 12,
            time,
            kind,
            colour,
        },
        Call::Tick { time } => Head::tick(time),
        Call::Close => Head::NONE,
    }
}

// The head of the record at a place.
fn head_at(bytes: &[u8], place: usize) -> Head
    ensures { HeadAt bytes.now place result }
{
    if let Some(time) = recording::tick_at(bytes, place) {
        return Head::tick(time);
    }
    match recording::call_at(bytes, place) {
        Ok(record) => head_of(record.call),
        Err(_) => Head::NONE,
    }
}

// §13.2
// Whether a record is kept at a clock: all but the ticks that are not later.
fn is_kept(clock: u64, head: Head) -> bool
    ensures { result ≡ is_kept clock head }
{
    10 < head.size || clock < head.time
}

// Stores the eight bytes of a number, for which there is room: a single store in machine code.
fn put_eight_there(buffer: &mut [u8], place: usize, x: u64)
    requires { place + 8 ≤ length buffer.old }
    ensures { buffer.new ≡ sets buffer.old place (bytes_of 8 x) }
{
    buffer[place..place + 8].copy_from_slice(&x.to_be_bytes());
}

// Stores what stands before a record's time, for which there is room.
fn put_front(buffer: &mut [u8], place: usize, head: Head)
    requires { RecordSize head × (place + head.size ≤ length buffer.old) }
    ensures { buffer.new ≡ sets buffer.old place (head_front head) }
{
    buffer[place] = 0;
    buffer[place + 1] = (head.size - 2) as u8;
    if head.size <= 10 {
        return;
    }
    buffer[place + 2] = head.kind;
    if head.size <= 11 {
        return;
    }
    buffer[place + 3] = head.colour;
}

// Stores a record, for which there is room.
fn put_record(buffer: &mut [u8], place: usize, head: Head)
    requires { RecordSize head × (place + head.size ≤ length buffer.old) }
    ensures { buffer.new ≡ sets buffer.old place (head_bytes head) }
{
    put_front(buffer, place, head);
    put_eight_there(buffer, place + (head.size - 8), head.time);
}

// Stores a record within a limit, unless the buffer is shorter than that.
fn put_within(buffer: &mut [u8], place: usize, limit: usize, head: Head)
    requires { RecordSize head × (place + head.size ≤ limit) }
    ensures { (length buffer.new ≡ length buffer.old)
        × (limit ≤ length buffer.old → buffer.new ≡ sets buffer.old place (head_bytes head)) }
{
    if buffer.len() < limit {
        return;
    }
    put_record(buffer, place, head);
}

// Keeps or drops a record behind the joined recording so far. Returns what is joined then, or none where it goes past the limit.
fn keep(buffer: &mut [u8], limit: usize, part: Part, head: Head) -> Option<Part>
    requires { RecordSize head × (part.size ≤ limit) }
    ensures { (length buffer.new ≡ length buffer.old) × Keeps buffer.old part.size limit part.clock head result buffer.new }
{
    if !is_kept(part.clock, head) {
        return Some(part);
    }
    if limit - part.size < head.size {
        return None;
    }
    put_within(buffer, part.size, limit, head);
    Some(Part {
        size: part.size + head.size,
        clock: head.time,
    })
}

impl Cursor {
    // At a place.
    fn at(bytes: &[u8], place: usize) -> Self
        ensures { HeadAt bytes.now result.place result.head × (result.place ≡ place) }
    {
        Cursor {
            place,
            head: head_at(bytes, place),
        }
    }

    // At the next place: the record is read only if the place is another.
    fn moved(self, bytes: &[u8], next: usize) -> Self
        ensures { (HeadAt bytes.now self.place self.head → HeadAt bytes.now result.place result.head) × (result.place ≡ next) }
    {
        if next == self.place {
            return self;
        }
        Cursor::at(bytes, next)
    }
}

// §13.1
// Which record comes next, of those at a place in the first recording and at one in the second.
fn following(a: Cursor, b: Cursor) -> Next
    requires { (a.place + a.head.size ≤ 18446744073709551615) × (b.place + b.head.size ≤ 18446744073709551615) }
    ensures { ((one two : List ℕ) → HeadAt one a.place a.head → HeadAt two b.place b.head → Nexts one two a.place b.place result)
        × (result.first ≤ a.place + a.head.size) × (result.second ≤ b.place + b.head.size) }
{
    if b.head.time < a.head.time {
        return Next {
            head: b.head,
            first: a.place,
            second: b.place + b.head.size,
        };
    }
    Next {
        head: a.head,
        first: a.place + a.head.size,
        second: b.place,
    }
}

// §13.3
// The version of the joined recording: the higher one.
fn version(first: &[u8], second: &[u8]) -> u8
    ensures { result ≡ max (at first.now 0) (at second.now 0) }
{
    recording::version(first).max(recording::version(second))
}

// §13.2
// The walk over both recordings: stores the joined one in the front of a buffer, unless that is shorter than the limit. Returns its size, or none
// where the joined one is longer than the limit.
fn walk(first: &[u8], second: &[u8], buffer: &mut [u8], limit: usize) -> Option<usize>
    ensures { Walks first.now second.now buffer.old limit result buffer.new }
{
    if limit == 0 {
        return None;
    }
    big_endian::put_byte(buffer, 0, version(first, second));
    let mut a = Cursor::at(first, 1);
    let mut b = Cursor::at(second, 1);
    let mut part = Part { size: 1, clock: 0 };
    // It stays a `loop`: which recording the next record is from is known only when both heads are.
    loop {
        let next = following(a, b);
        if next.head.size == 0 {
            return Some(part.size);
        }
        part = keep(buffer, limit, part, next.head)?;
        a = a.moved(first, next.first);
        b = b.moved(second, next.second);
    }
}

// Whether a kind is marked.
fn is_marked(marks: &[bool; 64], kind: Option<u8>) -> bool
    ensures { result ≡ is_marked marks.now kind }
{
    match kind {
        Some(kind) if kind < 64 => marks[kind as usize],
        _ => false,
    }
}

// Sets the mark of a kind.
fn mark(marks: &mut [bool; 64], kind: Option<u8>)
    ensures { marks.new ≡ marked_with marks.old kind }
{
    match kind {
        Some(kind) if kind < 64 => marks[kind as usize] = true,
        _ => {}
    }
}

// The place of the first record to avoid, with one record more.
fn first_common(common: Option<usize>, avoided: bool, place: usize) -> Option<usize>
    ensures { result ≡ first_common common avoided place }
{
    common.or(avoided.then_some(place))
}

// The pass over a recording: questions 13 and 14 and those of the steps; its kinds, and the first record of a kind to avoid.
fn pass(bytes: &[u8], avoid: &[bool; 64]) -> Result<Passed, RefusedAt>
    ensures { Passes bytes.now avoid.now result }
{
    if !recording::version_known(bytes) {
        return Err(RefusedAt {
            refusal: Refusal::RecordingVersion,
            place: 0,
        });
    }
    let mut clock = Clock::start();
    let mut kinds = [false; 64];
    let mut common: Option<usize> = None;
    let mut place: usize = 1;
    // A walk by place: a turn goes on by as many bytes as it reads, and a `for` can't. `stamps`, `stretch` and this keep other things of a record:
    // one walk for all would take a closure, and its contract would say after each record what was kept.
    while place < bytes.len() {
        let read = match clock.read(bytes, place) {
            Ok(read) => read,
            Err(refusal) => return Err(RefusedAt { refusal, place }),
        };
        let kind = kind_of(read.call);
        common = first_common(common, is_marked(avoid, kind), place);
        mark(&mut kinds, kind);
        place = clock.ticks(bytes, read.next);
    }
    Ok(Passed { kinds, common })
}

// Whether the joined recording is longer than a limit. It is never longer than both recordings together, so a limit of that size needs no walk.
fn outgrows(first: &[u8], second: &[u8], limit: usize) -> bool
    ensures { OutgrowsIn first.now second.now limit result }
{
    if second.len() < limit && first.len() <= limit - second.len() {
        return false;
    }
    walk(first, second, &mut [0u8; 1], limit).is_none()
}

// §8.16, §8.20, §13.5 to §13.7
// Joins two recordings: writes the joined one to the front of a buffer and returns its length; or the refusal, with the buffer as it was.
pub fn join(first: &[u8], second: &[u8], joined: &mut [u8]) -> Result<usize, JoinRefusal>
    ensures { AnswersJoin first.now second.now joined.old (joined_of result) joined.new }
{
    let one = match pass(first, &[false; 64]) {
        Ok(one) => one,
        Err(refused) => return Err(JoinRefusal::First(refused)),
    };
    let two = match pass(second, &one.kinds) {
        Ok(two) => two,
        Err(refused) => return Err(JoinRefusal::Second(refused)),
    };
    if let Some(place) = two.common {
        return Err(JoinRefusal::Second(RefusedAt {
            refusal: Refusal::CommonKind,
            place,
        }));
    }
    let limit = joined.len();
    if outgrows(first, second, limit) {
        return Err(JoinRefusal::TooShort);
    }
    walk(first, second, joined, limit).ok_or(JoinRefusal::TooShort)
}
