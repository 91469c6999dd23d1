// What row types share: tests that do not wrap, the due time that the oldest time gives, and the parts of a change.
ghost use Rattle.std.specs.Prelude.{◌≡◌, ◌+◌, leb, drop};
ghost use Rattle.constraint.specs.Streams.{kind_of};
ghost use Rattle.ring.specs.Ring.{times_of};
ghost use Rattle.row_type.specs.Parts.{far_enough, due_or, no_registers};

use crate::Registers;
use constraint::FIRST_COLOURED;
use ring::Times;

// Whether t is at least by after from.
pub fn reaches(from: u64, by: u64, t: u64) -> bool
    ensures { result ≡ leb (from + by) t }
{
    by <= t && from <= t - by
}

// Whether t is at least minimum after the last event, where there was one.
pub fn far_enough(minimum: u64, last: u64, t: u64) -> bool
    ensures { result ≡ far_enough minimum last t }
{
    last <= t.saturating_sub(minimum) || reaches(last - 1, minimum, t)
}

// §1.9
// The kind of a stream's events.
pub fn kind_of(stream: u64) -> u64
    ensures { result ≡ kind_of stream }
{
    let base = u64::from(FIRST_COLOURED);
    if stream < base {
        stream
    } else {
        base + (stream - base) / 8
    }
}

// The due time that the oldest time gives once some have left, where one is left; else another.
pub fn due_after(upper: u64, times: Times<'_>, dropped: usize, otherwise: u64) -> u64
    ensures { result ≡ due_or otherwise upper (drop dropped (times_of times.entry)) }
{
    if dropped < times.len {
        times.at(dropped).saturating_add(upper)
    } else {
        otherwise
    }
}

// The marks before any event.
pub fn no_registers() -> Registers
    ensures { result ≡ no_registers }
{
    Registers {
        last: 0,
        first: 0,
        second: 0,
        third: 0,
        fourth: 0,
    }
}
