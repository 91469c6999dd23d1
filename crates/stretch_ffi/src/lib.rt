// The shortest stretch that breaks a row, for a host in C. The answer is one number. This is a separate crate for speed: the steps of a lent monitor
// use the same functions of a row, and the compiler treats them as if there were no other caller.
#![tactic(auto)]

ghost use Rattle.stretch_ffi.specs.Stretches.{NumbersStretchUpTo, NumbersStretch};

use delkuthi::answers::refusal_number;

// Returns the answer for a table of an edition up to `newest`.
fn stretch_number(newest: u8, table: &[u8], recording: &[u8], row: u64) -> u64
    ensures { NumbersStretchUpTo newest table.now recording.now row result }
{
    match stretch::shortest(newest, table, recording, row) {
        Ok(found) => {
            u64::from(found.first) * 256
                + u64::from(found.size) * 65536
                + u64::from(found.tried) * 4294967296
        }
        Err(refused) => refusal_number(refused),
    }
}

// §14.6
// Returns the shortest stretch of a recording that breaks a row of a table: the number of its first record in bits 8 to 15, its length from bit 16,
// and from bit 32 how many stretches were tried, including it. On a refusal it returns 256 times the place plus the number. For n records it takes at
// most n(n + 1)/2 steps of the row.
#[unsafe(no_mangle)]
pub extern "C" fn delkuthi_shortest_stretch(table: &[u8], recording: &[u8], row: u64) -> u64
    ensures { NumbersStretch table.now recording.now row result }
{
    stretch_number(1, table, recording, row)
}

// §16.3
// Does the same for a table of either edition.
#[unsafe(no_mangle)]
pub extern "C" fn delkuthi_shortest_stretch_2(table: &[u8], recording: &[u8], row: u64) -> u64
    ensures { NumbersStretchUpTo 2 table.now recording.now row result }
{
    stretch_number(2, table, recording, row)
}
