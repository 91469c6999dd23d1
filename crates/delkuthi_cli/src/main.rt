// The program: reads table.bin and recording.bin where it stands, and prints the report.
#![tactic(auto)]

ghost use Rattle.std.specs.Prelude.{◌≡◌, ◌≤◌, length, take};

use std::io::{Read, Write};
use std::rt::Files;
use std::{fs, io};

// Reads a file to the front of a buffer, as far as there is room, and answers the number of bytes. One that can't be opened counts as empty, and one
// that can't be read further ends there.
fn load(files: &impl Files, path: &str, buffer: &mut [u8]) -> usize
    ensures within { result ≤ length buffer.new }
    ensures counted { result ≡ length (take result buffer.new) }
{
    let Ok(mut file) = fs::open(files, path) else {
        return 0;
    };
    let mut count = 0;
    // Stays a `while`: of a short file `read_exact` tells no length, and `read_to_end` needs the heap.
    while count < buffer.len() {
        match file.read(&mut buffer[count..]) {
            Ok(0) | Err(_) => break,
            Ok(more) => count += more,
        }
    }
    count
}

// Each buffer takes one byte more than the file may have, so that a larger file is seen to be too large.
fn main(rt: HostRuntime) -> io::Result<()> {
    let mut table = [0u8; delkuthi::TABLE_SIZE_LIMIT + 1];
    let mut recording = [0u8; delkuthi::RECORDING_SIZE_LIMIT + 1];
    let table_size = load(&rt, "table.bin", &mut table);
    let recording_size = load(&rt, "recording.bin", &mut recording);
    let text = delkuthi::program_text(&table[..table_size], &recording[..recording_size]);
    io::writer(&rt).write_all(&text.bytes[..text.len])
}
