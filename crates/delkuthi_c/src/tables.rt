// The exported functions of `delkuthi::tables`, for C.
ghost use Rattle.delkuthi.specs.Tables.{MakesTableIn, MakesTable, AddsNumbered};

// Writes the table of the rows, 34 bytes for each, to the buffer. Returns 256 times the number of bytes written. On a refusal it returns 256 times
// the row plus the number, or 16 alone, and leaves the buffer as it was.
#[unsafe(no_mangle)]
pub extern "C" fn delkuthi_table(rows: &[u8], table: &mut [u8]) -> u64
    ensures { MakesTable rows.now table.old result table.new }
{
    delkuthi::tables::delkuthi_table(rows, table)
}

// Does the same in the second edition.
#[unsafe(no_mangle)]
pub extern "C" fn delkuthi_table_2(rows: &[u8], table: &mut [u8]) -> u64
    ensures { MakesTableIn 2 rows.now table.old result table.new }
{
    delkuthi::tables::delkuthi_table_2(rows, table)
}

// Adds the row of a body to the table in the first `length` bytes of the buffer. Returns 256 times the new length of the table. On a refusal it
// returns 256 times the place of the refusal plus its number, and leaves the buffer as it was.
#[unsafe(no_mangle)]
pub extern "C" fn delkuthi_add_row(table: &mut [u8], length: usize, body: &[u8]) -> u64
    ensures { AddsNumbered table.old length body.now result table.new }
{
    delkuthi::tables::delkuthi_add_row(table, length, body)
}
