// Stores the rows of a table in a buffer, row by row.
ghost use Rattle.std.specs.Prelude.{◌≡◌, ◌+◌, ◌≤◌, length};
ghost use Rattle.std.proofs.lemmas.List.Edits.{sets};
ghost use Rattle.constraint.specs.Accepted.{Accepted};
ghost use Rattle.constraint.specs.Table.{rows_bytes};
ghost use Rattle.table_row.specs.Tables.{rows_of};

use table_row::Table;

// Stores the rows of a table behind the version byte.
pub(crate) fn put_rows(buffer: &mut [u8], table: Table)
    requires { Accepted (rows_of table) × (1 + length (rows_bytes (rows_of table)) ≤ length buffer.old) }
    ensures { buffer.new ≡ sets buffer.old 1 (rows_bytes (rows_of table)) }
{
    let mut place = 1;
    for i in 0..table.count {
        let row = table.rows[i];
        row.put(buffer, place);
        place += 2 + row.length();
    }
}

// The number of bytes of a table. `raw` adds up lengths of given bytes in the same way, over rows that no record has.
pub(crate) fn size_of(table: Table) -> usize
    requires { Accepted (rows_of table) }
    ensures { result ≡ 1 + length (rows_bytes (rows_of table)) }
{
    let mut size = 1;
    for i in 0..table.count {
        size += 2 + table.rows[i].length();
    }
    size
}
