// The text of a table.
ghost use Rattle.std.specs.Prelude.{◌≡◌, ◌++◌, ◌∷◌, [], IfOk, OnOk, IsUtf8, string_bytes};
ghost use Rattle.csv.specs.Records.{AllText, fields_of, partial_of};
ghost use Rattle.mon_table.specs.CsvLines.{IsBetweenLines, lines_in};
ghost use Rattle.mon_table.specs.References.{rows_behind};
ghost use Rattle.mon_table.specs.Tables as spec;
ghost use Rattle.mon_value.specs.Tables.{column_names};
ghost use Rattle.mon_value.specs.Order.{sorted_rows};

use csv::{ByteRecord, Writer, WriterBuilder};
use mon_value::{Columns, OutOfMemory, Table, Text, TimedRow, TimedRows, Value, write_text};
use std::alloc::{AllocError, Global};

/// The text of a table: a line of comma-separated names, `time` and the columns, a line for each row, by
/// time and then column by column, and how many rows there are. Cells are quoted where they call for it,
/// so that a reader of comma-separated values reads them back. Each line ends with a line feed.
pub fn print(alloc: Global, table: &Table) -> Result<Text, OutOfMemory>
    ensures text { IfOk result (λ text. text ≡ spec.printed_table table.now) }
{
    let count = format!(in alloc; "{} rows\n", table.rows.len())?;
    let rows = sorted_references(alloc, &table.rows)?;
    let mut text = lines_of(alloc, &table.columns, rows.as_slice())?;
    text.push_str(count.as_str())?;
    Text::from_string(text)
}

// The rows in their order.
fn sorted_references<'a>(
    alloc: Global,
    rows: &'a TimedRows,
) -> Result<Vec<&'a TimedRow>, OutOfMemory>
    ensures order { IfOk result (λ ordered. rows_behind ordered.items ≡ sorted_rows rows.now) }
{
    let mut ordered = references(alloc, rows)?;
    ordered.sort_unstable();
    Ok(ordered)
}

// The rows, as references.
fn references<'a>(alloc: Global, rows: &'a TimedRows) -> Result<Vec<&'a TimedRow>, OutOfMemory>
    ensures rows { IfOk result (λ all. rows_behind all.items ≡ rows.now) }
{
    let mut all = Vec::with_capacity(alloc, rows.len())?;
    for row in rows {
        all.push(row)?;
    }
    Ok(all)
}

// The lines of a table.
fn lines_of(alloc: Global, columns: &Columns, rows: &[&TimedRow]) -> Result<String, OutOfMemory>
    ensures text { IfOk result (λ text. string_bytes text
        ≡ spec.lines_of_rows (column_names columns.now) (rows_behind rows.now)) }
{
    let mut writer = line_writer(alloc);
    match write_lines(alloc, &mut writer, columns, rows) {
        Ok(()) => into_text(writer),
        Err(fault) => {
            drop(writer);
            Err(fault)
        }
    }
}

// Writes the lines of a table, where nothing was written yet.
fn write_lines(
    alloc: Global,
    writer: &mut Writer<Vec<u8>>,
    columns: &Columns,
    rows: &[&TimedRow],
) -> Result<(), OutOfMemory>
    requires empty { lines_in writer.old ≡ [] }
    requires between { IsBetweenLines writer.old }
    ensures text { OnOk result (lines_in writer.new
        ≡ spec.lines_of_rows (column_names columns.now) (rows_behind rows.now)) }
    ensures written { OnOk result (IsUtf8 (lines_in writer.new)) }
{
    let mut cells = ByteRecord::new(alloc);
    let written = write_lines_by(alloc, writer, &mut cells, columns, rows);
    drop(cells);
    written
}

// Writes the lines of a table by way of a record, which has the cells of one line after another.
fn write_lines_by(
    alloc: Global,
    writer: &mut Writer<Vec<u8>>,
    cells: &mut ByteRecord,
    columns: &Columns,
    rows: &[&TimedRow],
) -> Result<(), OutOfMemory>
    requires empty { lines_in writer.old ≡ [] }
    requires between { IsBetweenLines writer.old }
    ensures text { OnOk result (lines_in writer.new
        ≡ spec.lines_of_rows (column_names columns.now) (rows_behind rows.now)) }
    ensures written { OnOk result (IsUtf8 (lines_in writer.new)) }
{
    name_columns(cells, columns)?;
    put_line(writer, cells)?;
    for row in rows {
        fill(alloc, cells, row)?;
        put_line(writer, cells)?;
    }
    Ok(())
}

// A writer of lines.
fn line_writer(alloc: Global) -> Writer<Vec<u8>>
    ensures empty { lines_in result ≡ [] }
    ensures between { IsBetweenLines result }
{
    WriterBuilder::new()
        .flexible(true)
        .from_writer(Vec::new(alloc))
}

// Writes a line of texts, behind which what was written is still a text.
fn put_line(writer: &mut Writer<Vec<u8>>, cells: &ByteRecord) -> Result<(), OutOfMemory>
    requires between { IsBetweenLines writer.old }
    requires written { IsUtf8 (lines_in writer.old) }
    requires texts { AllText (fields_of cells.now) }
    ensures line { OnOk result (lines_in writer.new ≡ lines_in writer.old ++ spec.csv_line (fields_of cells.now)) }
    ensures between { OnOk result (IsBetweenLines writer.new) }
    ensures written { OnOk result (IsUtf8 (lines_in writer.new)) }
{
    write_cells(writer, cells)
}

// Writes a line. Into memory that fails for want of it alone.
fn write_cells(writer: &mut Writer<Vec<u8>>, cells: &ByteRecord) -> Result<(), OutOfMemory>
    requires between { IsBetweenLines writer.old }
    ensures line { OnOk result (lines_in writer.new ≡ lines_in writer.old ++ spec.csv_line (fields_of cells.now)) }
    ensures between { OnOk result (IsBetweenLines writer.new) }
{
    match writer.write_byte_record(cells) {
        Ok(()) => Ok(()),
        Err(_) => Err(AllocError),
    }
}

// What was written. Lines of texts are a text.
fn into_text(writer: Writer<Vec<u8>>) -> Result<String, OutOfMemory>
    requires written { IsUtf8 (lines_in writer) }
    ensures text { IfOk result (λ text. string_bytes text ≡ lines_in writer) }
{
    match writer.into_inner() {
        Ok(bytes) => Ok(String::from_utf8(bytes).unwrap()),
        Err(_) => Err(AllocError),
    }
}

// The names of the columns, as cells.
fn name_columns(cells: &mut ByteRecord, columns: &Columns) -> Result<(), OutOfMemory>
    ensures names { OnOk result (fields_of cells.new ≡ spec.codes "time" ∷ column_names columns.now) }
    ensures texts { OnOk result (AllText (fields_of cells.new)) }
{
    cells.clear();
    push_text(cells, "time")?;
    for column in columns {
        push_text(cells, column.name.as_str())?;
    }
    Ok(())
}

// The cells of a row.
fn fill(alloc: Global, cells: &mut ByteRecord, row: &TimedRow) -> Result<(), OutOfMemory>
    ensures texts { OnOk result (fields_of cells.new ≡ spec.row_texts row.now) }
    ensures utf8 { OnOk result (AllText (fields_of cells.new)) }
{
    cells.clear();
    let time = row.time;
    push_text(cells, format!(in alloc; "{time}")?.as_str())?;
    for value in &row.cells {
        push_value(alloc, cells, value)?;
    }
    Ok(())
}

// A value, as a cell.
fn push_value(alloc: Global, cells: &mut ByteRecord, value: &Value) -> Result<(), OutOfMemory>
    requires whole { partial_of cells.old ≡ [] }
    requires texts { AllText (fields_of cells.old) }
    ensures text { OnOk result (fields_of cells.new ≡ fields_of cells.old ++ spec.value_text value.now ∷ []) }
    ensures whole { OnOk result (partial_of cells.new ≡ []) }
    ensures texts { OnOk result (AllText (fields_of cells.new)) }
{
    match value {
        Value::Text(text) => push_text(cells, text.as_str()),
        other => push_text(cells, write_text(alloc, other)?.as_str()),
    }
}

// A text, as a cell.
fn push_text(cells: &mut ByteRecord, text: &str) -> Result<(), OutOfMemory>
    requires whole { partial_of cells.old ≡ [] }
    requires texts { AllText (fields_of cells.old) }
    ensures text { OnOk result (fields_of cells.new ≡ fields_of cells.old ++ text.now ∷ []) }
    ensures whole { OnOk result (partial_of cells.new ≡ []) }
    ensures texts { OnOk result (AllText (fields_of cells.new)) }
{
    cells.push_field(text.as_bytes())
}
