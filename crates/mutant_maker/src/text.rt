//! The text of a list, by `csv`.
ghost use Rattle.std.specs.Prelude.{◌≡◌, ◌++◌, [], flat_map, map, IfOk, OnOk};
ghost use Rattle.csv.specs.Writing.{row_text};
ghost use Rattle.ir_tokens.specs.Bytes.{Text};
ghost use Rattle.mutant_maker.specs.Lists.{header, list_writer};
ghost use Rattle.mutant_maker.specs.Walks.{Wrote, fields_of};

use crate::rows::Row;
use am_base::OutOfMemory;
use csv::{Writer, WriterBuilder};
use itoa::Buffer;
use std::alloc::Global;

/// Returns a writer of records with `;` between fields.
fn writer_of(alloc: Global) -> Writer<Vec<u8>>
    ensures { Wrote result [] }
{
    WriterBuilder::new()
        .delimiter(b';')
        .from_writer(Vec::new(alloc))
}

/// Writes a record.
fn put_fields(writer: &mut Writer<Vec<u8>>, fields: &[&[u8]]) -> Result<(), OutOfMemory>
    ensures { OnOk result ((text : Text) → Wrote writer.old text
        → Wrote writer.new (text ++ row_text list_writer (map (λ f. f.now) fields.now))) }
{
    match writer.write_fields(fields) {
        Ok(()) => Ok(()),
        Err(_) => Err(OutOfMemory),
    }
}

fn put_row(writer: &mut Writer<Vec<u8>>, row: &Row) -> Result<(), OutOfMemory>
    ensures { OnOk result ((text : Text) → Wrote writer.old text
        → Wrote writer.new (text ++ row_text list_writer (fields_of row.now))) }
{
    let mut buffer = Buffer::new();
    let number = buffer.format(row.instruction).as_bytes();
    put_fields(
        writer,
        &[row.function.as_slice(), number, row.replacement.as_slice()],
    )
}

fn written(writer: Writer<Vec<u8>>) -> Result<Vec<u8>, OutOfMemory>
    ensures { (text : Text) → Wrote writer text → IfOk result (λ bytes. bytes.items ≡ text) }
{
    match writer.into_inner() {
        Ok(bytes) => Ok(bytes),
        Err(_) => Err(OutOfMemory),
    }
}

/// Returns the list of these records behind the header `function;instruction;replacement`, as `csv`
/// writes it with `;` between fields. It is refused only for want of memory. O(n) in its bytes.
pub fn list_of(alloc: Global, rows: &[Row]) -> Result<Vec<u8>, OutOfMemory>
    ensures { IfOk result (λ text. text.items
        ≡ row_text list_writer header ++ flat_map (λ row. row_text list_writer (fields_of row)) rows.now) }
{
    let mut writer = writer_of(alloc);
    put_fields(&mut writer, &[b"function", b"instruction", b"replacement"])?;
    'each: for row in rows {
        put_row(&mut writer, row)?;
    }
    written(writer)
}
