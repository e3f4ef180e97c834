//! A reader over the bytes of a list file.

ghost use Rattle.std.specs.Prelude.{◌≡◌, ℕ, List, true, false, [], ◌∷◌, ◌++◌, IfOk};
ghost use Rattle.csv.specs.Records.{fields_of};
ghost use Rattle.list_records.specs.Records.{Fields, Gave, AreRows, field_of};

use am_base::OutOfMemory;
use csv::{ByteRecord, Reader, ReaderBuilder};
use std::alloc::Global;

/// Returns a reader of the records of a list file, the header as record 0: `;` between fields, `"`
/// for quotes, no trimming, records of any length. A byte order mark at the front is skipped.
pub fn reader_of<'a>(alloc: Global, text: &'a [u8]) -> Reader<&'a [u8]>
    ensures { Gave text.now result [] }
{
    ReaderBuilder::new()
        .delimiter(b';')
        .has_headers(false)
        .flexible(true)
        .from_reader(alloc, text)
}

/// Reads the next record into `row` and returns whether there was one.
pub fn next_record(reader: &mut Reader<&[u8]>, row: &mut ByteRecord) -> Result<bool, OutOfMemory>
    ensures more { IfOk result (λ found. found ≡ true → (text : List ℕ) (rows : List Fields) → Gave text reader.old rows → Gave text reader.new (rows ++ fields_of row.new ∷ [])) }
    ensures all { IfOk result (λ found. found ≡ false → (text : List ℕ) (rows : List Fields) → Gave text reader.old rows → AreRows text rows) }
{
    match reader.read_byte_record(row) {
        Ok(found) => Ok(found),
        Err(_) => Err(OutOfMemory),
    }
}

/// Returns the field at index `at` of a record, counted from 0: the empty text past the last one.
pub fn field(row: &ByteRecord, at: usize) -> &[u8]
    ensures { result.now ≡ field_of (fields_of row.now) at }
{
    match row.get(at) {
        Some(field) => field,
        None => &[],
    }
}
