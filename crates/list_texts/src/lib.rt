//! What the records of a list of mutants put in place, as the list has it.
#![tactic(auto)]

ghost use Rattle.std.specs.Prelude.{◌≡◌, ◌≤◌, ℕ, List, [], ◌∷◌, length, map, IfOk};
ghost use Rattle.csv.specs.Records.{fields_of};
ghost use Rattle.list_records.specs.Records.{Fields, Gave, rows_of};
ghost use Rattle.list_texts.specs.Texts as spec;

use am_base::{MAX_FILE_BYTES, OutOfMemory};
use am_lists::{Bytes, Items};
use csv::{ByteRecord, Reader};
use list_records::{field, next_record, reader_of};
use std::alloc::Global;

/// The last field of a record that has as many fields as its header.
fn last_field(alloc: Global, row: &ByteRecord, width: usize) -> Result<Bytes, OutOfMemory>
    ensures { IfOk result (λ text. text ≡ spec.last_field width (fields_of row.now)) }
{
    Ok(Items::from_slice(alloc, field(row, width.saturating_sub(1)))?)
}

/// Returns the texts of the records behind the header.
fn texts_behind(
    alloc: Global,
    reader: &mut Reader<&[u8]>,
    row: &mut ByteRecord,
    width: usize,
) -> Result<Items<Bytes>, OutOfMemory>
    ensures { (text : List ℕ) (header : Fields) (records : List Fields) → length text ≤ MAX_FILE_BYTES → Gave text reader.old (header ∷ [])
        → rows_of text ≡ header ∷ records → IfOk result (λ texts. texts ≡ map (spec.last_field width) records) }
{
    let mut texts = Items::new(alloc);
    'each: for k in 0..MAX_FILE_BYTES + 2 {
        if !next_record(reader, row)? {
            return Ok(texts);
        }
        let _read = k;
        texts.push(last_field(alloc, row, width)?)?;
    }
    Ok(texts)
}

/// Returns what the records of a list of mutants put in place, by the last field of each, record by
/// record. The first record is the header and says how many fields each has. It is refused only for
/// want of memory. O(n) in the bytes of the text.
pub fn replacement_texts(alloc: Global, text: &[u8]) -> Result<Items<Bytes>, OutOfMemory>
    requires { length text.now ≤ MAX_FILE_BYTES }
    ensures { IfOk result (λ texts. texts ≡ spec.replacement_texts (rows_of text.now)) }
{
    let mut reader = reader_of(alloc, text);
    let mut row = ByteRecord::new(alloc);
    if !next_record(&mut reader, &mut row)? {
        return Ok(Items::new(alloc));
    }
    let width = row.len();
    texts_behind(alloc, &mut reader, &mut row, width)
}
