//! Where a line and a record of a file are.

/// Returns a line of a text without its end, by its number from 1; `None` where there is none.
pub fn line_at(text: &[u8], number: u64) -> Option<&[u8]> {
    let mut seen: u64 = 1;
    let mut begin: usize = 0;
    'bytes: for (at, byte) in text.iter().enumerate() {
        if *byte == b'\n' {
            if seen == number {
                return text.get(begin..at);
            }
            seen = seen.saturating_add(1);
            begin = at.saturating_add(1);
        }
    }
    if seen == number {
        text.get(begin..)
    } else {
        None
    }
}

/// Where the reading of a list file is.
#[derive(Clone, Copy, PartialEq, Eq)]
enum At {
    /// Between records.
    Between,
    /// At the start of a field.
    Field,
    /// In a field, where a quote is a byte like any other.
    Plain,
    /// Between the quotes of a field.
    Quoted,
    /// Behind a quote in a quoted field: its end, or the first half of a quote in it.
    Closed,
}

/// Where the reading is behind a byte.
fn behind(at: At, byte: u8) -> At {
    match (at, byte) {
        (At::Quoted, b'"') => At::Closed,
        (At::Quoted, _) => At::Quoted,
        (At::Closed, b'"') => At::Quoted,
        (_, b';') => At::Field,
        (_, b'\n') => At::Between,
        (_, b'\r') => At::Between,
        (At::Between, b'"') => At::Quoted,
        (At::Field, b'"') => At::Quoted,
        _ => At::Plain,
    }
}

/// Returns the number, from 1, of the line in which a record of a list file begins; `None` where the
/// file has no such record. Records are counted from 0; a line is what ends with byte 10, so a
/// record in quotes may have many of them.
pub fn line_of_record(file: &[u8], record: u64) -> Option<u64> {
    let text = match file {
        [0xEF, 0xBB, 0xBF, rest @ ..] => rest,
        _ => file,
    };
    let mut at = At::Between;
    let mut line: u64 = 1;
    let mut seen: u64 = 0;
    'bytes: for byte in text {
        if at == At::Between && *byte != b'\n' && *byte != b'\r' {
            if seen == record {
                return Some(line);
            }
            seen = seen.saturating_add(1);
        }
        if *byte == b'\n' {
            line = line.saturating_add(1);
        }
        at = behind(at, *byte);
    }
    None
}
