//! What carries out the rows of a script, and how many it has.

use std::alloc::{AllocError, Global};

/// What carries out the commands of a script.
pub trait Carries {
    /// Carries out the words of a row over files, of which the last of a name counts. It appends to
    /// `shown` what the row is compared with, and returns the text that `keep` makes a file of.
    fn carry_out(
        &mut self,
        alloc: Global,
        words: &[&str],
        files: &[(String, Vec<u8>)],
        shown: &mut String,
    ) -> Result<Vec<u8>, AllocError>;
}

/// The text of a file, of two with one name the later one. A file that isn't there is empty.
pub fn file_named<'a>(files: &'a [(String, Vec<u8>)], name: &str) -> &'a [u8] {
    for (other, text) in files.iter().rev() {
        if other.as_str() == name {
            return text.as_slice();
        }
    }
    &[]
}

/// How many rows a script has, and how many of them answered otherwise than it says.
#[derive(Clone, Copy, Debug, PartialEq, Eq)]
pub struct Tally {
    pub rows: u32,
    pub wrong: u32,
}
