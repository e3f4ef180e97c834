//! Scripts of rows: files, commands over them, and what each is to answer.
//!
//! A script is read line by line. `file NAME` begins a file, whose lines follow up to a line `.`.
//! `$ WORDS` begins a row: the words of a command, with one blank between two of them, or none.
//! What it answers follows, up to a line that begins with `= `. `keep NAME` makes a file of the
//! text that the row before it answered. Every other line is a remark.
//!
//! A line `*N TEXT` of a file means the text N times, where `\n` is a line break, `\xHH` the byte
//! of two hexadecimal digits, `\#` the number of the time from 0, `\+` the same from 1, and `\\` a
//! `\`. No line break follows by itself.
#![tactic(auto)]

mod all;
mod repeated;
mod rows;
mod script;

pub use all::play_all;
pub use rows::{Carries, Tally, file_named};
pub use script::play;
