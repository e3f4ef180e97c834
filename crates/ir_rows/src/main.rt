//! Carries out scripts over texts: how they are cut into tokens, and what is read of modules and of
//! single instructions, printed and read again, is compared with what the script says. The words
//! after the program's name are scripts.
//!
//! The words of a row are `tokens FILE` (a line for each token: its kind and its bytes, or where it
//! stands if one of them isn't printable ASCII), `kinds FILE` (how many tokens of each kind),
//! `items FILE` (the first token of each item), `text FILE` (the canonical text, which is read again
//! as the same module), `N FILE` (the canonical text of the item N, from 0, which is an
//! instruction), `op FILE` (the canonical text of a single instruction and of its copy) and
//! `same FILE WANTED` (whether that text is another file's). Behind what is printed stands a line
//! `= ` with how it ended.
#![tactic(auto)]

mod again;
mod call;
mod instruction;
mod tokens;

use call::Texts;
use row_scripts::play_all;
use std::io;

fn main(rt: HostRuntime) -> io::Result<()> {
    play_all(&rt, &mut Texts)
}
