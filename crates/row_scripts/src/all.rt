//! The scripts that the words of a program name.

use crate::rows::Carries;
use crate::script::play;
use std::rt::{Env, Files};
use std::{env, fs, io};

/// Carries out the scripts that are the words after the program's name, and prints of each how many
/// rows it has, and how many of them answered otherwise than it says.
pub fn play_all<R: Env + Files + Print + AllocGlobal, C: Carries>(
    rt: &R,
    carries: &mut C,
) -> io::Result<()> {
    for name in env::args(rt)?.skip(1) {
        let script = fs::read_to_string(rt, name.as_str())?;
        let tally = play(rt, carries, script.as_str())?;
        let rows = tally.rows;
        let wrong = tally.wrong;
        println!(rt; "{name}: {rows} rows, {wrong} wrong")?;
    }
    Ok(())
}
