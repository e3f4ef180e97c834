//! Tries commands that scripts tell: their files are in memory, and what is written, the status,
//! the steps and the asks are compared with what the script says. The words after the program's
//! name are scripts.
//!
//! Before the words of a command may stand `fails=N`, by which the call of the shelf with this
//! number fails, `room=N`, by which the sink has room for so many bytes (else 200,000) and fails
//! behind them, and `silent`, by which the port `abs` answers nothing. A row is compared with the
//! text of the command, and a line `= STATUS STEPS ASKS`: the number of the status, the steps that
//! the meter shows, and how often the port `abs` was asked. Behind a text that ends within a line
//! stand `\` and a line break, and a text of more than 4,096 bytes is shown by its lines and bytes.
#![tactic(auto)]

mod call;
mod counted;
mod devices;
mod shown;

use call::Commands;
use row_scripts::play_all;
use std::io;

fn main(rt: HostRuntime) -> io::Result<()> {
    play_all(&rt, &mut Commands)
}
