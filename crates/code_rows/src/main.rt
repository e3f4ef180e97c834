//! Carries out scripts over modules: the code that each has, or its first fault, is compared with
//! what the script says. The words after the program's name are scripts.
//!
//! The words of a row are `code FILE`, and `abs FILE` where the port `abs` is handed in. What is
//! printed of a code are its functions (signature, registers with their types, blocks), its
//! instructions with the registers of their results, its memory from address 1,024 on, where
//! constants end and the stack begins, and its ports.
#![tactic(auto)]

mod call;
mod shown;

use call::Modules;
use row_scripts::play_all;
use std::io;

fn main(rt: HostRuntime) -> io::Result<()> {
    play_all(&rt, &mut Modules)
}
