//! One command, carried out over files in memory.

ghost use Rattle.std.specs.Prelude.{◌≡◌};

use crate::counted::Counted;
use crate::devices::Devices;
use crate::shown::show_text;
use accmut_app::accmut;
use am_base::{MemoryShelf, MemorySink, OutOfMemory};
use exec_core::Meter;
use picker::{BreadthFirst, DepthFirst, Picker, SmallestFirst};
use ports::{Abs, IsDigit, IsSpace, Labs, Port};
use row_scripts::Carries;
use std::alloc::{AllocError, Global};
use std::cell::Cell;
use std::rc::Rc;

/// Carries out words over a shelf, and writes into a sink. It returns the number of the status and
/// the steps that were metered.
fn called(
    alloc: Global,
    words: &[String],
    shelf: &mut MemoryShelf,
    sink: &mut MemorySink,
    counted: Counted,
) -> Result<(u8, u64), OutOfMemory>
    requires { counted.abs ≡ 0 }
{
    let depth: Box<dyn Picker> = Box::new(alloc, DepthFirst::new())?;
    let breadth: Box<dyn Picker> = Box::new(alloc, BreadthFirst::new())?;
    let smallest: Box<dyn Picker> = Box::new(alloc, SmallestFirst::new())?;
    let pickers = vec![in alloc; depth, breadth, smallest]?;
    let abs: Box<dyn Port> = Box::new(alloc, counted)?;
    let labs: Box<dyn Port> = Box::new(alloc, Labs::new(alloc)?)?;
    let is_digit: Box<dyn Port> = Box::new(alloc, IsDigit::new(alloc)?)?;
    let is_space: Box<dyn Port> = Box::new(alloc, IsSpace::new(alloc)?)?;
    let mut ports = vec![in alloc; abs, labs, is_digit, is_space]?;
    let mut meter = Meter::new();
    let status = accmut(alloc, words, shelf, sink, pickers, &mut ports, &mut meter);
    Ok((status.number(), meter.steps()))
}

/// Carries out words over files, and appends how they ended to what was written.
fn carried(
    alloc: Global,
    devices: &Devices,
    words: &[String],
    files: &[(String, Vec<u8>)],
    shown: &mut String,
) -> Result<Vec<u8>, OutOfMemory> {
    let mut shelf = devices.shelf(alloc, words, files)?;
    let mut sink = devices.sink(alloc)?;
    let asked = Rc::new(alloc, Cell::new(0u64))?;
    let counted = Counted {
        abs: Abs::new(alloc)?,
        is_silent: devices.is_silent,
        asked: asked.clone()?,
    };
    let (status, steps) = called(alloc, words, &mut shelf, &mut sink, counted)?;
    show_text(shown, sink.written())?;
    let asks = asked.get();
    writeln!(shown, "= {status} {steps} {asks}")?;
    Ok(Vec::from_slice(alloc, sink.written())?)
}

/// The commands of the program.
#[derive(Drop)]
pub struct Commands;

impl Carries for Commands {
    fn carry_out(
        &mut self,
        alloc: Global,
        words: &[&str],
        files: &[(String, Vec<u8>)],
        shown: &mut String,
    ) -> Result<Vec<u8>, AllocError> {
        let mut devices = Devices::new(alloc);
        let mut command = Vec::new(alloc);
        for word in words {
            if !devices.take(word)? {
                command.push(String::from_str(alloc, word)?)?;
            }
        }
        carried(alloc, &devices, command.as_slice(), files, shown).map_err(|_| AllocError)
    }
}
