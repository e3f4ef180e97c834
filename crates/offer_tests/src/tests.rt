//! A picker of the caller's own, which keeps a number of all that it was offered.

use accmut_app::accmut;
use am_base::{MemoryShelf, MemorySink, OutOfMemory};
use exec_core::Meter;
use picker::{DepthFirst, Offer, Picker};
use ports::Port;
use std::alloc::{AllocError, Global};
use std::cell::Cell;
use std::rc::Rc;
use std::test::Fail;

const MODULE: &str = "define i32 @f(i32 %a, i32 %b) {
  %c = add i32 %a, %b
  %d = icmp sgt i32 %c, 10
  %e = select i1 %d, i32 1, i32 0
  ret i32 %e
}
";

const LIST: &str = "function;instruction;replacement
f;1;sub i32 %a, %b
f;2;icmp sge i32 %c, 10
f;1;mul i32 %a, %b
";

const SUITE: &str = "name;function;arguments;input;budget;expected
t1;f;2 2;;;
";

/// A picker of the name `told`. Three digits of its number are one pick: the first offer's step,
/// how many executions are live, and the first offer's members.
#[derive(Drop)]
struct Told {
    number: Rc<Cell<u64>>,
}

impl Picker for Told {
    ghost use Rattle.std.specs.Prelude.{codes, ◌≡◌};

    ghost named = { λ picker. codes "told" };

    ghost picks = { λ picker live at. at ≡ 0 };

    fn name(&self) -> &str {
        "told"
    }

    fn pick(&mut self, live: &[Offer]) -> usize {
        if let Some(first) = live.first() {
            let so_far = self.number.get().wrapping_mul(1_000);
            let step = first.step.wrapping_mul(100);
            let count = (live.len() as u64).wrapping_mul(10);
            let number = so_far.wrapping_add(step).wrapping_add(count);
            self.number
                .set(number.wrapping_add(u64::from(first.members)));
        }
        0
    }
}

fn words_of(alloc: Global, words: &[&str]) -> Result<Vec<String>, AllocError> {
    let mut out = Vec::new(alloc);
    for word in words {
        out.push(String::from_str(alloc, word)?)?;
    }
    Ok(out)
}

fn shelf_of(alloc: Global, files: &[(&str, &str)]) -> Result<MemoryShelf, AllocError> {
    let mut held = Vec::new(alloc);
    for (name, text) in files {
        let name = String::from_str(alloc, name)?;
        held.push((name, Vec::from_slice(alloc, text.as_bytes())?))?;
    }
    Ok(MemoryShelf::new(held, Vec::new(alloc)))
}

/// The numbers of two pickers of one name after `run` over the three files, where a picker of
/// another name is the first.
fn numbers_after(alloc: Global) -> Result<(u64, u64), OutOfMemory> {
    let number = Rc::new(alloc, Cell::new(0u64))?;
    let told: Box<dyn Picker> = Box::new(
        alloc,
        Told {
            number: number.clone()?,
        },
    )?;
    let behind = Rc::new(alloc, Cell::new(0u64))?;
    let other: Box<dyn Picker> = Box::new(
        alloc,
        Told {
            number: behind.clone()?,
        },
    )?;
    let depth: Box<dyn Picker> = Box::new(alloc, DepthFirst::new())?;
    let words = words_of(alloc, &["run", "m", "l", "t", "--order", "told"])?;
    let files = [("m", MODULE), ("l", LIST), ("t", SUITE)];
    let mut shelf = shelf_of(alloc, &files)?;
    let mut sink = MemorySink::new(alloc, 200, None)?;
    let mut ports: Vec<Box<dyn Port>> = Vec::new(alloc);
    let mut meter = Meter::new();
    let _ = accmut(
        alloc,
        words.as_slice(),
        &mut shelf,
        &mut sink,
        vec![in alloc; depth, told, other]?,
        &mut ports,
        &mut meter,
    );
    Ok((number.get(), behind.get()))
}

/// Seven picks: all four mutants at the start; then mutants 0, 2 and 3 at the steps 1, 2 and 3,
/// with two executions live; then mutant 1 alone. The second picker of the name is never asked.
#[test]
fn is_offered_the_tree_of_splits(rt: HostRuntime) -> Result<(), Fail> {
    let (first, second) = numbers_after(rt.alloc())?;
    assert_eq!(rt; first, 14_123_223_323_111_211_311);
    assert_eq!(rt; second, 0);
    Ok(())
}
