//! The engine over the toy machine.
ghost use Rattle.std.specs.Prelude.{◌≡◌, ℕ, ◌≤◌, length, nat_eq, IfOk};
ghost use Rattle.std.specs.List.{All, IsDistinct};
ghost use Rattle.code_form.specs.Variant.{mutants_of, chosen_by};
ghost use Rattle.exec_core.specs.Analysed.{class_numbers};

use crate::tape::{Tape, TapeState};
use am_base::OutOfMemory;
use am_lists::Items;
use code_form::{Code, Instr, Operand, Place, Variants};
use exec_core::{Analysis, Class, Machine, Meter, Split, Toy, Work, analyse};
use member_sets::Members;
use picker::{BreadthFirst, DepthFirst, Listed, Offer, Picker, SmallestFirst};
use std::alloc::Global;
use std::test::Fail;

/// `freeze` of a word.
pub fn freeze(word: u64) -> Instr {
    Instr::Freeze(Operand::Word(word))
}

/// A code of that many equal instructions.
pub fn plain_code(alloc: Global, len: usize) -> Result<Code, OutOfMemory>
    ensures { IfOk result (λ code. length code.instrs ≡ len) }
{
    let mut instrs = Vec::with_capacity(alloc, len)?;
    for _at in 0..len {
        instrs.push(freeze(0))?;
    }
    Ok(Code {
        funcs: Items::new(alloc),
        instrs: Items::from_vec(instrs),
        results: Items::new(alloc),
        memory: Items::new(alloc),
        const_end: 1024,
        stack_base: 1024,
        signs: Items::new(alloc),
    })
}

/// Five mutants: mutant 1 has a replacement at place 0, mutant 2 at place 1, and mutants 3 and 4 have the same one at place 2.
fn five_mutants(alloc: Global, code: &Code) -> Result<Variants, OutOfMemory>
    requires { length code.now.instrs ≡ 3 }
{
    let mut table = Variants::new(alloc, 5)?;
    table.add(alloc, code, 1, Place(0), freeze(8))?;
    table.add(alloc, code, 2, Place(1), freeze(8))?;
    table.add(alloc, code, 3, Place(2), freeze(9))?;
    table.add(alloc, code, 4, Place(2), freeze(9))?;
    Ok(table)
}

/// A thousand mutants: each from 1 on has a replacement at the place with its number.
fn thousand_mutants(alloc: Global, code: &Code) -> Result<Variants, OutOfMemory>
    requires { length code.now.instrs ≡ 1000 }
{
    let mut table = Variants::new(alloc, 1000)?;
    for m in 1..1000u32 {
        table.add(alloc, code, m, Place(m), freeze(8))?;
    }
    Ok(table)
}

/// 1,002 mutants: each seven from 1 on have replacements of their own at one of 143 places.
fn seven_a_place(alloc: Global, code: &Code) -> Result<Variants, OutOfMemory>
    requires { length code.now.instrs ≡ 143 }
{
    let mut table = Variants::new(alloc, 1002)?;
    for m in 1..1002u32 {
        let word = 8 + u64::from((m - 1) % 7);
        table.add(alloc, code, m, Place((m - 1) / 7), freeze(word))?;
    }
    Ok(table)
}

/// So many gains: 8 at the places before the late ones, 1 at the others.
fn late_gains(alloc: Global, len: u32, late: u32) -> Result<Vec<u64>, OutOfMemory>
    ensures len { IfOk result (λ gains. length gains.items ≡ len) }
    ensures small { IfOk result (λ gains. All (λ gain. gain ≤ 1000000) gains.items) }
{
    let mut gains = Vec::with_capacity(alloc, len as usize)?;
    for place in 0..len {
        gains.push(if place < late { 8 } else { 1 })?;
    }
    Ok(gains)
}

/// Keeps the members and the length of a class, as far as there is memory.
fn keep(kept: &mut Vec<(Members, u64)>, members: Members, length: u64) {
    let _ = kept.push((members, length));
}

/// Releases the states of the classes, and keeps their members and lengths, from the last class to the first.
fn release_all<M: Machine>(
    machine: &mut M,
    classes: Items<Class<M::State>>,
    kept: &mut Vec<(Members, u64)>,
)
    requires out { All (λ c. M.view.is_out machine.old c.state) classes }
    requires distinct { IsDistinct nat_eq (class_numbers M.view classes) }
{
    let mut rest = classes.into_vec();
    while let Some(class) = rest.pop() {
        let Class {
            state,
            members,
            length,
        } = class;
        machine.release(state);
        keep(kept, members, length);
    }
    rest.destroy_empty();
}

/// What an analysis of the toy machine came to.
#[derive(Drop)]
struct Trial {
    classes: Vec<(Members, u64)>,
    splits: Items<Split>,
    work: Work,
    tried: u64,
    applied: u64,
    weighed: u64,
    asked: u64,
    metered: u64,
}

/// Runs the toy machine with these gains.
fn run_toy(
    alloc: Global,
    gains: Vec<u64>,
    table: &Variants,
    budget: u64,
    picker: &mut Box<dyn Picker>,
) -> Result<Trial, OutOfMemory>
    requires some { 1 ≤ length gains.items }
    requires few { length gains.items ≤ 1000 }
    requires small { All (λ gain. gain ≤ 1000000) gains.items }
    requires budget { budget ≤ 10000000 }
{
    let mut toy = Toy::new(alloc, gains)?;
    let start = toy.start(alloc)?;
    let mut meter = Meter::new();
    let analysis = analyse(alloc, &mut toy, table, start, budget, picker, &mut meter)?;
    let Analysis {
        classes,
        splits,
        work,
    } = analysis;
    let mut kept = Vec::new(alloc);
    release_all(&mut toy, classes, &mut kept);
    kept.reverse();
    Ok(Trial {
        classes: kept,
        splits,
        work,
        tried: toy.tried(),
        applied: toy.applied(),
        weighed: toy.weighed(),
        asked: toy.asked(),
        metered: meter.steps(),
    })
}

/// Three mutants: mutant 1 has a replacement at place 0, mutant 2 at place 2.
fn three_mutants(alloc: Global, code: &Code) -> Result<Variants, OutOfMemory>
    requires { length code.now.instrs ≡ 3 }
{
    let mut table = Variants::new(alloc, 3)?;
    table.add(alloc, code, 1, Place(0), freeze(8))?;
    table.add(alloc, code, 2, Place(2), freeze(8))?;
    Ok(table)
}

/// What the state of each class has written.
fn written_by(alloc: Global, classes: &[Class<TapeState>]) -> Result<Vec<Vec<u64>>, OutOfMemory> {
    let mut all = Vec::new(alloc);
    for class in classes {
        all.push(class.state.written().to_vec(alloc)?)?;
    }
    Ok(all)
}

/// Runs the machine that writes three numbers, and tells also what each class has written.
fn run_tape(
    alloc: Global,
    table: &Variants,
    picker: &mut Box<dyn Picker>,
) -> Result<(Trial, Vec<Vec<u64>>), OutOfMemory> {
    let mut tape = Tape::new(alloc, 3);
    let start = tape.start(alloc)?;
    let mut meter = Meter::new();
    let analysis = analyse(alloc, &mut tape, table, start, 10, picker, &mut meter)?;
    let Analysis {
        classes,
        splits,
        work,
    } = analysis;
    let written = written_by(alloc, classes.as_slice());
    let mut kept = Vec::new(alloc);
    release_all(&mut tape, classes, &mut kept);
    kept.reverse();
    let trial = Trial {
        classes: kept,
        splits,
        work,
        tried: tape.tried(),
        applied: tape.applied(),
        weighed: 0,
        asked: 0,
        metered: meter.steps(),
    };
    Ok((trial, written?))
}

/// Whether the class at an index has these members, each with a trace of this length.
fn has_class(trial: &Trial, at: usize, numbers: &[u32], length: u64) -> bool {
    match trial.classes.get(at) {
        Some((members, len)) => {
            *len == length
                && members.len() as usize == numbers.len()
                && numbers.iter().all(|m| members.has(*m))
        }
        None => false,
    }
}

/// Whether the state of the class at an index has written these numbers.
fn has_written(written: &[Vec<u64>], at: usize, numbers: &[u64]) -> bool {
    match written.get(at) {
        Some(all) => all.as_slice() == numbers,
        None => false,
    }
}

/// Whether the split at an index has this step and these parts.
fn has_split(trial: &Trial, at: usize, step: u64, parts: &[u32]) -> bool {
    match trial.splits.get(at) {
        Some(split) => split.step == step && split.parts.as_slice() == parts,
        None => false,
    }
}

/// The table of the worked example.
fn example_table(alloc: Global) -> Result<Variants, OutOfMemory> {
    let code = plain_code(alloc, 3)?;
    five_mutants(alloc, &code)
}

/// The worked example: the gains 1, 8, 2 and the five mutants.
fn run_example(
    alloc: Global,
    budget: u64,
    picker: &mut Box<dyn Picker>,
) -> Result<Trial, OutOfMemory>
    requires { budget ≤ 10000000 }
{
    let table = example_table(alloc)?;
    run_toy(alloc, [1, 8, 2].to_vec(alloc)?, &table, budget, picker)
}

fn thousand_table(alloc: Global) -> Result<Variants, OutOfMemory> {
    let code = plain_code(alloc, 1000)?;
    thousand_mutants(alloc, &code)
}

/// 1,000 mutants over 1,000 gains.
fn run_thousand(alloc: Global, picker: &mut Box<dyn Picker>) -> Result<Trial, OutOfMemory> {
    let table = thousand_table(alloc)?;
    run_toy(alloc, late_gains(alloc, 1000, 900)?, &table, 1000, picker)
}

fn seven_table(alloc: Global) -> Result<Variants, OutOfMemory> {
    let code = plain_code(alloc, 143)?;
    seven_a_place(alloc, &code)
}

/// 1,002 mutants over 143 gains of 1.
fn run_seven(alloc: Global, picker: &mut Box<dyn Picker>) -> Result<Trial, OutOfMemory> {
    let table = seven_table(alloc)?;
    run_toy(alloc, late_gains(alloc, 143, 0)?, &table, 1000, picker)
}

/// The numbers of a trial: steps, alone, tries and executions; variants tried, changes applied, their
/// weights and asks; steps metered, classes and splits.
type Numbers = (
    (u64, u64, u64, u64),
    (u64, u64, u64, u64),
    (u64, usize, usize),
);

fn has_numbers(trial: &Trial, want: Numbers) -> bool {
    let work = trial.work;
    (work.steps, work.alone, work.tries, work.executions) == want.0
        && (trial.tried, trial.applied, trial.weighed, trial.asked) == want.1
        && (trial.metered, trial.classes.len(), trial.splits.len()) == want.2
}

/// Whether this is what the worked example comes to within a budget of 3.
fn is_within_three(trial: &Trial) -> bool {
    has_numbers(trial, ((7, 15, 8, 3), (8, 7, 5, 3), (7, 3, 2)))
        && has_class(trial, 0, &[0, 2], 3)
        && has_class(trial, 1, &[1], 3)
        && has_class(trial, 2, &[3, 4], 3)
        && has_split(trial, 0, 0, &[0, 1])
        && has_split(trial, 1, 2, &[0, 3])
}

/// Whether this is what the worked example comes to within a budget of 2.
fn is_within_two(trial: &Trial) -> bool {
    has_numbers(trial, ((4, 10, 5, 2), (5, 4, 2, 2), (4, 2, 1)))
        && has_class(trial, 0, &[0, 2, 3, 4], 2)
        && has_class(trial, 1, &[1], 2)
        && has_split(trial, 0, 0, &[0, 1])
}

/// Whether this is what a thousand mutants come to. A replacement at a place with a gain of 8 makes
/// the change of the original, so mutants 0 to 899 stay together: 1,000 steps. Mutant m from 900 on
/// parts at place m and makes 1,000 - m changes of its own, each of them 1: 5,050 more. At each
/// place from 1 on mutant 0's execution tries two variants, and the others try one a step:
/// 1 + 1,998 + 4,950. Variant 1 is tried 999 times.
fn is_of_thousand(trial: &Trial) -> bool {
    let counts = (6_949, 6_050, 5_050, 999);
    has_numbers(
        trial,
        ((6_050, 1_000_000, 6_949, 101), counts, (6_050, 101, 100)),
    ) && has_class(trial, 1, &[900], 1000)
        && has_class(trial, 100, &[999], 1000)
        && has_split(trial, 0, 900, &[0, 900])
        && has_split(trial, 99, 999, &[0, 999])
}

/// Whether each class has the mutant of its number alone.
fn are_single(trial: &Trial, len: u64) -> bool {
    trial.classes.iter().enumerate().all(|(at, (members, steps))| {
        *steps == len && members.len() == 1 && members.least() as usize == at
    })
}

/// Whether this is what 1,002 mutants come to. Seven mutants of each place p part there from mutant
/// 0, with the changes 1 to 7, and repeat them: 143 - p steps each, 143 + 7 * 10,296 in all, that
/// weigh 28 * 10,296. Mutant 0 tries eight variants at each place, four of them odd, and each other
/// mutant one a step from the next place on: 8 * 143 + 7 * 10,153.
fn is_of_seven(trial: &Trial) -> bool {
    let counts = (72_215, 72_215, 288_288, 572);
    has_numbers(
        trial,
        (
            (72_215, 143_286, 72_215, 1_002),
            counts,
            (72_215, 1_002, 143),
        ),
    ) && are_single(trial, 143)
        && has_split(trial, 0, 0, &[0, 1, 2, 3, 4, 5, 6, 7])
        && has_split(trial, 142, 142, &[0, 995, 996, 997, 998, 999, 1000, 1001])
}

/// Whether this is what the machine comes to that writes three numbers. Mutant 0 writes 0, 0, 0,
/// mutant 1 writes 1, 1, 1, and mutant 2 writes 0, 0, 1. Two variants are tried at the first place
/// and by the execution of 0 and 2 at the last, else one.
fn is_of_tape(trial: &Trial, written: &[Vec<u64>]) -> bool {
    has_numbers(trial, ((7, 9, 7, 3), (7, 7, 0, 0), (7, 3, 2)))
        && has_class(trial, 0, &[0], 3)
        && has_class(trial, 1, &[1], 3)
        && has_class(trial, 2, &[2], 3)
        && has_split(trial, 0, 0, &[0, 1])
        && has_split(trial, 1, 2, &[0, 2])
        && has_written(written, 0, &[0, 0, 0])
        && has_written(written, 1, &[1, 1, 1])
        && has_written(written, 2, &[0, 0, 1])
}

/// A picker that takes the first execution each time. Its name tells whether it was asked five
/// times.
#[derive(Drop)]
struct Asked {
    times: u64,
}

impl Picker for Asked {
    ghost use Rattle.std.specs.Prelude.{codes, ◌≡◌, ◌==◌, if◌then◌else◌};

    ghost named = { λ picker. if picker.times == 5 then codes "five" else codes "other" };

    ghost picks = { λ picker live at. at ≡ 0 };

    fn name(&self) -> &str {
        if self.times == 5 { "five" } else { "other" }
    }

    fn pick(&mut self, _live: &[Offer]) -> usize {
        if self.times < 1000 {
            self.times += 1;
        }
        0
    }
}

/// Whether the worked example comes to what it is to within a budget of 3, by a picker.
fn agrees_within_three(alloc: Global, picker: &mut Box<dyn Picker>) -> Result<bool, OutOfMemory> {
    let trial = run_example(alloc, 3, picker)?;
    Ok(is_within_three(&trial))
}

/// Whether it does by the picks of a list.
fn agrees_by_list(alloc: Global) -> Result<bool, OutOfMemory> {
    let picks = [1, 1, 0, 2].to_vec(alloc)?;
    let mut listed: Box<dyn Picker> = Box::new(alloc, Listed::new(picks))?;
    agrees_within_three(alloc, &mut listed)
}

/// Whether the picker is asked once a turn: one execution at step 0, two at 1, the first again at
/// 2, where its parts end; the other at 1 and 2.
fn is_asked_five_times(alloc: Global) -> Result<bool, OutOfMemory> {
    let mut asked: Box<dyn Picker> = Box::new(alloc, Asked { times: 0 })?;
    let agrees = agrees_within_three(alloc, &mut asked)?;
    Ok(agrees && asked.name() == "five")
}

/// Whether the trials by depth first come to what they are to.
fn agrees_by_depth(alloc: Global, picker: &mut Box<dyn Picker>) -> Result<bool, OutOfMemory> {
    let is_three = agrees_within_three(alloc, picker)?;
    let trial = run_example(alloc, 2, picker)?;
    Ok(is_three && is_within_two(&trial))
}

/// Whether the trial of a thousand mutants comes to what it is to.
fn agrees_on_thousand(alloc: Global, picker: &mut Box<dyn Picker>) -> Result<bool, OutOfMemory> {
    let trial = run_thousand(alloc, picker)?;
    Ok(is_of_thousand(&trial))
}

/// Whether it does breadth first, with the trial of a thousand mutants, and the smallest first.
fn agrees_by_others(alloc: Global) -> Result<bool, OutOfMemory> {
    let mut breadth: Box<dyn Picker> = Box::new(alloc, BreadthFirst::new())?;
    let mut smallest: Box<dyn Picker> = Box::new(alloc, SmallestFirst::new())?;
    let is_first = agrees_within_three(alloc, &mut breadth)?;
    let is_thousand = agrees_on_thousand(alloc, &mut breadth)?;
    Ok(agrees_within_three(alloc, &mut smallest)? && is_first && is_thousand)
}

/// Whether the trial of 1,002 mutants comes to what it is to.
fn agrees_on_seven(alloc: Global, picker: &mut Box<dyn Picker>) -> Result<bool, OutOfMemory> {
    let trial = run_seven(alloc, picker)?;
    Ok(is_of_seven(&trial))
}

fn tape_table(alloc: Global) -> Result<Variants, OutOfMemory> {
    let code = plain_code(alloc, 3)?;
    three_mutants(alloc, &code)
}

/// Whether the trial of states that `apply` pushes onto comes to what it is to.
fn agrees_on_tape(alloc: Global, picker: &mut Box<dyn Picker>) -> Result<bool, OutOfMemory> {
    let table = tape_table(alloc)?;
    let (trial, written) = run_tape(alloc, &table, picker)?;
    Ok(is_of_tape(&trial, written.as_slice()))
}

#[test]
fn five_mutants_in_any_order(rt: HostRuntime) -> Result<(), Fail> {
    assert!(rt; agrees_by_others(rt.alloc())?);
    assert!(rt; agrees_by_list(rt.alloc())?);
    assert!(rt; is_asked_five_times(rt.alloc())?);
    Ok(())
}

#[test]
fn trials_by_order(rt: HostRuntime) -> Result<(), Fail> {
    let mut depth: Box<dyn Picker> = Box::new(rt.alloc(), DepthFirst::new())?;
    let found = [
        agrees_by_depth(rt.alloc(), &mut depth),
        agrees_on_tape(rt.alloc(), &mut depth),
        agrees_on_seven(rt.alloc(), &mut depth),
    ];
    assert_eq!(rt; found, [Ok(true); 3]);
    Ok(())
}
