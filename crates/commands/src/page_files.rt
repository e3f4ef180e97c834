//! `page`: all mutants of a list on all tests of a suite, as a page.

ghost use Rattle.std.specs.Prelude.{◌≡◌, ℕ, ◌≤◌, ◌<◌, ◌^◌, List, length, Err, IfOk, IfErr};
ghost use Rattle.am_base.specs.Cause.{Rose};
ghost use Rattle.am_base.specs.Files.{Files};
ghost use Rattle.code_form.specs.Fit.{FitsTable};
ghost use Rattle.code_form.specs.Sound.{IsSound};
ghost use Rattle.ports.specs.Asks.{answers_in, asked_in};
ghost use Rattle.html_page.specs.Page.{page_text};
ghost use Rattle.instruction_list.specs.Lines as lines;
ghost use Rattle.mutant_records.specs.Tables.{IsListOf};
ghost use Rattle.test_suite.specs.Suite.{FitsSuite};
ghost use Rattle.work_report.specs.Report.{FitsWords, total_of};
ghost use Rattle.command_plan.specs.Answer.{Found};
ghost use Rattle.command_plan.specs.Plan.{Counts};
ghost use Rattle.command_files.specs.FullLists.{FullList};
ghost use Rattle.commands.specs.Alone.{counts_of};
ghost use Rattle.commands.specs.Page as spec;
ghost use Rattle.commands.specs.Page.{ArePageFiles, page_end, page_plan, unread_plan};

use crate::check::zeros;
use am_base::{MAX_BUDGET, MAX_FILE_BYTES, OutOfMemory, Shelf};
use am_lists::{Bytes, Items};
use code_form::PortSign;
use command_files::{Listing, Loaded, load_listing, load_module, load_tests};
use command_plan::Stop;
use exec_core::Meter;
use flat_machine::Ports;
use html_page::{Listed, page};
use instruction_list::lines_of;
use mutant_list::MutantRow;
use picker::Picker;
use std::alloc::Global;
use suite_analysis::{Done, analyse_suite};
use test_suite::Suite;

/// What a page is made from, each of which was accepted.
#[derive(Drop)]
pub struct PageFiles {
    pub m: Loaded,
    pub listing: Listing,
    pub suite: Suite,
}

/// Reads the files of these names, each of which is judged whole before the next is read.
fn load_page_files<F: Shelf>(
    alloc: Global,
    shelf: &mut F,
    module_name: &str,
    mutants: &str,
    tests: &str,
    budget: u64,
    signs: &[PortSign],
) -> Result<PageFiles, Stop>
    requires some { 1 ≤ budget }
    requires few_steps { budget ≤ MAX_BUDGET }
    requires few_signs { length signs.now < 2 ^ 32 }
    ensures read { IfOk result (λ s. ArePageFiles (F.files shelf.old) signs.now budget module_name.now mutants.now tests.now s.m s.listing s.suite) }
    ensures sound { IfOk result (λ s. IsSound s.m.code) }
    ensures signs { IfOk result (λ s. s.m.code.signs ≡ signs.now) }
    ensures table { IfOk result (λ s. FitsTable s.m.code s.listing.list.variants) }
    ensures suite { IfOk result (λ s. FitsSuite s.m.code s.suite) }
    ensures err { IfErr result (λ stop. (counts : Counts) →
        Found (F.files shelf.old) (λ name. Rose (F.faults shelf.old name) (F.faults shelf.new name))
        (unread_plan signs.now budget module_name.now mutants.now tests.now) counts counts (Err stop)) }
    ensures kept { F.files shelf.new ≡ F.files shelf.old }
    ensures counts { (other : List ℕ) → F.faults shelf.old other ≤ F.faults shelf.new other }
{
    let Ok(mut buffer) = zeros(alloc, MAX_FILE_BYTES + 1) else {
        return Err(Stop::OutOfMemory);
    };
    let m = match load_module(alloc, shelf, module_name, &mut buffer, signs) {
        Ok(m) => m,
        Err(stop) => return Err(stop),
    };
    let listing = match load_listing(alloc, shelf, mutants, &mut buffer, &m, signs) {
        Ok(listing) => listing,
        Err(stop) => return Err(stop),
    };
    match load_tests(alloc, shelf, tests, &mut buffer, &m.code, budget) {
        Ok(suite) => Ok(PageFiles { m, listing, suite }),
        Err(stop) => Err(stop),
    }
}

/// A replacement with its text.
fn listed_at(
    alloc: Global,
    row: &MutantRow,
    texts: &[Bytes],
    k: usize,
) -> Result<Listed, OutOfMemory>
    ensures { IfOk result (λ listed. listed ≡ spec.listed_at row.now texts.now k) }
{
    let text = match texts.get(k) {
        Some(text) => text.copy(alloc)?,
        None => Bytes::new(alloc),
    };
    Ok(Listed {
        mutant: row.mutant,
        place: row.place.0,
        text,
    })
}

/// The replacements with their texts.
fn listed_of(
    alloc: Global,
    rows: &[MutantRow],
    texts: &[Bytes],
) -> Result<Items<Listed>, OutOfMemory>
    ensures { IfOk result (λ all. all ≡ spec.listed_from rows.now texts.now 0) }
{
    let mut all = Items::new(alloc);
    'each: for (k, row) in rows.iter().enumerate() {
        all.push(listed_at(alloc, row, texts, k)?)?;
    }
    Ok(all)
}

/// The page of what was found.
fn page_of(alloc: Global, s: &PageFiles, done: &Done) -> Result<Bytes, OutOfMemory>
    requires sums { FitsWords (total_of done.now.works.items) }
    ensures { IfOk result (λ text. text ≡ page_text s.now.suite done.now.matrix done.now.works.items
        (lines.lines_of s.now.m.module.items) (spec.listed_from s.now.listing.list.rows s.now.listing.texts 0)) }
{
    let lines = lines_of(alloc, s.m.module.items.as_slice())?;
    let rows = s.listing.list.rows.as_slice();
    let all = listed_of(alloc, rows, s.listing.texts.as_slice())?;
    page(
        alloc,
        &s.suite,
        &done.matrix,
        done.works.as_slice(),
        lines.as_slice(),
        all.as_slice(),
    )
}

/// The page, where the files are accepted, or why there is none.
fn page_wanted<P: Ports>(
    alloc: Global,
    s: &PageFiles,
    ports: P,
    picker: &mut Box<dyn Picker>,
    meter: &mut Meter,
) -> (P, Result<Bytes, Stop>)
    requires sound { IsSound s.now.m.code }
    requires table { FitsTable s.now.m.code s.now.listing.list.variants }
    requires suite { FitsSuite s.now.m.code s.now.suite }
    requires signs { (P.outside ports).signs ≡ s.now.m.code.signs }
    requires few { (p : ℕ) → asked_in (P.outside ports).asked p ≤ 2 ^ 62 }
    requires room { meter.old ≤ 2 ^ 62 }
    ensures found { (files : Files) (full : FullList) → IsListOf s.now.m.code full.all s.now.listing.list → s.now.listing.texts ≡ full.texts →
        Found files (λ name. ⊥) (page_end (answers_in (P.outside ports).answers) s.now.m full s.now.suite)
        (counts_of meter.old (asked_in (P.outside ports).asked)) (counts_of meter.new (asked_in (P.outside result.0).asked)) result.1 }
    ensures signs { (P.outside result.0).signs ≡ (P.outside ports).signs }
    ensures answers { (P.outside result.0).answers ≡ (P.outside ports).answers }
{
    let code = &s.m.code;
    let variants = &s.listing.list.variants;
    let (ports, done) = analyse_suite(alloc, code, variants, &s.suite, ports, picker, meter);
    match done {
        Err(OutOfMemory) => (ports, Err(Stop::OutOfMemory)),
        Ok(done) => match page_of(alloc, s, &done) {
            Ok(text) => (ports, Ok(text)),
            Err(OutOfMemory) => (ports, Err(Stop::OutOfMemory)),
        },
    }
}

/// The page over the three files of these names, or why there is none. Each file is judged whole
/// before the next is read. A test that states no budget gets this one, from 1 to `MAX_BUDGET`.
/// `signs` are those of the ports, which it gives back, whatever it answers.
pub fn page_found<F: Shelf, P: Ports>(
    alloc: Global,
    shelf: &mut F,
    module_name: &str,
    mutants: &str,
    tests: &str,
    budget: u64,
    signs: &[PortSign],
    ports: P,
    picker: &mut Box<dyn Picker>,
    meter: &mut Meter,
) -> (P, Result<Bytes, Stop>)
    requires some { 1 ≤ budget }
    requires few_steps { budget ≤ MAX_BUDGET }
    requires few_signs { length signs.now < 2 ^ 32 }
    requires signs { (P.outside ports).signs ≡ signs.now }
    requires few { (p : ℕ) → asked_in (P.outside ports).asked p ≤ 2 ^ 62 }
    requires room { meter.old ≤ 2 ^ 62 }
    ensures found { Found (F.files shelf.old) (λ name. Rose (F.faults shelf.old name) (F.faults shelf.new name))
        (page_plan signs.now (answers_in (P.outside ports).answers) budget module_name.now mutants.now tests.now)
        (counts_of meter.old (asked_in (P.outside ports).asked)) (counts_of meter.new (asked_in (P.outside result.0).asked)) result.1 }
    ensures signs { (P.outside result.0).signs ≡ (P.outside ports).signs }
    ensures answers { (P.outside result.0).answers ≡ (P.outside ports).answers }
    ensures kept { F.files shelf.new ≡ F.files shelf.old }
    ensures counts { (other : List ℕ) → F.faults shelf.old other ≤ F.faults shelf.new other }
{
    match load_page_files(alloc, shelf, module_name, mutants, tests, budget, signs) {
        Err(stop) => (ports, Err(stop)),
        Ok(files) => page_wanted(alloc, &files, ports, picker, meter),
    }
}
