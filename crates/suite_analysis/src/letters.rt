//! The letters of one test.

ghost use Rattle.std.specs.Prelude.{◌≡◌, ◌<◌, length, map, slice_index_or, unwrap_or, IfOk};
ghost use Rattle.std.specs.List.{All};
ghost use Rattle.kill_matrix.specs.declared.letter.Letter.TheVariants as letter;
ghost use Rattle.machine_form.specs.declared.change.Change.{Change};
ghost use Rattle.machine_form.specs.State.{State};
ghost use Rattle.machine_form.specs.Machine.{outcome_of};
ghost use Rattle.traces.specs.Trace.{Trial};
ghost use Rattle.flat_analysis.specs.Ended.{AreShown};
ghost use Rattle.suite_analysis.specs.Parts.{AreClassVerdicts};
ghost use Rattle.suite_analysis.specs.Runs.{AreVerdicts};

use am_base::{OutOfMemory, Outcome};
use flat_analysis::{CaseAnalysis, Ended};
use kill_matrix::{Letter, verdict};
use std::alloc::Global;
use test_suite::Test;

/// The verdict on each class, against an outcome.
fn class_letters(
    alloc: Global,
    classes: &[Ended],
    expected: &Outcome,
) -> Result<Vec<Letter>, OutOfMemory>
    ensures { IfOk result (λ letters. AreClassVerdicts classes.now expected.now letters.items) }
{
    let mut letters = Vec::new(alloc);
    for class in classes {
        letters.push(verdict(&class.outcome, expected))?;
    }
    Ok(letters)
}

/// The letter of each mutant, by those of the classes.
fn mutant_letters(
    alloc: Global,
    letters: &[Letter],
    class_of: &[u32],
) -> Result<Vec<Letter>, OutOfMemory>
    requires within { All (λ n. n < length letters.now) class_of.now }
    ensures { IfOk result (λ each. each.items ≡ map (λ n. slice_index_or letters.now n letter.Same) class_of.now) }
{
    let mut each = Vec::new(alloc);
    for n in class_of {
        each.push(letters[*n as usize])?;
    }
    Ok(each)
}

/// What a test asks for: the outcome of its record, or that of mutant 0.
fn expected_by<'a>(test: &'a Test, analysis: &'a CaseAnalysis) -> &'a Outcome
    requires some { 0 < length analysis.now.class_of }
    requires within { All (λ n. n < length analysis.now.classes) analysis.now.class_of }
    ensures { (T : Trial State Change) → 0 < T.mutants → AreShown T analysis.now.classes analysis.now.class_of
        → result.now ≡ unwrap_or test.now.expected (outcome_of T 0) }
{
    match &test.expected {
        Some(expected) => expected,
        None => {
            let number = analysis.class_of.as_slice()[0];
            let class = &analysis.classes.as_slice()[number as usize];
            &class.outcome
        }
    }
}

/// The verdict on each mutant's run alone, against what a test asks for.
pub(crate) fn letters_of(
    alloc: Global,
    test: &Test,
    analysis: &CaseAnalysis,
) -> Result<Vec<Letter>, OutOfMemory>
    requires some { 0 < length analysis.now.class_of }
    requires within { All (λ n. n < length analysis.now.classes) analysis.now.class_of }
    ensures count { IfOk result (λ letters. length letters.items ≡ length analysis.now.class_of) }
    ensures verdicts { IfOk result (λ letters. (T : Trial State Change) → 0 < T.mutants → AreShown T analysis.now.classes analysis.now.class_of
        → AreVerdicts T (unwrap_or test.now.expected (outcome_of T 0)) letters.items) }
{
    let expected = expected_by(test, analysis);
    let letters = class_letters(alloc, analysis.classes.as_slice(), expected)?;
    mutant_letters(alloc, letters.as_slice(), analysis.class_of.as_slice())
}
