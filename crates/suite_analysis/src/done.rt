//! One test after another.

ghost use Rattle.std.specs.Prelude.{◌≡◌, ◌<◌, ◌^◌, ◌-◌, List, [], ◌∷◌, ◌++◌, length, IfOk, OnOk};
ghost use Rattle.std.specs.List.{All};
ghost use Rattle.code_form.specs.Variant.{mutants_of};
ghost use Rattle.machine_form.specs.Calls.{Answers};
ghost use Rattle.flat_analysis.specs.Ended.{IsAnalysis};
ghost use Rattle.suite_analysis.specs.Parts.{AreDone};
ghost use Rattle.suite_analysis.specs.Runs.{trial_on};

use crate::letters::letters_of;
use am_base::OutOfMemory;
use am_lists::Items;
use code_form::{Code, Variants};
use exec_core::{Split, Work};
use flat_analysis::CaseAnalysis;
use kill_matrix::Matrix;
use std::alloc::Global;
use test_suite::Test;

/// What the analyses of tests gave, test by test.
#[derive(Debug, Drop)]
pub struct Done {
    pub matrix: Matrix,
    pub works: Vec<Work>,
    pub splits: Vec<Items<Split>>,
}

/// No test.
pub(crate) fn no_tests(alloc: Global, code: &Code, variants: &Variants) -> Result<Done, OutOfMemory>
    ensures { IfOk result (λ done. (answers : Answers) → AreDone code.now variants.now answers [] done) }
{
    let _code = code;
    Ok(Done {
        matrix: Matrix::new(alloc, variants.mutants())?,
        works: Vec::new(alloc),
        splits: Vec::new(alloc),
    })
}

/// Adds what the analysis of a test gave.
pub(crate) fn add(
    alloc: Global,
    code: &Code,
    variants: &Variants,
    done: &mut Done,
    test: &Test,
    analysis: CaseAnalysis,
) -> Result<(), OutOfMemory>
    requires mutants { done.old.matrix.mutants ≡ mutants_of variants.now }
    requires few { length done.old.matrix.tests < 2 ^ 32 - 1 }
    requires count { length analysis.class_of ≡ mutants_of variants.now }
    requires within { All (λ n. n < length analysis.classes) analysis.class_of }
    ensures { OnOk result ((answers : Answers) → IsAnalysis (trial_on code.now variants.now answers test.now) analysis
        → (tests : List Test) → AreDone code.now variants.now answers tests done.old → AreDone code.now variants.now answers (tests ++ test.now ∷ []) done.new) }
{
    let _code = code;
    let _mutants = variants.mutants();
    let letters = letters_of(alloc, test, &analysis)?;
    done.matrix.add(alloc, letters.as_slice())?;
    done.works.push(analysis.work)?;
    done.splits.push(analysis.splits)?;
    Ok(())
}
