//! The laws of the plans. Each is a function without a body whose clauses are the law.
ghost use Rattle.std.specs.Prelude.{◌≡◌, Bool, List, [], ◌∷◌, ℕ};
ghost use Rattle.am_base.specs.Cause.{Rose};
ghost use Rattle.am_base.specs.Files.{Files};
ghost use Rattle.code_form.specs.declared.code.Code.{Code};
ghost use Rattle.code_form.specs.Variant.{Table};
ghost use Rattle.code_form.specs.declared.sign.PortSign.{PortSign};
ghost use Rattle.machine_form.specs.Calls.{Answers};
ghost use Rattle.flat_analysis.specs.Ended.{AreEnded};
ghost use Rattle.flat_analysis.specs.declared.ended.Ended.{Ended};
ghost use Rattle.ir_tokens.specs.Bytes.{Text};
ghost use Rattle.mutant_records.specs.declared.list.Made.{Made};
ghost use Rattle.test_suite.specs.declared.suite.Suite.{Suite};
ghost use Rattle.test_suite.specs.declared.suite.Test.{Test};
ghost use Rattle.suite_analysis.specs.declared.show.Show.{Show};
ghost use Rattle.command_plan.specs.Ends.{Ends, Fault};
ghost use Rattle.command_plan.specs.Plan.{Counts};
ghost use Rattle.command_plan.specs.Sharp.{AreNames, IsSharp};
ghost use Rattle.commands.specs.Alone.{IsRunRise, IsRunText, trial_on};
ghost use Rattle.commands.specs.Groups.{AreClassesAt, AreGroups, IsGroupsRise, cut_trial};
ghost use Rattle.commands.specs.Plans.{alone_plan, check_plan, groups_plan, load_plan, make_plan, run_plan};
ghost use Rattle.commands.specs.Run.{IsReportRise, IsReportText};
ghost use Rattle.commands.specs.declared.wanted.Point.{Point};
ghost use Rattle.commands.specs.declared.wanted.Wanted.{Wanted};

use flat_analysis::groups;

/// Over the same files a command ends in one way: no file is refused with two lines, refused and
/// accepted, or accepted as two things.
pub fn sharp_plans()
    ensures check { (signs : List PortSign) (name : Text) → IsSharp (check_plan signs name) }
    ensures make { (signs : List PortSign) (name : Text) → IsSharp (make_plan signs name) }
    ensures run { (signs : List PortSign) (answers : Answers) (budget : ℕ) (name mutants tests : Text) (show : Show)
        → IsSharp (run_plan signs answers budget name mutants tests show) }
    ensures alone { (signs : List PortSign) (answers : Answers) (budget : ℕ) (name mutants tests : Text) (wanted : Wanted)
        → IsSharp (alone_plan signs answers budget name mutants tests wanted) }
    ensures groups { (signs : List PortSign) (answers : Answers) (budget : ℕ) (name mutants tests : Text) (point : Point)
        → IsSharp (groups_plan signs answers budget name mutants tests point) }
    ensures load { (number : ℕ) → IsSharp (load_plan number) }
{}

/// A command reads the files alone that its words name.
pub fn named_plans()
    ensures check { (signs : List PortSign) (name : Text) → AreNames (name ∷ []) (check_plan signs name) }
    ensures make { (signs : List PortSign) (name : Text) → AreNames (name ∷ []) (make_plan signs name) }
    ensures run { (signs : List PortSign) (answers : Answers) (budget : ℕ) (name mutants tests : Text) (show : Show)
        → AreNames (name ∷ mutants ∷ tests ∷ []) (run_plan signs answers budget name mutants tests show) }
    ensures alone { (signs : List PortSign) (answers : Answers) (budget : ℕ) (name mutants tests : Text) (wanted : Wanted)
        → AreNames (name ∷ mutants ∷ tests ∷ []) (alone_plan signs answers budget name mutants tests wanted) }
    ensures groups { (signs : List PortSign) (answers : Answers) (budget : ℕ) (name mutants tests : Text) (point : Point)
        → AreNames (name ∷ mutants ∷ tests ∷ []) (groups_plan signs answers budget name mutants tests point) }
    ensures load { (number : ℕ) → AreNames [] (load_plan number) }
{}

/// `load` never ends with a file that can't be read.
pub fn load_has_no_read_fault()
    ensures { (files : Files) (before after : List ℕ → ℕ) (number : ℕ)
        → ¬ (Ends files (λ name. Rose (before name) (after name)) (load_plan number) Fault) }
{}

/// The run of a mutant by itself on a test has one text, and the counts rise by one number each.
pub fn one_run()
    ensures text { (code : Code) (all : List Made) (answers : Answers) (mutant : ℕ) (test : Test) (text other : List ℕ)
        → IsRunText code all answers mutant test text → IsRunText code all answers mutant test other → text ≡ other }
    ensures rise { (code : Code) (all : List Made) (answers : Answers) (mutant : ℕ) (test : Test) (counts other : Counts)
        → IsRunRise code all answers mutant test counts → IsRunRise code all answers mutant test other → counts ≡ other }
{}

/// What is shown of the report of a suite is one text, and the counts rise by one number each.
pub fn one_report()
    ensures text { (code : Code) (all : List Made) (answers : Answers) (show : Show) (suite : Suite) (text other : List ℕ)
        → IsReportText code all answers show suite text → IsReportText code all answers show suite other → text ≡ other }
    ensures rise { (code : Code) (all : List Made) (answers : Answers) (suite : Suite) (counts other : Counts)
        → IsReportRise code all answers suite counts → IsReportRise code all answers suite other → counts ≡ other }
{}

/// The groups at a step of a test are one text, and the counts rise by one number each.
pub fn one_grouping()
    ensures text { (code : Code) (all : List Made) (answers : Answers) (step : ℕ) (test : Test) (text other : List ℕ)
        → AreGroups code all answers step test text → AreGroups code all answers step test other → text ≡ other }
    ensures rise { (code : Code) (all : List Made) (answers : Answers) (step : ℕ) (test : Test) (counts other : Counts)
        → IsGroupsRise code all answers step test counts → IsGroupsRise code all answers step test other → counts ≡ other }
{}

/// The classes that `groups` shows are those of the mutants at the step, also where it is 0 or above
/// the budget of the test.
pub fn groups_are_classes()
    ensures { (code : Code) (table : Table) (answers : Answers) (test : Test) (step : ℕ) (classes : List Ended)
        → AreEnded (cut_trial code table answers test step) classes → AreClassesAt (trial_on code table answers test) step classes }
{
    groups();
}
