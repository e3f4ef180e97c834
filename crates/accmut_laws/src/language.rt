//! The headline, as laws over the machine of this language and over the answers of `accmut`.
ghost use Rattle.std.specs.Prelude.{◌≡◌, ◌↔◌, ℕ, ◌<◌, Bool, List, length, Option};
ghost use Rattle.std.specs.List.{Contains};
ghost use Rattle.code_form.specs.Variant.{Table, mutants_of};
ghost use Rattle.code_form.specs.declared.case.Case.{Case};
ghost use Rattle.code_form.specs.declared.code.Code.{Code};
ghost use Rattle.traces.specs.Together.{AreTogether, CountsPrefixes};
ghost use Rattle.traces.specs.Trace.{trace};
ghost use Rattle.traces.specs.Work.{steps};
ghost use Rattle.machine_form.specs.Calls.{Answers};
ghost use Rattle.machine_form.specs.Machine.{case_trial};
ghost use Rattle.command_words.specs.Words.{Text};
ghost use Rattle.command_words.specs.declared.command.Command.TheVariants.{Groups, Run};
ghost use Rattle.command_words.specs.declared.command.Files.{Files};
ghost use Rattle.command_plan.specs.declared.status.Status.TheVariants.{Done};
ghost use Rattle.accmut_app.specs.Call.{Devices, IsAnswerTo};
ghost use Rattle.accmut_app.specs.Commands.{steps_of};
ghost use Rattle.accmut_laws.specs.Classes.{InOne, classes_at, shorter_than};
ghost use Rattle.accmut_laws.specs.Headline.{ReportsRun, ShowsGroups};
ghost use Rattle.accmut_laws.specs.Shares.{IsWhole, Share};

use commands::groups_are_classes;

/// The headline, of what `accmut` answers. `run`: where `run` is Done, the three files are accepted
/// and what was written is a report, in which each letter is the verdict on the run of the mutant by
/// itself within the same budget, against what the test states or mutant 0's outcome; the steps of
/// each test are as many as the different nonempty prefixes of the mutants' traces, and the meter
/// rose by their sum; and the splits are the classes that divide. `groups`: where `groups` is Done,
/// what was written is the text of the classes of the mutants at the step of the test.
pub fn headline()
    ensures run { (before after : Devices) (names : Files Text) (budget : Option ℕ) (order : Option Text) (with_splits : Bool)
        → IsAnswerTo (Run names budget order with_splits) before after Done → ReportsRun before after names (steps_of budget) with_splits }
    ensures groups { (before after : Devices) (names : Files Text) (test step : ℕ) (budget : Option ℕ) (order : Option Text)
        → IsAnswerTo (Groups names test step budget order) before after Done → ShowsGroups before after names (steps_of budget) test step }
{
    groups_are_classes();
}

/// The steps of a case are as many as the different nonempty prefixes of the mutants' traces.
pub fn steps_are_prefixes()
    ensures { (code : Code) (table : Table) (answers : Answers) (case : Case)
        → CountsPrefixes (case_trial code table answers case) (steps (case_trial code table answers case)) }
{}

/// Two mutants share an execution at a step exactly where all their changes up to it are equal. A run
/// is any list of turns, so whatever a picker picks; `exactly` is of a run after which no execution
/// is live, which each case has (`whole`), and `always` of any part of one.
pub fn shared()
    ensures exactly { (code : Code) (table : Table) (answers : Answers) (case : Case) (turns : List ℕ) (m k n : ℕ)
        → m < mutants_of table → k < mutants_of table → IsWhole (case_trial code table answers case) turns
        → Share (case_trial code table answers case) turns m k n ↔ AreTogether (case_trial code table answers case) m k n }
    ensures always { (code : Code) (table : Table) (answers : Answers) (case : Case) (turns : List ℕ) (m k n : ℕ)
        → m < mutants_of table → Share (case_trial code table answers case) turns m k n → AreTogether (case_trial code table answers case) m k n }
    ensures whole { (code : Code) (table : Table) (answers : Answers) (case : Case) → 0 < mutants_of table
        → (turns : List ℕ) × IsWhole (case_trial code table answers case) turns }
{}

/// The classes at a step, of which `groups` writes a line each: two mutants are in one of them
/// exactly where their changes up to the step are equal, and a mutant is in none, but among those of
/// shorter traces, exactly where its trace has fewer changes.
pub fn classes_at_a_step()
    ensures one { (code : Code) (table : Table) (answers : Answers) (case : Case) (n m k : ℕ) → m < mutants_of table → k < mutants_of table
        → InOne (classes_at (case_trial code table answers case) n) m k ↔ AreTogether (case_trial code table answers case) m k n }
    ensures short { (code : Code) (table : Table) (answers : Answers) (case : Case) (n m : ℕ) → m < mutants_of table
        → Contains (shorter_than (case_trial code table answers case) n) m ↔ (length (trace (case_trial code table answers case) m) < n) }
{}
