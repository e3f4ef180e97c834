//! What follows from what `accmut` answers: which status is due, and that the same is written again.
ghost use Rattle.std.specs.Prelude.{◌≡◌, ◌⊎◌, ℕ, List, None, Option, Some};
ghost use Rattle.std.specs.List.{Contains};
ghost use Rattle.am_base.specs.Text.{appended};
ghost use Rattle.code_form.specs.declared.sign.PortSign.{PortSign};
ghost use Rattle.mutant_records.specs.Tables.{IsListOf};
ghost use Rattle.mutant_records.specs.declared.list.Made.{Made};
ghost use Rattle.mutant_records.specs.declared.list.MutantList.{MutantList};
ghost use Rattle.command_files.specs.Mutants.{AreMutants};
ghost use Rattle.command_files.specs.declared.module.Loaded.{Loaded};
ghost use Rattle.command_words.specs.Words.{Text};
ghost use Rattle.command_words.specs.declared.command.Command.{Command};
ghost use Rattle.command_plan.specs.Answer.{RiseBy};
ghost use Rattle.command_plan.specs.Ends.{End, status_of};
ghost use Rattle.command_plan.specs.Plan.{Counts};
ghost use Rattle.command_plan.specs.Sharp.{IsDueEnd};
ghost use Rattle.command_plan.specs.declared.status.Status.{Status};
ghost use Rattle.command_plan.specs.declared.status.Status.TheVariants.{Done, OutOfMemory};
ghost use Rattle.accmut_app.specs.Call.{Devices, FileRose, IsAnswerTo, SinkRose, counts_in};
ghost use Rattle.accmut_app.specs.Commands.{names_of, plan_of};
ghost use Rattle.accmut_laws.specs.Mutants.{HaveMutants};
ghost use Rattle.accmut_laws.specs.Orders.{without_order};
ghost use Rattle.accmut_laws.specs.Passes.{Passes};

/// Where the shelf tells its files, the sink's count of faults didn't rise, and that of a named file
/// rose only where the file isn't held, the status is the one that the bytes of the named files ask
/// for, or OutOfMemory.
pub fn due()
    ensures { (c : Command Text) (before after : Devices) (held : List ℕ → Option (List ℕ)) (end : End) (s : Status)
        → before.files ≡ Some held → ((name : List ℕ) → Contains (names_of c) name → FileRose before after name → held name ≡ None)
        → ¬ (SinkRose before after) → IsDueEnd held (plan_of before.ports.signs before.ports.answers c) end
        → IsAnswerTo c before after s → (s ≡ status_of end) ⊎ (s ≡ OutOfMemory) }
{}

/// Completeness: where each named file is held, isn't too long and is accepted, what is wanted is
/// there, not too many mutants are made, and neither the sink's count of faults nor that of a named
/// file rose, the status is Done or OutOfMemory.
pub fn complete()
    ensures { (c : Command Text) (before after : Devices) (held : List ℕ → Option (List ℕ)) (s : Status)
        → before.files ≡ Some held → ((name : List ℕ) → Contains (names_of c) name → ¬ (FileRose before after name))
        → ¬ (SinkRose before after) → Passes held (plan_of before.ports.signs before.ports.answers c)
        → IsAnswerTo c before after s → (s ≡ Done) ⊎ (s ≡ OutOfMemory) }
{}

/// An accepted list of mutants gives each of them one to four replacements at different places, and
/// has a table and rows: so it is the list of some mutants.
pub fn lists_have_tables()
    ensures mutants { (signs : List PortSign) (m : Loaded) (text : Text) (all : List Made) → AreMutants signs m text all → HaveMutants all }
    ensures tables { (signs : List PortSign) (m : Loaded) (text : Text) (all : List Made) → AreMutants signs m text all
        → (list : MutantList) × IsListOf m.code all list }
{}

/// Two calls that are Done have written the same, and the meter and the asks of each port rose by the
/// same numbers, where the commands are alike but for the order that they want, the shelves hold the
/// same bytes by the names of the command, and the ports have the same signs and answers. No picker
/// occurs in it: so whatever the pickers pick.
pub fn same_bytes()
    ensures text { (c d : Command Text) (before after again later : Devices) (held other : List ℕ → Option (List ℕ))
        → without_order c ≡ without_order d → before.files ≡ Some held → again.files ≡ Some other
        → ((name : List ℕ) → Contains (names_of c) name → held name ≡ other name)
        → again.ports.signs ≡ before.ports.signs → again.ports.answers ≡ before.ports.answers
        → IsAnswerTo c before after Done → IsAnswerTo d again later Done
        → (text : List ℕ) × (after.written ≡ appended before.written text) × (later.written ≡ appended again.written text) }
    ensures rise { (c d : Command Text) (before after again later : Devices) (held other : List ℕ → Option (List ℕ))
        → without_order c ≡ without_order d → before.files ≡ Some held → again.files ≡ Some other
        → ((name : List ℕ) → Contains (names_of c) name → held name ≡ other name)
        → again.ports.signs ≡ before.ports.signs → again.ports.answers ≡ before.ports.answers
        → IsAnswerTo c before after Done → IsAnswerTo d again later Done
        → (counts : Counts) × RiseBy (counts_in before) (counts_in after) counts × RiseBy (counts_in again) (counts_in later) counts }
{}
