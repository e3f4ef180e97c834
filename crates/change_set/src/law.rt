//! The laws of the changes that instructions make: each is the contract of a function that does
//! nothing.

ghost use Rattle.std.specs.Prelude.{◌≡◌, ℕ, true};
ghost use Rattle.traces.specs.Meanings.{IsSameTest, IsLight};
ghost use Rattle.code_form.specs.declared.code.Code.{Code};
ghost use Rattle.code_form.specs.Variant.{Table, variant_of};
ghost use Rattle.machine_form.specs.Calls.{Answers};
ghost use Rattle.machine_form.specs.Machine.{machine_of};
ghost use Rattle.machine_form.specs.StepLaw.{KeepsStates, BeginsSound};
ghost use Rattle.machine_form.specs.EqualChanges.{DeterminesChanges};

use code_form::Variants;

/// A law: the test by which the meanings of this machine compare changes is equality.
pub fn changes_compared()
    ensures { (code : Code) (table : Table) (answers : Answers) → IsSameTest (machine_of code table answers) }
{}

/// A law: the change of a variant lies in at most 65,536 pages, and a variant asks each port at most
/// once.
pub fn changes_light()
    ensures { (code : Code) (table : Table) (answers : Answers) → IsLight (machine_of code table answers) }
{}

/// A law: the machine of a code knows the number that each mutant of a table has at each place.
pub fn variants_known(table: &Variants)
    ensures { (code : Code) (answers : Answers) (m at : ℕ)
        → (machine_of code table.now answers).knows at (variant_of table.now m at) ≡ true }
{
    table.mutants();
}

/// A law: each case of a sound code begins in a sound state, and the change of each variant of its
/// place leads from a sound state to a sound state.
pub fn states_kept()
    ensures start { BeginsSound }
    ensures step { KeepsStates }
{}

/// A law: where the changes that two variants of one place make in a sound state without an ending
/// lead to one state, they are equal.
pub fn changes_determined()
    ensures { DeterminesChanges }
{}
