//! Laws on the code of a module.
ghost use Rattle.std.specs.Prelude.{All, List, None, Some, false, length, ℕ, ◌≡◌, ◌≤◌};
ghost use Rattle.code_form.specs.declared.instr.Instr.{Instr};
ghost use Rattle.code_form.specs.declared.sign.PortSign.{PortSign};
ghost use Rattle.code_form.specs.Fit.{FitsPlace};
ghost use Rattle.code_form.specs.Sound.{IsSound};
ghost use Rattle.ir_grammar.specs.Lexeme.{Lexemes};
ghost use Rattle.ir_grammar.specs.Modules.{IsModule};
ghost use Rattle.ir_tree.specs.declared.item.Item.{Item};
ghost use Rattle.ir_tree.specs.declared.item.Module.{Module};
ghost use Rattle.ir_rules.specs.Modules.{code_of};
ghost use Rattle.ir_rules.specs.Replacements.{replacement};
ghost use Rattle.ir_rules.specs.Rules.{fault};
ghost use Rattle.ir_rules.specs.Scopes.{scope_of};
ghost use Rattle.ir_rules.specs.Types.{Kinds};
ghost use Rattle.ir_sound.specs.Whole.{AreWhole};

/// The items that are read from a text are whole: labels, instructions and ends stand only inside
/// of functions, all others only outside, and each function has its end.
pub fn items_are_whole()
    ensures { (ts : Lexemes) (items : List Item) (starts : List ℕ)
        → IsModule ts items starts → AreWhole false items }
{}

/// The code of a module without a fault is sound, whatever ports are handed in.
pub fn code_is_sound()
    ensures { (items : List Item) (signs : List PortSign)
        → AreWhole false items → fault items signs ≡ None → IsSound (code_of items signs) }
{}

/// The instruction that an item is in a place of that code fits the place: the code stays sound
/// with it, it ends a block where the original does, and goes to no label that the original
/// doesn't have.
pub fn replacement_fits()
    ensures { (m : Module) (signs : List PortSign) (place : ℕ) (x : Item) (i : Instr)
        → AreWhole false m.items → fault m.items signs ≡ None
        → replacement m (code_of m.items signs) place x ≡ Some i
        → FitsPlace (code_of m.items signs) place i }
{}

/// No block of a function starts behind its last instruction, whatever its items are.
pub fn starts_are_within()
    ensures { (kind : Kinds) (items : List Item) → let scope = scope_of kind items in
        All (λ start. start ≤ length scope.results) scope.starts }
{}
