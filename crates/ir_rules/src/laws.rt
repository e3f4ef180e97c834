//! Laws on the definitions.
ghost use Rattle.std.specs.Prelude.{List, Some, None, true, false, slice_get, ℕ, ◌<◌, ◌≡◌};
ghost use Rattle.code_form.specs.declared.sign.PortSign.{PortSign};
ghost use Rattle.ir_tree.specs.declared.item.Item.{Item};
ghost use Rattle.ir_rules.specs.Rules.{breaks, fault, rule_number, inner_double, number_order};
ghost use Rattle.ir_rules.specs.Scopes.{with_item};
ghost use Rattle.ir_rules.specs.Settings.{Setting};

use crate::rule::{Fault, Rule};

/// The fault of a module is the first item in text order that breaks a rule, with the least rule
/// that it breaks; a module without a fault has no item that breaks a rule.
pub fn first_fault()
    ensures broken { (items : List Item) (signs : List PortSign) (f : Fault)
        → fault items signs ≡ Some f
        → (x : Item) × (slice_get items f.item ≡ Some x)
        × (breaks items signs f.item x f.rule ≡ true) }
    ensures least { (items : List Item) (signs : List PortSign) (f : Fault) (x : Item) (r : Rule)
        → fault items signs ≡ Some f → slice_get items f.item ≡ Some x
        → rule_number r < rule_number f.rule → breaks items signs f.item x r ≡ false }
    ensures first { (items : List Item) (signs : List PortSign) (f : Fault)
        → (i : ℕ) (x : Item) (r : Rule)
        → fault items signs ≡ Some f → i < f.item → slice_get items i ≡ Some x
        → breaks items signs i x r ≡ false }
    ensures none { (items : List Item) (signs : List PortSign) (i : ℕ) (x : Item) (r : Rule)
        → fault items signs ≡ None → slice_get items i ≡ Some x → breaks items signs i x r ≡ false }
{}

/// Whether an item defines a name twice or out of order is told by one pass over its function's
/// items: by what the pass notes of the item.
pub fn names_in_passing()
    ensures again { (s : Setting) (x : Item)
        → inner_double s x ≡ (with_item s.kind s.before x).again }
    ensures low { (s : Setting) (x : Item)
        → number_order s x ≡ (with_item s.kind s.before x).low }
{}
