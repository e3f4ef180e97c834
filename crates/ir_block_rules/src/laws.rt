//! Each rule asks for no more than what its function is handed.
ghost use Rattle.std.specs.Prelude.{◌≡◌};
ghost use Rattle.ir_rules.specs.Blocks.{unknown_label, entry_target, phi_place, block_open};
ghost use Rattle.ir_rules.specs.Calls.{return_differs};
ghost use Rattle.ir_rules.specs.Paths.{cast_width};
ghost use Rattle.ir_rules.specs.Settings.{Setting};
ghost use Rattle.ir_tree.specs.declared.item.Item.{Item};
ghost use Rattle.ir_block_rules.specs.Alone.{locals_alone, scope_alone, kinds_alone, result_alone};

/// Whether an item breaks one of these rules depends on nothing but the names of its function, what
/// the items before it in the function define, or the types that are written in it.
pub fn rules_need_no_more()
    ensures label { (s : Setting) (x : Item)
        → unknown_label s x ≡ unknown_label (locals_alone s.function.table) x }
    ensures target { (s : Setting) (x : Item)
        → entry_target s x ≡ entry_target (locals_alone s.function.table) x }
    ensures place { (s : Setting) (x : Item) → phi_place s x ≡ phi_place (scope_alone s.before) x }
    ensures open_block { (s : Setting) (x : Item)
        → block_open s x ≡ block_open (scope_alone s.before) x }
    ensures width { (s : Setting) (x : Item) → cast_width s x ≡ cast_width (kinds_alone s.kind) x }
    ensures returned { (s : Setting) (x : Item)
        → return_differs s x ≡ return_differs (result_alone s.kind s.result) x }
{}
