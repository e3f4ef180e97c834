//! Each rule asks for no more than what its function is handed.
ghost use Rattle.std.specs.Prelude.{◌≡◌, [], None};
ghost use Rattle.ir_names.specs.Names.{firsts};
ghost use Rattle.ir_rules.specs.Blocks.{phi_entries, own_block};
ghost use Rattle.ir_rules.specs.Calls.{unknown_callee, call_differs, declare_differs};
ghost use Rattle.ir_rules.specs.Paths.{switch_case};
ghost use Rattle.ir_rules.specs.Settings.{Setting};
ghost use Rattle.ir_tree.specs.declared.item.Item.{Item};
ghost use Rattle.ir_call_rules.specs.Alone.{calls_alone};
ghost use Rattle.ir_call_rules.specs.Sources.{phi_differs, sources_once};

/// Whether an item breaks one of these rules depends on nothing but the types that are written in
/// it, the first definitions of the module's global names, the ports, or the names and branches of
/// its function.
pub fn rules_need_no_more()
    ensures callee { (s : Setting) (x : Item) → unknown_callee s x
        ≡ unknown_callee (calls_alone (λ t. None) (firsts s.entities) s.signs) x }
    ensures call { (s : Setting) (x : Item)
        → call_differs s x ≡ call_differs (calls_alone s.kind (firsts s.entities) []) x }
    ensures declaration { (s : Setting) (x : Item)
        → declare_differs s x ≡ declare_differs (calls_alone s.kind [] s.signs) x }
    ensures cases { (s : Setting) (x : Item)
        → switch_case s x ≡ switch_case (calls_alone s.kind [] []) x }
    ensures entries { (s : Setting) (x : Item) → phi_entries s x
        ≡ phi_differs s.function.table (sources_once s s.edges (own_block s)) x }
{}
