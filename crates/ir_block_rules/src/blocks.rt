//! The rules on where instructions and labels stand in a block.
ghost use Rattle.std.specs.Prelude.{◌≡◌};
ghost use Rattle.ir_rules.specs.Blocks as spec;
ghost use Rattle.ir_block_rules.specs.Alone.{scope_alone};

use ir_rules::Scope;
use ir_scopes::is_phi;
use ir_tree::Item;

/// Whether the item is a `phi` in the first block, or behind another instruction of its block. The
/// items before it in its function define `before`.
pub fn phi_place(before: &Scope, item: &Item) -> bool
    ensures { result ≡ spec.phi_place (scope_alone before.now) item.now }
{
    match item {
        Item::Instr(_, op) => is_phi(op.get()) && (before.starts.len() <= 1 || before.mixed),
        _ => false,
    }
}

/// Whether the item is a label or an end behind a block without a terminator, an instruction behind
/// a terminator, or the end of a function without a block. The items before it in its function
/// define `before`.
pub fn block_open(before: &Scope, item: &Item) -> bool
    ensures { result ≡ spec.block_open (scope_alone before.now) item.now }
{
    let some = 0 < before.starts.len();
    match item {
        Item::Label(_) => some && !before.terminated,
        Item::Instr(_, _) => before.terminated,
        Item::End => !some || !before.terminated,
        _ => false,
    }
}
