//! The code of a module, unless an item breaks a rule.
ghost use Rattle.std.specs.Prelude.{◌≡◌, ◌<◌, ◌≤◌, ◌^◌, None, false, length, IfOk, IfErr};
ghost use Rattle.am_base.specs.declared.limits.TheConstants.{MAX_FILE_BYTES};
ghost use Rattle.code_form.specs.Sound.{IsSound};
ghost use Rattle.ir_rules.specs.Modules.{code_of};
ghost use Rattle.ir_rules.specs.Rules.{fault};
ghost use Rattle.ir_sound.specs.Whole.{AreWhole};
ghost use Rattle.ir_check.specs.Checks.{IsFaultOf};

use crate::error::CheckError;
use code_form::{Code, PortSign};
use ir_judge::fault_of;
use ir_module::module_code;
use ir_tree::Module;
use std::alloc::Global;

/// Returns the code of a module whose items keep all rules, where the ports with these signatures
/// are handed in. It takes time about linear in the module and in the bytes of its globals.
///
/// The module is one that is read from a text. `Fault` is returned iff an item breaks a rule: it
/// has the first such item in text order, and the least rule that the item breaks. `OutOfMemory`
/// may come at any module.
pub fn check(alloc: Global, m: &Module, signs: &[PortSign]) -> Result<Code, CheckError>
    requires whole { AreWhole false m.now.items }
    requires few { length m.now.items ≤ MAX_FILE_BYTES }
    requires signs { length signs.now < 2 ^ 32 }
    ensures code { IfOk result (λ code. code ≡ code_of m.now.items signs.now) }
    ensures kept { IfOk result (λ code. fault m.now.items signs.now ≡ None) }
    ensures sound { IfOk result (λ code. IsSound code) }
    ensures broken { IfErr result (λ e. IsFaultOf m.now.items signs.now e) }
{
    let items = m.items.as_slice();
    let found = fault_of(alloc, items, signs)?;
    match found {
        Some(fault) => {
            let item = fault.item as u32;
            Err(CheckError::Fault {
                item,
                code: fault.rule,
            })
        }
        None => {
            let code = module_code(alloc, items, signs)?;
            Ok(code)
        }
    }
}
