//! Copies of the signatures of ports.
ghost use Rattle.std.specs.Prelude.{◌≡◌, IfOk};

use am_base::OutOfMemory;
use am_lists::Items;
use code_form::PortSign;
use std::alloc::Global;

/// Returns equal signatures. O(n) in what they hold.
pub fn copies(alloc: Global, signs: &[PortSign]) -> Result<Items<PortSign>, OutOfMemory>
    ensures { IfOk result (λ list. list ≡ signs.now) }
{
    let mut list = Items::new(alloc);
    'each: for sign in signs {
        list.push(sign.copy(alloc)?)?;
    }
    Ok(list)
}
