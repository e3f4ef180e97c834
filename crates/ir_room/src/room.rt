//! How much of the memory the globals so far need.
ghost use Rattle.std.specs.Prelude.{◌≡◌, [], ◌∷◌, ◌++◌, nat_lt, false, List, OnOk};
ghost use Rattle.am_base.specs.declared.limits.TheConstants.{MEMORY_BYTES};
ghost use Rattle.ir_tree.specs.declared.item.Item.{Item};
ghost use Rattle.ir_rules.specs.Types.{TypeDefs};
ghost use Rattle.ir_rules.specs.Memory.{stack_base_of};

use crate::ends::{end_after, ends_after, limited};
use am_base::{FIRST_ADDRESS, MEMORY_BYTES, OutOfMemory};
use ir_tree::Item;
use ir_types::Types;
use std::alloc::Global;
use type_table::Extent;

/// Where the globals so far end. A further one takes a constant number of steps.
#[derive(Drop)]
pub struct Room {
    /// Where the constants end.
    pub constants: u64,
    /// Where the variables end, for each address modulo 8 at which they may begin.
    pub variables: [u64; 8],
}

impl Room {
    ghost use Rattle.ir_room.specs.Rooms as spec;
    ghost use Rattle.ir_room.specs.Rooms.{IsRoomOf};

    /// Returns the room without globals.
    pub fn new() -> Room
        ensures { (defs : TypeDefs) → IsRoomOf defs [] result }
    {
        Room {
            constants: u64::from(FIRST_ADDRESS),
            variables: [0, 1, 2, 3, 4, 5, 6, 7],
        }
    }

    fn take(&mut self, constant: bool, extent: &Extent)
        ensures { spec.Takes constant extent.now self.old self.new }
    {
        if constant {
            self.constants = end_after(self.constants, extent);
        } else {
            self.variables = ends_after(&self.variables, extent);
        }
    }

    /// Counts a further item, which takes room if it is a global. No type that is written in the
    /// item is larger than `MAX_TYPE_BYTES`.
    pub fn add(
        &mut self,
        alloc: Global,
        types: &mut Types<'_>,
        item: &Item,
    ) -> Result<(), OutOfMemory>
        ensures defs { types.new.defs ≡ types.old.defs }
        ensures room { OnOk result ((above : List Item) → spec.has_large types.old.defs item.now ≡ false
            → IsRoomOf types.old.defs above self.old
            → IsRoomOf types.old.defs (above ++ item.now ∷ []) self.new) }
    {
        if let Item::Global(_, constant, ty, _) = item {
            let number = types.number(alloc, ty)?;
            if let Some(extent) = types.table().extent(number) {
                self.take(*constant, extent);
            }
        }
        Ok(())
    }

    /// Whether the globals need more than the memory.
    pub fn is_full(&self) -> bool
        ensures { (defs : TypeDefs) (items : List Item) → IsRoomOf defs items self.now
            → result ≡ nat_lt MEMORY_BYTES (stack_base_of defs items) }
    {
        let start = limited(self.constants);
        let end = limited(self.variables[(start % 8) as usize]);
        start / 8 * 8 + end > u64::from(MEMORY_BYTES)
    }
}
