//! The table of types.
ghost use Rattle.std.specs.Prelude.{◌≡◌, ◌<◌, ◌≤◌, ◌+◌, Some, true, [], ◌∷◌, ◌++◌, length, slice_get, OnOk, OnErr, IfOk, IfSome};
ghost use Rattle.std.specs.Prelude.{if◌then◌else◌};
ghost use Rattle.std.specs.Option.{option_copied, option_map};
ghost use Rattle.type_layout.specs.declared.ty.Ty.{Ty, out-Ty};
ghost use Rattle.type_table.specs.Table.{ty_of, layer_of, Within, Keeps, extent_at};

use crate::extent::{extent_by, extent_in};
use crate::shape::{Extent, Shape};
use am_base::OutOfMemory;
use am_lists::Items;
use indexmap::IndexSet;
use std::alloc::Global;
use std::marker::Model;

/// Types by number, each once. Contracts see it as the list of the types.
#[derive(Drop)]
pub struct TypeTable {
    shapes: IndexSet<Shape>,
    extents: Items<Option<Extent>>,
}

impl Model for TypeTable {
    ghost use Rattle.std.specs.Prelude.{◌≡◌, List, map};
    ghost use Rattle.std.specs.Coded.{codes};
    ghost use Rattle.type_layout.specs.declared.ty.Ty.{Ty};
    ghost use Rattle.type_layout.specs.contracts.ty.Ty as full;
    ghost use Rattle.type_table.specs.Table.{types_of, AreOrdered, extent_of};

    ghost Value = { List Ty };

    ghost coded = { Prim.hlevel (codes, full.the_row.coded) };

    ghost view = { λ t. types_of t.shapes.keys };

    ghost invariant = { λ t. AreOrdered 0 t.shapes.keys × (t.extents ≡ map extent_of (types_of t.shapes.keys)) };
}

/// Appends how much room a new type takes.
fn push_if(
    extents: &mut Items<Option<Extent>>,
    new: bool,
    extent: Option<Extent>,
) -> Result<(), OutOfMemory>
    ensures ok { OnOk result (extents.new ≡ (if new then extents.old ++ extent ∷ [] else extents.old)) }
    ensures err { OnErr result ((extents.new ≡ extents.old) × (new ≡ true)) }
{
    if new {
        extents.push(extent)?;
    }
    Ok(())
}

impl TypeTable {
    /// Returns a table without types. It takes no memory.
    pub fn new(alloc: Global) -> TypeTable
        ensures { result ≡ [] }
    {
        TypeTable {
            shapes: IndexSet::new(alloc),
            extents: Items::new(alloc),
        }
    }

    /// Returns the number of a type: the one that it has, or the next one. It takes O(1) expected
    /// time but for the parts of the type. After an error each number has the type that it had.
    pub fn add(&mut self, alloc: Global, shape: Shape) -> Result<usize, OutOfMemory>
        requires { Within (length self.old) shape }
        ensures kept { Keeps self.old self.new }
        ensures few { length self.new ≤ length self.old + 1 }
        ensures number { IfOk result (λ n. slice_get self.new n ≡ Some (ty_of self.old shape)) }
    {
        let extent = extent_by(alloc, self.extents.as_slice(), &shape)?;
        let before = self.shapes.len();
        let (n, added) = self.shapes.insert_full(shape)?;
        match push_if(&mut self.extents, added, extent) {
            Ok(()) => Ok(n),
            Err(error) => {
                self.shapes.truncate(before);
                Err(error)
            }
        }
    }

    /// Returns one level of the type with a number. `None` iff there is none.
    pub fn shape(&self, n: usize) -> Option<&Shape>
        ensures shape { option_map (layer_of self.now) (option_copied result)
            ≡ option_map out-Ty (slice_get self.now n) }
        ensures within { IfSome result (λ s. Within (length self.now) s.now) }
    {
        self.shapes.get_index(n)
    }

    /// Returns how much room a value of the type with a number takes. `None` iff the type, or one
    /// inside it, is larger than `MAX_TYPE_BYTES`, or there is no such number.
    pub fn extent(&self, n: usize) -> Option<&Extent>
        ensures { option_copied result ≡ extent_at self.now n }
    {
        extent_in(self.extents.as_slice(), n)
    }
}
