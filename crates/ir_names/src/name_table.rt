//! The table of names.
ghost use Rattle.std.specs.Prelude.{◌≡◌, [], OnOk};
ghost use Rattle.std.specs.Option.{option_copied};
ghost use Rattle.ir_names.specs.Names.{defined, with_first};

use am_base::OutOfMemory;
use indexmap::IndexMap;
use ir_tree::Name;
use std::alloc::Global;
use std::marker::Model;

/// What each name is defined as, by its first definition. A look-up takes O(1) expected time.
#[derive(Drop)]
pub struct NameTable<X> {
    map: IndexMap<Name, X>,
}

impl<X> Model for NameTable<X> {
    ghost use Rattle.std.specs.Prelude.{List};
    ghost use Rattle.ir_tree.specs.declared.name.Name.{Name};

    ghost Value = { List (Name × X) };

    ghost view = { λ t. t.map.entries };
}

impl<X> NameTable<X> {
    /// Returns a table without names. It takes no memory.
    pub fn new(alloc: Global) -> NameTable<X>
        ensures { result ≡ [] }
    {
        NameTable {
            map: IndexMap::new(alloc),
        }
    }

    /// Returns what a name is defined as. `None` iff it isn't defined.
    pub fn get(&self, name: &Name) -> Option<&X>
        ensures { option_copied result ≡ defined self.now name.now }
    {
        self.map.get(name)
    }
}

impl<X: Drop> NameTable<X> {
    /// Defines a name, unless it is defined before.
    pub fn add(&mut self, alloc: Global, name: &Name, what: X) -> Result<(), OutOfMemory>
        ensures { OnOk result (self.new ≡ with_first self.old (name.now, what)) }
    {
        if self.map.contains_key(name) {
            return Ok(());
        }
        self.map.insert(name.copy(alloc)?, what)?;
        Ok(())
    }
}

#[cfg(test)]
mod tests {
    use super::*;
    use am_lists::Items;
    use std::test::Fail;

    #[test]
    fn keeps_the_first_definition(rt: HostRuntime) -> Result<(), Fail> {
        let alloc = rt.alloc();
        let digits = Name::Text(Items::from_slice(alloc, b"7")?);
        let number = Name::Number(7);
        let mut table: NameTable<u64> = NameTable::new(alloc);
        table.add(alloc, &digits, 1)?;
        table.add(alloc, &digits, 2)?;
        assert_eq!(rt; table.get(&digits).copied(), Some(1));
        assert_eq!(rt; table.get(&number).copied(), None);
        table.add(alloc, &number, 3)?;
        assert_eq!(rt; table.get(&digits).copied(), Some(1));
        assert_eq!(rt; table.get(&number).copied(), Some(3));
        Ok(())
    }
}
