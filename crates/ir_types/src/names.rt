//! The numbers of what the names of types stand for.
ghost use Rattle.std.specs.Prelude.{◌≡◌, slice_get, unwrap_or};
ghost use Rattle.ir_types.specs.Named.{name_number};

use crate::flags::flag_at;
use ir_names::NameTable;
use ir_tree::Name;

/// The numbers of what the names of types stand for, so far.
#[derive(Clone, Copy)]
pub struct Names<'a> {
    /// The numbers of the definitions.
    pub numbers: &'a NameTable<usize>,
    /// For each definition whether it contains itself.
    pub recursive: &'a [bool],
    /// For each definition the number of its type, 0 where there is none yet.
    pub named: &'a [u64],
}

fn number_at(named: &[u64], d: usize) -> usize
    ensures { result ≡ unwrap_or (slice_get named.now d) 0 }
{
    named.get(d).copied().unwrap_or(0) as usize
}

impl Names<'_> {
    /// Returns the number of what a name stands for: 0 where it has no definition or its definition
    /// contains itself.
    pub fn number(&self, name: &Name) -> usize
        ensures { result ≡ name_number self.now.numbers.now self.now.recursive.now self.now.named.now name.now }
    {
        match self.numbers.get(name) {
            None => 0,
            Some(d) => {
                let d = *d;
                if flag_at(self.recursive, d) {
                    0
                } else {
                    number_at(self.named, d)
                }
            }
        }
    }
}
