//! The integers and pointers that types stand for.
ghost use Rattle.std.specs.Prelude.{◌≡◌};
ghost use Rattle.ir_scopes.specs.Kinds.{kind_in};

use code_form::TyScalar;
use ir_names::NameTable;
use ir_tree::TyText;

/// What the names of types stand for: an integer or a pointer, or `None`.
#[derive(Drop)]
pub struct KindTable {
    pub names: NameTable<Option<TyScalar>>,
}

impl KindTable {
    /// Returns the integer or pointer that a type stands for. `None` for `void`, an array, a struct
    /// and a name that isn't in the table.
    pub fn of(&self, ty: &TyText) -> Option<TyScalar>
        ensures { result ≡ kind_in self.now.names ty.now }
    {
        match ty {
            TyText::Int(w) => Some(TyScalar::Int(*w)),
            TyText::Ptr => Some(TyScalar::Ptr),
            TyText::Named(name) => match self.names.get(name) {
                None => None,
                Some(kind) => *kind,
            },
            _ => None,
        }
    }
}
