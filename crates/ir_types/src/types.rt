//! The types of a module.
ghost use Rattle.std.specs.Prelude.{◌≡◌, Some, slice_get, OnOk, IfOk};
ghost use Rattle.type_table.specs.Table.{Keeps, type_at};
ghost use Rattle.ir_rules.specs.Types as spec;
ghost use Rattle.ir_rules.specs.Types.{type_defs, expanded, scalar_of, Kinds};
ghost use Rattle.ir_scopes.specs.Kinds.{kind_in};
ghost use Rattle.std.specs.Option.{option_copied};
ghost use Rattle.ir_types.specs.Scalars.{scalar_from as spec_scalar_from, name_kind, with_kind};

use crate::cycles::recursive_of;
use crate::definitions::{bodies_of, numbers_of};
use crate::flags::flag_at;
use crate::level::{Graph, named_of};
use crate::mentions::{edges_of, names_unknown_type};
use crate::names::Names;
use crate::number::number_by;
use crate::order::order_of;
use am_base::OutOfMemory;
use am_lists::Items;
use code_form::TyScalar;
use ir_names::NameTable;
use ir_scopes::KindTable;
use ir_tree::{Item, Name, TyText};
use std::alloc::Global;
use std::marker::Model;
use type_table::{Shape, TypeTable};

/// What the types of a module stand for, by number. Contracts see it as the module's type
/// definitions and the types that have a number.
#[derive(Drop)]
pub struct Types<'a> {
    items: &'a [Item],
    /// The numbers of the definitions.
    numbers: NameTable<usize>,
    /// For each definition whether it contains itself.
    recursive: Items<bool>,
    /// For each definition the number of what it stands for.
    named: Items<u64>,
    table: TypeTable,
}

impl<'a> Model for Types<'a> {
    ghost use Rattle.std.specs.Coded.{codes};
    ghost use Rattle.type_layout.specs.contracts.ty.Ty as full;
    ghost use Rattle.ir_tree.specs.contracts.type_text.TyText as text;
    ghost use Rattle.ir_rules.specs.Types.{type_defs};
    ghost use Rattle.ir_types.specs.Known.{Known};
    ghost use Rattle.ir_types.specs.Named.{IsKnown};

    ghost Value = { Known };

    ghost coded = { Prim.hlevel (codes, full.the_row.coded, text.the_row.coded) };

    ghost view = { λ t. record { defs = type_defs t.items.now; types = t.table } };

    ghost invariant = { λ t. IsKnown t.items.now t.numbers t.recursive t.named t.table };
}

/// The integer or pointer that one level of a type is.
fn scalar_from(shape: Option<&Shape>) -> Option<TyScalar>
    ensures { result ≡ spec_scalar_from (option_copied shape.entry) }
{
    match shape {
        Some(Shape::Int(w)) => Some(TyScalar::Int(*w)),
        Some(Shape::Ptr) => Some(TyScalar::Ptr),
        _ => None,
    }
}

/// The integer or pointer that the type with a number is.
fn scalar_at(table: &TypeTable, n: usize) -> Option<TyScalar>
    ensures { result ≡ scalar_of (type_at table.now n) }
{
    scalar_from(table.shape(n))
}

fn add_kind(
    alloc: Global,
    types: &Types<'_>,
    names: &mut NameTable<Option<TyScalar>>,
    item: &Item,
) -> Result<(), OutOfMemory>
    ensures { OnOk result (names.new ≡ with_kind (name_kind types.now.defs) names.old item.now) }
{
    if let Item::TypeDef(name, _) = item {
        names.add(alloc, name, types.kind_of_name(name))?;
    }
    Ok(())
}

impl<'a> Types<'a> {
    /// Returns the types of a module. It takes about linear time in the module's items where no
    /// definition contains itself; else there is one walk along the definitions more for each from
    /// which a way leads to such a definition.
    pub fn of(alloc: Global, items: &'a [Item]) -> Result<Types<'a>, OutOfMemory>
        ensures { IfOk result (λ types. types.defs ≡ type_defs items.now) }
    {
        let numbers = numbers_of(alloc, items)?;
        let bodies = bodies_of(alloc, items)?;
        let edges = edges_of(alloc, &numbers, bodies.as_slice())?;
        let order = order_of(alloc, edges.as_slice())?;
        let recursive = recursive_of(alloc, edges.as_slice(), order.as_slice())?;
        let mut table = TypeTable::new(alloc);
        table.add(alloc, Shape::Struct(Items::new(alloc)))?;
        let graph = Graph {
            items,
            bodies: bodies.as_slice(),
            edges: edges.as_slice(),
            numbers: &numbers,
            recursive: recursive.as_slice(),
        };
        let named = named_of(alloc, &graph, order.as_slice(), &mut table)?;
        Ok(Types {
            items,
            numbers,
            recursive,
            named,
            table,
        })
    }

    /// Whether a type names no type definition.
    pub fn has_unknown(&self, ty: &TyText) -> bool
        ensures { result ≡ spec.has_unknown self.now.defs ty.now }
    {
        names_unknown_type(&self.numbers, ty)
    }

    /// Whether the definition of a name contains that name.
    pub fn holds_itself(&self, name: &Name) -> bool
        ensures { result ≡ spec.holds_itself self.now.defs name.now }
    {
        match self.numbers.get(name) {
            None => false,
            Some(d) => flag_at(self.recursive.as_slice(), *d),
        }
    }

    /// Returns the integer or pointer that a type stands for. `None` for `void`, an array or a
    /// struct.
    pub fn kind(&self, ty: &TyText) -> Option<TyScalar>
        ensures { result ≡ spec.kind_of self.now.defs ty.now }
    {
        match ty {
            TyText::Int(w) => Some(TyScalar::Int(*w)),
            TyText::Ptr => Some(TyScalar::Ptr),
            TyText::Named(name) => self.kind_of_name(name),
            _ => None,
        }
    }

    /// Returns the integer or pointer that a name stands for.
    fn kind_of_name(&self, name: &Name) -> Option<TyScalar>
        ensures { result ≡ name_kind self.now.defs name.now }
    {
        let names = Names {
            numbers: &self.numbers,
            recursive: self.recursive.as_slice(),
            named: self.named.as_slice(),
        };
        scalar_at(&self.table, names.number(name))
    }

    /// Returns the table of the integers and pointers that type names stand for. It takes time
    /// about linear in the module's items.
    pub fn kinds(&self, alloc: Global) -> Result<KindTable, OutOfMemory>
        ensures { let kind = spec.kind_of self.now.defs in
            IfOk result (λ kinds. ◌≡◌ {A = Kinds} (kind_in kinds.names) kind) }
    {
        let mut names = NameTable::new(alloc);
        let items = self.items;
        'each: for item in items {
            add_kind(alloc, self, &mut names, item)?;
        }
        Ok(KindTable { names })
    }

    /// Returns the number of what a type stands for. After an error the numbers have the types that
    /// they had.
    pub fn number(&mut self, alloc: Global, ty: &TyText) -> Result<usize, OutOfMemory>
        ensures defs { self.new.defs ≡ self.old.defs }
        ensures kept { Keeps self.old.types self.new.types }
        ensures number { IfOk result (λ n. slice_get self.new.types n ≡ Some (expanded self.old.defs ty.now)) }
    {
        let names = Names {
            numbers: &self.numbers,
            recursive: self.recursive.as_slice(),
            named: self.named.as_slice(),
        };
        number_by(alloc, &names, &mut self.table, ty)
    }

    /// The types by their numbers.
    pub fn table(&self) -> &TypeTable
        ensures { result.now ≡ self.now.types }
    {
        &self.table
    }
}
