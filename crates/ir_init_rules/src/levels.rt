//! What an initialiser asks of the first level of its type.
ghost use Rattle.std.specs.Prelude.{◌≡◌, ◌<◌, Some, length, slice_get, IfSome};
ghost use Rattle.std.specs.Option.{option_copied};
ghost use Rattle.am_base.specs.declared.word.Width.TheVariants.{W1, W8};
ghost use Rattle.code_form.specs.declared.code.TyScalar.TheVariants as scalar;
ghost use Rattle.type_layout.specs.declared.ty.Ty.{out-Ty};
ghost use Rattle.type_table.specs.Table.{type_at};
ghost use Rattle.ir_rules.specs.Types as types;
ghost use Rattle.ir_rules.specs.Initialisers as rule;
ghost use Rattle.ir_types.specs.Scalars.{scalar_from};
ghost use Rattle.ir_type_rules.specs.Walk.{typed_at};
ghost use Rattle.ir_init_rules.specs.Levels as spec;

use am_base::Width;
use code_form::TyScalar;
use ir_tree::Opd;
use type_table::{Shape, TypeTable};

// ---- integers and pointers

fn kind_of_level(shape: Option<&Shape>) -> Option<TyScalar>
    ensures { result ≡ scalar_from (option_copied shape.entry) }
{
    match shape {
        Some(Shape::Int(w)) => Some(TyScalar::Int(*w)),
        Some(Shape::Ptr) => Some(TyScalar::Ptr),
        _ => None,
    }
}

/// The integer or pointer that the type with a number is.
pub fn kind_at(table: &TypeTable, n: usize) -> Option<TyScalar>
    ensures { result ≡ types.scalar_of (type_at table.now n) }
{
    kind_of_level(table.shape(n))
}

fn is_pointer(kind: Option<TyScalar>) -> bool
    ensures { result ≡ types.same_kind kind (Some scalar.Ptr) }
{
    matches!(kind, Some(TyScalar::Ptr))
}

fn is_flag(kind: Option<TyScalar>) -> bool
    ensures { result ≡ types.same_kind kind (Some (scalar.Int W1)) }
{
    matches!(kind, Some(TyScalar::Int(Width::W1)))
}

fn is_byte(kind: Option<TyScalar>) -> bool
    ensures { result ≡ types.same_kind kind (Some (scalar.Int W8)) }
{
    matches!(kind, Some(TyScalar::Int(Width::W8)))
}

fn is_integer(kind: Option<TyScalar>) -> bool
    ensures { result ≡ types.is_integer kind }
{
    matches!(kind, Some(TyScalar::Int(_)))
}

/// Whether a constant that is one operand fits a type that is this integer or pointer, if any.
pub fn constant_fits(kind: Option<TyScalar>, a: &Opd) -> bool
    ensures { result ≡ rule.constant_fits kind a.now }
{
    match a {
        Opd::Local(_) => false,
        Opd::Global(_) | Opd::Null | Opd::Get(_) => is_pointer(kind),
        Opd::Number(_) => is_integer(kind),
        Opd::True | Opd::False => is_flag(kind),
        Opd::Undef | Opd::Poison | Opd::Zero => true,
    }
}

// ---- arrays and structs

/// Whether a type with this first level is an array of so many i8.
fn text_level(table: &TypeTable, count: usize, shape: Option<&Shape>) -> bool
    ensures { result ≡ spec.text_level table.now count (option_copied shape.entry) }
{
    match shape {
        Some(Shape::Array(n, of)) => {
            let byte = is_byte(kind_at(table, *of));
            count as u64 == *n && byte
        }
        _ => false,
    }
}

/// Whether a text fits the type with a number.
pub fn text_fits(table: &TypeTable, text: &[u8], n: usize) -> bool
    requires { n < length table.now }
    ensures { result ≡ rule.text_fits text.now (out-Ty (type_at table.now n)) }
{
    text_level(table, text.len(), table.shape(n))
}

fn array_level(count: usize, shape: Option<&Shape>) -> bool
    ensures { result ≡ spec.array_level count (option_copied shape.entry) }
{
    match shape {
        Some(Shape::Array(n, _)) => count as u64 == *n,
        _ => false,
    }
}

/// Whether the type with a number is an array of so many elements.
pub fn is_array_of(table: &TypeTable, count: usize, n: usize) -> bool
    requires { n < length table.now }
    ensures { result ≡ spec.is_array_of count (out-Ty (type_at table.now n)) }
{
    array_level(count, table.shape(n))
}

fn struct_level(count: usize, shape: Option<&Shape>) -> bool
    ensures { result ≡ spec.struct_level count (option_copied shape.entry) }
{
    match shape {
        Some(Shape::Struct(parts)) => count == parts.len(),
        _ => false,
    }
}

/// Whether the type with a number is a struct of so many fields.
pub fn is_struct_of(table: &TypeTable, count: usize, n: usize) -> bool
    requires { n < length table.now }
    ensures { result ≡ spec.is_struct_of count (out-Ty (type_at table.now n)) }
{
    struct_level(count, table.shape(n))
}

fn place(parts: &[usize], k: usize) -> Option<usize>
    ensures { result ≡ slice_get parts.now k }
{
    parts.get(k).copied()
}

fn part_level(k: usize, shape: Option<&Shape>) -> Option<usize>
    ensures { result ≡ spec.part_level k (option_copied shape.entry) }
{
    match shape {
        Some(Shape::Array(_, of)) => Some(*of),
        Some(Shape::Struct(parts)) => place(parts.as_slice(), k),
        _ => None,
    }
}

/// Returns the number of what element `k` of a value of the type with a number has to be of. `None`
/// where the value has no such element.
pub fn part_at(table: &TypeTable, n: usize, k: usize) -> Option<usize>
    requires { n < length table.now }
    ensures part { typed_at table.now result ≡ spec.part_type (out-Ty (type_at table.now n)) k }
    ensures within { IfSome result (λ m. m < length table.now) }
{
    part_level(k, table.shape(n))
}
