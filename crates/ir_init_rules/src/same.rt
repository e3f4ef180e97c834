//! Whether two types by number are of one structure.
ghost use Rattle.std.specs.Prelude.{◌≡◌, ◌&&◌, ◌<◌, length};
ghost use Rattle.type_table.specs.Table.{Within, AreBelow};
ghost use Rattle.ir_rules.specs.Types as rules;
ghost use Rattle.ir_init_rules.specs.Same as spec;

use am_base::Width;
use type_table::{Shape, TypeTable};

fn same_width(a: Width, b: Width) -> bool
    ensures { result ≡ rules.same_width a b }
{
    a == b
}

/// Whether the types with two numbers are of one structure. Equal numbers need no walk, and a walk
/// ends at the first part that differs.
#[cycle(same)]
pub fn same_types(table: &TypeTable, m: usize, n: usize) -> bool
    requires first { m < length table.now }
    requires second { n < length table.now }
    ensures { result ≡ spec.same_at table.now m n }
{
    if m == n {
        return true;
    }
    let Some(first) = table.shape(m) else {
        return false;
    };
    let Some(second) = table.shape(n) else {
        return false;
    };
    same_levels(table, first, second)
}

/// Whether the types are of one structure that have these first levels.
#[cycle(same)]
fn same_levels(table: &TypeTable, first: &Shape, second: &Shape) -> bool
    requires first { Within (length table.now) first.now }
    requires second { Within (length table.now) second.now }
    ensures { result ≡ spec.same_levels table.now first.now second.now }
{
    match first {
        Shape::Int(v) => match second {
            Shape::Int(w) => same_width(*v, *w),
            _ => false,
        },
        Shape::Ptr => matches!(second, Shape::Ptr),
        Shape::Array(k, of) => match second {
            Shape::Array(l, other) => also_same(table, *k == *l, *of, *other),
            _ => false,
        },
        Shape::Struct(parts) => match second {
            Shape::Struct(others) => same_parts(table, parts.as_slice(), others.as_slice()),
            _ => false,
        },
    }
}

/// The same where something else holds too.
#[cycle(same)]
fn also_same(table: &TypeTable, so_far: bool, m: usize, n: usize) -> bool
    requires first { m < length table.now }
    requires second { n < length table.now }
    ensures { result ≡ (so_far && spec.same_at table.now m n) }
{
    if !so_far {
        return false;
    }
    same_types(table, m, n)
}

/// Whether the types with the numbers of one list are those with the numbers of the other.
#[cycle(same)]
fn same_parts(table: &TypeTable, first: &[usize], second: &[usize]) -> bool
    requires first { AreBelow (length table.now) first.now }
    requires second { AreBelow (length table.now) second.now }
    ensures { result ≡ spec.same_parts table.now first.now second.now }
{
    if first.len() != second.len() {
        return false;
    }
    let mut same = true;
    'each: for k in 0..first.len() {
        same = also_same(table, same, first[k], second[k]);
    }
    same
}
