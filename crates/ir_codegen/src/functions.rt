//! The functions of a code.
ghost use Rattle.std.specs.Prelude.{List, ℕ, ◌≡◌, ◌+◌, ◌-◌, ◌<◌, ◌≤◌, ◌^◌, length, map, slice_index_or};
ghost use Rattle.std.specs.Prelude.{All, IfOk};
ghost use Rattle.std.specs.Option.{option_map};
ghost use Rattle.ir_tree.specs.declared.name.Name.{Name};
ghost use Rattle.ir_rules.specs.Types.{TypeDefs, kind_of};
ghost use Rattle.ir_rules.specs.Types as types;
ghost use Rattle.ir_rules.specs.Entities.{name_bytes};
ghost use Rattle.ir_rules.specs.Codes as codes;
ghost use Rattle.ir_rules.specs.Modules as spec;
ghost use Rattle.ir_scopes.specs.Kinds.{kind_in};

use am_base::OutOfMemory;
use am_lists::{Bytes, Items};
use code_form::{Block, Func, TyScalar};
use ir_rules::Scope;
use ir_scopes::KindTable;
use ir_tree::{Name, TyText};
use std::alloc::Global;

/// The type of a register, which the rules have found to be an integer or a pointer.
fn scalar_in(kind: Option<TyScalar>) -> TyScalar
    ensures { result ≡ codes.scalar_in kind }
{
    match kind {
        None => TyScalar::Ptr,
        Some(scalar) => scalar,
    }
}

/// Returns the types of a function's registers, from those that a scope has for them. O(n).
pub fn register_types(
    alloc: Global,
    kinds: &[Option<TyScalar>],
) -> Result<Items<TyScalar>, OutOfMemory>
    ensures { IfOk result (λ list. list ≡ map codes.scalar_in kinds.now) }
{
    let mut list = Items::new(alloc);
    'each: for kind in kinds {
        list.push(scalar_in(*kind))?;
    }
    Ok(list)
}

/// Returns the types of a function's parameters, in order. O(n).
pub fn param_types(
    alloc: Global,
    kinds: &KindTable,
    params: &[(TyText, Option<Name>)],
) -> Result<Items<TyScalar>, OutOfMemory>
    ensures { IfOk result (λ list.
        list ≡ map (λ p. codes.scalar_in (kind_in kinds.now.names p.0)) params.now) }
{
    let mut list = Items::new(alloc);
    'each: for param in params {
        list.push(scalar_in(kinds.of(&param.0)))?;
    }
    Ok(list)
}

/// The block whose instructions stand from one number of its function to another, which isn't of
/// it; the function's first instruction has the place `at`.
fn block(at: u32, start: usize, end: usize) -> Block
    requires start { at + start < 2 ^ 32 }
    requires end { at + end < 2 ^ 32 }
    ensures { result ≡ record { first = at + start; len = end - start } }
{
    Block {
        first: at + start as u32,
        len: end.saturating_sub(start) as u32,
    }
}

/// Where a block ends: where the next one starts, or behind the last instruction.
fn end_of(starts: &[usize], b: usize, count: usize) -> usize
    requires { b < length starts.now }
    ensures { result ≡ slice_index_or starts.now (b + 1) count }
{
    match starts.get(b + 1) {
        Some(next) => *next,
        None => count,
    }
}

/// Returns the blocks of a function whose first instruction has the place `at`, from how many of
/// its instructions stand before each block, and how many it has. O(n) in the blocks.
pub fn blocks(
    alloc: Global,
    at: u32,
    starts: &[usize],
    count: usize,
) -> Result<Items<Block>, OutOfMemory>
    requires room { at + count < 2 ^ 32 }
    requires within { All (λ start. start ≤ count) starts.now }
    ensures { IfOk result (λ list. list ≡ spec.blocks_from at starts.now count) }
{
    let mut list = Items::new(alloc);
    'each: for b in 0..starts.len() {
        let end = end_of(starts, b, count);
        list.push(block(at, starts[b], end))?;
    }
    Ok(list)
}

fn result_type(kinds: &KindTable, ty: &TyText) -> Option<TyScalar>
    ensures { result ≡ option_map codes.scalar_in (types.result_kind (kind_in kinds.now.names) ty.now) }
{
    match ty {
        TyText::Void => None,
        _ => Some(scalar_in(kinds.of(ty))),
    }
}

/// Returns the function of a code whose first instruction has the place `at`, from the bytes of its
/// name, its head and what its items define. O(n) in its parameters, registers and blocks.
pub fn function_code(
    alloc: Global,
    kinds: &KindTable,
    at: u32,
    name: Bytes,
    ty: &TyText,
    params: &[(TyText, Option<Name>)],
    scope: &Scope,
) -> Result<Func, OutOfMemory>
    requires room { at + length scope.now.results < 2 ^ 32 }
    requires registers { length scope.now.types < 2 ^ 32 }
    requires within { All (λ start. start ≤ length scope.now.results) scope.now.starts }
    ensures { IfOk result (λ f. (defs : TypeDefs) (n : Name)
        → name ≡ name_bytes n → kind_in kinds.now.names ≡ kind_of defs
        → f ≡ spec.function_code defs at n ty.now params.now scope.now) }
{
    let blocks = blocks(alloc, at, scope.starts.as_slice(), scope.results.len())?;
    Ok(Func {
        name,
        params: param_types(alloc, kinds, params)?,
        result: result_type(kinds, ty),
        registers: scope.types.len() as u32,
        types: register_types(alloc, scope.types.as_slice())?,
        blocks,
    })
}

#[cfg(test)]
mod tests {
    use super::*;
    use std::test::Fail;

    #[test]
    fn lays_blocks_one_behind_another(rt: HostRuntime) -> Result<(), Fail> {
        let list = blocks(rt.alloc(), 5, &[0, 2, 3], 4)?;
        assert_eq!(rt; list.get(0).copied(), Some(Block { first: 5, len: 2 }));
        assert_eq!(rt; list.get(1).copied(), Some(Block { first: 7, len: 1 }));
        assert_eq!(rt; list.get(2).copied(), Some(Block { first: 8, len: 1 }));
        assert_eq!(rt; list.get(3).copied(), None);
        Ok(())
    }
}
