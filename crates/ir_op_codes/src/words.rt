//! The words of constants, and the literal parts of paths.
ghost use Rattle.std.specs.Prelude.{◌≡◌, ◌*ℤ◌, ◌+ℤ◌, pos, map, IfOk, false};
ghost use Rattle.am_base.specs.Word.{signed};
ghost use Rattle.am_base.specs.Word as words;
ghost use Rattle.am_base.specs.declared.word.Width.TheVariants.{W64};
ghost use Rattle.ir_rules.specs.Paths.{index_operand};
ghost use Rattle.ir_rules.specs.Paths as rules;
ghost use Rattle.ir_rules.specs.Types.{is_large};
ghost use Rattle.ir_rules.specs.Memory as memory;
ghost use Rattle.ir_op_codes.specs.Paths.{meant, moves};
ghost use Rattle.ir_op_codes.specs.Words.{IsFit};

use crate::names::Names;
use crate::paths::{Move, Step, steps_of};
use am_base::{Cast, OutOfMemory, Width, convert};
use am_lists::{Items, TryClone};
use code_form::TyScalar;
use ir_scopes::word_of;
use ir_tree::{Name, Opd, TyText};
use ir_types::Types;
use std::alloc::Global;

/// Returns the width of words of a type; a pointer has 64 bits.
pub fn kind_width(t: Option<TyScalar>) -> Width
    ensures { result ≡ rules.kind_width t }
{
    match t {
        None => Width::W32,
        Some(TyScalar::Int(w)) => w,
        Some(TyScalar::Ptr) => Width::W64,
    }
}

/// Returns a number of a width times a size, modulo 2^64.
fn scaled(w: Width, z: i128, size: u64) -> u64
    ensures { result ≡ words.word_of W64 (signed w (words.word_of w z) *ℤ pos size) }
{
    size.wrapping_mul(convert(Cast::SExt, w, Width::W64, word_of(w, z)))
}

/// Returns what an index adds to the offset by itself, modulo 2^64.
fn literal_of(types: &Types<'_>, index: &(TyText, Opd), step: Step) -> u64
    ensures { result ≡ words.word_of W64 (memory.literal_of types.now.defs (index.now, meant step)) }
{
    match step {
        Step::Field(offset) => offset,
        Step::Scaled(size) => match index.1 {
            Opd::Number(z) => scaled(kind_width(types.kind(&index.0)), z, size),
            _ => 0,
        },
    }
}

/// Returns the literal part of the offset of a path, modulo 2^64.
pub fn literal_part(types: &Types<'_>, path: &[Move<'_>]) -> u64
    ensures { result ≡ words.word_of W64 (memory.literal_part types.now.defs (moves path.now)) }
{
    let mut sum: u64 = 0;
    'each: for m in path {
        let literal = literal_of(types, m.0, m.1);
        sum = sum.wrapping_add(literal);
    }
    sum
}

fn index_operands(
    alloc: Global,
    indices: &[(TyText, i128)],
) -> Result<Items<(TyText, Opd)>, OutOfMemory>
    ensures { IfOk result (λ list. list ≡ map index_operand indices.now) }
{
    let mut list = Items::new(alloc);
    'each: for index in indices {
        list.push((index.0.try_clone(alloc)?, Opd::Number(index.1)))?;
    }
    Ok(list)
}

fn global_part(
    alloc: Global,
    types: &mut Types<'_>,
    names: &Names<'_>,
    part: &(TyText, TyText, Name, Items<(TyText, i128)>),
) -> Result<u64, OutOfMemory>
    requires { is_large types.old.defs part.now.0 ≡ false }
    ensures defs { types.new.defs ≡ types.old.defs }
    ensures word { IfOk result (λ word. word ≡ words.word_of W64 (pos (memory.address_in names.now.addresses.now part.now.2)
        +ℤ memory.literal_part types.old.defs (memory.steps_of types.old.defs part.now.0 (map index_operand part.now.3)))) }
{
    let indices = index_operands(alloc, part.3.as_slice())?;
    let path = steps_of(alloc, types, &part.0, indices.as_slice())?;
    let literal = literal_part(types, path.as_slice());
    Ok(names.address(&part.2).wrapping_add(literal))
}

/// Returns the word of a constant; 0 for a local.
pub fn constant_word(
    alloc: Global,
    types: &mut Types<'_>,
    names: &Names<'_>,
    w: Width,
    a: &Opd,
) -> Result<u64, OutOfMemory>
    requires { IsFit types.old.defs a.now }
    ensures defs { types.new.defs ≡ types.old.defs }
    ensures word { IfOk result (λ word.
        word ≡ memory.constant_word types.old.defs names.now.addresses.now w a.now) }
{
    match a {
        Opd::Global(name) => Ok(names.address(name)),
        Opd::Number(z) => Ok(word_of(w, *z)),
        Opd::True => Ok(1),
        Opd::Get(part) => global_part(alloc, types, names, part.get()),
        _ => Ok(0),
    }
}
