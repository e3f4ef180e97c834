//! Operands by registers and words.
ghost use Rattle.std.specs.Prelude.{◌≡◌, map, IfOk};
ghost use Rattle.ir_rules.specs.Codes as codes;
ghost use Rattle.ir_op_codes.specs.Words.{IsFit};
ghost use Rattle.ir_op_codes.specs.Settings.{setting_by, AreFit};

use crate::names::Names;
use crate::words::{constant_word, kind_width};
use am_base::{OutOfMemory, Width};
use am_lists::Items;
use code_form::Operand;
use ir_tree::{Opd, TyText};
use ir_types::Types;
use std::alloc::Global;

/// Returns an operand of a width: the register of a local, or a word.
pub fn operand(
    alloc: Global,
    types: &mut Types<'_>,
    names: &Names<'_>,
    w: Width,
    a: &Opd,
) -> Result<Operand, OutOfMemory>
    requires { IsFit types.old.defs a.now }
    ensures defs { types.new.defs ≡ types.old.defs }
    ensures operand { IfOk result (λ b. b
        ≡ codes.operand_code (setting_by types.old.defs names.now) names.now.addresses.now w a.now) }
{
    match a {
        Opd::Local(name) => Ok(Operand::Reg(names.register(name))),
        _ => Ok(Operand::Word(constant_word(alloc, types, names, w, a)?)),
    }
}

/// Returns an operand of the type that is written for it.
pub fn typed(
    alloc: Global,
    types: &mut Types<'_>,
    names: &Names<'_>,
    ty: &TyText,
    a: &Opd,
) -> Result<Operand, OutOfMemory>
    requires { IsFit types.old.defs a.now }
    ensures defs { types.new.defs ≡ types.old.defs }
    ensures operand { IfOk result (λ b. b
        ≡ codes.typed_code (setting_by types.old.defs names.now) names.now.addresses.now ty.now a.now) }
{
    let w = kind_width(types.kind(ty));
    operand(alloc, types, names, w, a)
}

/// Returns two operands, each of the type that is written for it.
pub fn two(
    alloc: Global,
    types: &mut Types<'_>,
    names: &Names<'_>,
    a: (&TyText, &Opd),
    b: (&TyText, &Opd),
) -> Result<(Operand, Operand), OutOfMemory>
    requires first { IsFit types.old.defs a.1.now }
    requires second { IsFit types.old.defs b.1.now }
    ensures defs { types.new.defs ≡ types.old.defs }
    ensures first { let s = setting_by types.old.defs names.now in
        IfOk result (λ r. r.0 ≡ codes.typed_code s names.now.addresses.now a.entry.0.now a.entry.1.now) }
    ensures second { let s = setting_by types.old.defs names.now in
        IfOk result (λ r. r.1 ≡ codes.typed_code s names.now.addresses.now b.entry.0.now b.entry.1.now) }
{
    let first = typed(alloc, types, names, a.0, a.1)?;
    let second = typed(alloc, types, names, b.0, b.1)?;
    Ok((first, second))
}

/// Returns operands, each of the type that is written for it. O(n) expected in what is written.
pub fn operands(
    alloc: Global,
    types: &mut Types<'_>,
    names: &Names<'_>,
    list: &[(TyText, Opd)],
) -> Result<Items<Operand>, OutOfMemory>
    requires { AreFit types.old.defs list.now }
    ensures defs { types.new.defs ≡ types.old.defs }
    ensures operands { let s = setting_by types.old.defs names.now in IfOk result (λ bs.
        bs ≡ map (λ v. codes.typed_code s names.now.addresses.now v.0 v.1) list.now) }
{
    let mut operands = Items::new(alloc);
    'each: for v in list {
        let operand = typed(alloc, types, names, &v.0, &v.1)?;
        operands.push(operand)?;
    }
    Ok(operands)
}
