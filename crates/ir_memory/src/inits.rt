//! The bytes of initialisers.
ghost use Rattle.std.specs.Prelude.{◌≡◌, ◌++◌, All, List, [], ℕ, length, map, OnOk, false};
ghost use Rattle.std.specs.List.{flat_map, fold};
ghost use Rattle.ir_rules.specs.Types.{is_large, expanded};
ghost use Rattle.ir_rules.specs.Memory.{constant_bytes, init_bytes, with_field, padded};
ghost use Rattle.ir_op_codes.specs.Words.{IsFit};
ghost use Rattle.type_layout.specs.Types.{size_of};
ghost use Rattle.ir_memory.specs.Inits.{IsSmall, AreSmall, element_bytes, element};

use crate::bytes::{pad, pad_field, pad_to, write_word};
use crate::rooms::room_of;
use am_base::OutOfMemory;
use am_lists::Bytes;
use ir_op_codes::{Names, constant_word, kind_width};
use ir_tree::{Init, Opd, TyText};
use ir_types::Types;
use std::alloc::Global;

/// Appends the bytes of a constant of a type.
fn write_constant(
    alloc: Global,
    types: &mut Types<'_>,
    names: &Names<'_>,
    buffer: &mut Bytes,
    ty: &TyText,
    a: &Opd,
) -> Result<(), OutOfMemory>
    requires small { is_large types.old.defs ty.now ≡ false }
    requires fit { IsFit types.old.defs a.now }
    ensures defs { types.new.defs ≡ types.old.defs }
    ensures bytes { OnOk result (buffer.new ≡ buffer.old
        ++ constant_bytes types.old.defs names.now.addresses.now (expanded types.old.defs ty.now) a.now) }
{
    let room = room_of(alloc, types, ty)?;
    match types.kind(ty) {
        None => pad(buffer, room.0),
        Some(kind) => {
            let word = constant_word(alloc, types, names, kind_width(Some(kind)), a)?;
            write_word(buffer, room.0, word)
        }
    }
}

fn write_text(buffer: &mut Bytes, text: &Bytes) -> Result<(), OutOfMemory>
    ensures { OnOk result (buffer.new ≡ buffer.old ++ text.now) }
{
    buffer.extend(text.as_slice())?;
    Ok(())
}

/// Appends the bytes of an initialiser of a type. O(n) expected in what is written and in the
/// bytes.
#[cycle(inits)]
pub fn write_init(
    alloc: Global,
    types: &mut Types<'_>,
    names: &Names<'_>,
    buffer: &mut Bytes,
    ty: &TyText,
    init: &Init,
) -> Result<(), OutOfMemory>
    requires { IsSmall types.old.defs ty.now init.now }
    ensures defs { types.new.defs ≡ types.old.defs }
    ensures bytes { OnOk result (buffer.new ≡ buffer.old
        ++ init_bytes types.old.defs names.now.addresses.now init.now (expanded types.old.defs ty.now)) }
{
    match init {
        Init::One(a) => write_constant(alloc, types, names, buffer, ty, a),
        Init::Text(text) => write_text(buffer, text),
        Init::Array(list) => write_elements(alloc, types, names, buffer, list.as_slice()),
        Init::Struct(list) => write_struct(alloc, types, names, buffer, ty, list.as_slice()),
    }
}

/// Appends the bytes of the elements of an array.
#[cycle(inits)]
fn write_elements(
    alloc: Global,
    types: &mut Types<'_>,
    names: &Names<'_>,
    buffer: &mut Bytes,
    list: &[(TyText, Init)],
) -> Result<(), OutOfMemory>
    requires { AreSmall types.old.defs list.now }
    ensures defs { types.new.defs ≡ types.old.defs }
    ensures bytes { OnOk result (buffer.new ≡ buffer.old
        ++ flat_map (element_bytes types.old.defs names.now.addresses.now) list.now) }
{
    'each: for e in list {
        write_init(alloc, types, names, buffer, &e.0, &e.1)?;
    }
    Ok(())
}

/// Appends a field of a struct that begins at a place of the buffer, and zeros before it.
#[cycle(inits)]
fn write_field(
    alloc: Global,
    types: &mut Types<'_>,
    names: &Names<'_>,
    buffer: &mut Bytes,
    start: usize,
    field: &(TyText, Init),
) -> Result<(), OutOfMemory>
    requires { IsSmall types.old.defs field.now.0 field.now.1 }
    ensures defs { types.new.defs ≡ types.old.defs }
    ensures bytes { OnOk result ((front bytes : List ℕ) → buffer.old ≡ front ++ bytes → start ≡ length front
        → buffer.new ≡ front ++ with_field types.old.defs bytes (element types.old.defs names.now.addresses.now field.now)) }
{
    let room = room_of(alloc, types, &field.0)?;
    pad_field(buffer, start, room.1)?;
    write_init(alloc, types, names, buffer, &field.0, &field.1)?;
    Ok(())
}

/// Appends the fields of a struct that begins at a place of the buffer.
#[cycle(inits)]
fn write_fields(
    alloc: Global,
    types: &mut Types<'_>,
    names: &Names<'_>,
    buffer: &mut Bytes,
    start: usize,
    list: &[(TyText, Init)],
) -> Result<(), OutOfMemory>
    requires { AreSmall types.old.defs list.now }
    ensures defs { types.new.defs ≡ types.old.defs }
    ensures bytes { OnOk result ((front bytes : List ℕ) → buffer.old ≡ front ++ bytes → start ≡ length front
        → buffer.new ≡ front ++ fold (with_field types.old.defs) bytes
        (map (element types.old.defs names.now.addresses.now) list.now)) }
{
    'each: for e in list {
        write_field(alloc, types, names, buffer, start, e)?;
    }
    Ok(())
}

/// Appends the bytes of a struct of a type.
#[cycle(inits)]
fn write_struct(
    alloc: Global,
    types: &mut Types<'_>,
    names: &Names<'_>,
    buffer: &mut Bytes,
    ty: &TyText,
    list: &[(TyText, Init)],
) -> Result<(), OutOfMemory>
    requires { (is_large types.old.defs ty.now ≡ false) × AreSmall types.old.defs list.now }
    ensures defs { types.new.defs ≡ types.old.defs }
    ensures bytes { OnOk result (buffer.new ≡ buffer.old ++ padded (size_of (expanded types.old.defs ty.now))
        (fold (with_field types.old.defs) [] (map (element types.old.defs names.now.addresses.now) list.now))) }
{
    let room = room_of(alloc, types, ty)?;
    let start = buffer.len();
    write_fields(alloc, types, names, buffer, start, list)?;
    pad_to(buffer, start, room.0)?;
    Ok(())
}
