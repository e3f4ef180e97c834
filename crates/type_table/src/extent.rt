//! How much room a value takes, by the room of the parts of its type.
ghost use Rattle.std.specs.Prelude.{◌≡◌, ◌<◌, ◌≤◌, ◌+◌, Some, [], IfOk};
ghost use Rattle.std.specs.Option.{option_copied};
ghost use Rattle.type_layout.specs.Layout.{round_up, bytes_of};
ghost use Rattle.type_table.specs.Extents as spec;
ghost use Rattle.type_table.specs.Table.{flat};

use crate::shape::{Extent, Shape};
use am_base::{MAX_TYPE_BYTES, OutOfMemory, Width};
use am_lists::Items;
use std::alloc::Global;

/// Some fields of a struct, one behind another.
#[derive(Drop)]
pub struct Fields {
    /// Where they end.
    pub end: u64,
    /// The greatest of their alignments, 1 without fields.
    pub align: u64,
    /// Where they begin.
    pub offsets: Items<u64>,
}

fn limited(n: u64) -> u64
    ensures value { result ≡ spec.limited n }
    ensures few { result ≤ MAX_TYPE_BYTES }
{
    n.min(MAX_TYPE_BYTES)
}

fn near(n: u64) -> u64
    ensures value { result ≡ spec.near n }
    ensures some { 0 < result }
    ensures few { result ≤ 8 }
{
    n.max(1).min(8)
}

/// The least multiple of an alignment that is not below a place.
fn round(at: u64, align: u64) -> u64
    requires some { 0 < align }
    requires small { at ≤ MAX_TYPE_BYTES }
    requires few { align ≤ 8 }
    ensures value { result ≡ round_up at align }
    ensures few { result ≤ MAX_TYPE_BYTES + 8 }
{
    at + (align - at % align) % align
}

fn bytes(w: Width) -> u64
    ensures { result ≡ bytes_of w }
{
    match w {
        Width::W1 | Width::W8 => 1,
        Width::W16 => 2,
        Width::W32 => 4,
        Width::W64 => 8,
    }
}

/// Returns the room of a value without fields.
fn plain(alloc: Global, size: u64, align: u64) -> Extent
    ensures size { result.size ≡ size }
    ensures align { result.align ≡ align }
    ensures offsets { result.offsets ≡ [] }
{
    Extent {
        size,
        align,
        offsets: Items::new(alloc),
    }
}

fn array_extent(alloc: Global, n: u64, of: Option<&Extent>) -> Option<Extent>
    ensures { result ≡ spec.array_extent n (option_copied of.entry) }
{
    match of {
        None => None,
        Some(of) => {
            let size = n as u128 * of.size as u128;
            if size > MAX_TYPE_BYTES as u128 {
                None
            } else {
                Some(plain(alloc, size as u64, of.align))
            }
        }
    }
}

/// Returns some fields with one more behind them. `None` where they end behind the greatest size.
fn fields_with(fields: Fields, of: &Extent) -> Result<Option<Fields>, OutOfMemory>
    ensures { IfOk result (λ more. more ≡ spec.fields_with fields of.now) }
{
    let at = round(limited(fields.end), near(of.align));
    let end = at + limited(of.size);
    if end > MAX_TYPE_BYTES {
        return Ok(None);
    }
    let align = fields.align.max(of.align);
    let mut offsets = fields.offsets;
    offsets.push(at)?;
    Ok(Some(Fields {
        end,
        align,
        offsets,
    }))
}

fn with_field(fields: Option<Fields>, of: Option<&Extent>) -> Result<Option<Fields>, OutOfMemory>
    ensures { IfOk result (λ more. more ≡ spec.with_field fields (option_copied of.entry)) }
{
    match (fields, of) {
        (Some(fields), Some(of)) => fields_with(fields, of),
        _ => Ok(None),
    }
}

fn ended(fields: Option<Fields>) -> Option<Extent>
    ensures { result ≡ spec.ended fields }
{
    match fields {
        None => None,
        Some(fields) => {
            let size = round(limited(fields.end), near(fields.align));
            if size > MAX_TYPE_BYTES {
                None
            } else {
                Some(Extent {
                    size,
                    align: fields.align,
                    offsets: fields.offsets,
                })
            }
        }
    }
}

/// The room that the type with a number takes.
pub fn extent_in(extents: &[Option<Extent>], n: usize) -> Option<&Extent>
    ensures { option_copied result ≡ spec.extent_in extents.now n }
{
    match extents.get(n) {
        None => None,
        Some(extent) => extent.as_ref(),
    }
}

fn fields_in(
    alloc: Global,
    extents: &[Option<Extent>],
    parts: &[usize],
) -> Result<Option<Fields>, OutOfMemory>
    ensures { IfOk result (λ fields. fields ≡ spec.fields_in extents.now parts.now) }
{
    let mut fields = Some(Fields {
        end: 0,
        align: 1,
        offsets: Items::new(alloc),
    });
    'each: for part in parts {
        fields = with_field(fields, extent_in(extents, *part))?;
    }
    Ok(fields)
}

/// Returns the room that a value of a type takes, by the room of the types below it. `None` where
/// that of a part is `None` or the type is larger than `MAX_TYPE_BYTES`.
pub fn extent_by(
    alloc: Global,
    extents: &[Option<Extent>],
    shape: &Shape,
) -> Result<Option<Extent>, OutOfMemory>
    ensures { IfOk result (λ extent. extent ≡ spec.extent_by extents.now shape.now) }
{
    match shape {
        Shape::Int(w) => Ok(Some(plain(alloc, bytes(*w), bytes(*w)))),
        Shape::Ptr => Ok(Some(plain(alloc, 8, 8))),
        Shape::Array(n, of) => Ok(array_extent(alloc, *n, extent_in(extents, *of))),
        Shape::Struct(parts) => Ok(ended(fields_in(alloc, extents, parts.as_slice())?)),
    }
}
