//! Sizes, alignments and offsets of fields.

ghost use Rattle.std.specs.Prelude.{◌≡◌, ◌<◌, ◌≤◌, ◌^◌, map, take, length, slice_index};
ghost use Rattle.type_layout.specs.Layout.{bytes_of, round_up};
ghost use Rattle.type_layout.specs.Types as spec;
ghost use Rattle.type_layout.specs.Types.{layout_of, layout_step, offsets_from};
ghost use Rattle.type_layout.specs.declared.ty.Ty.TheOpen.{Struct};

use crate::ty::Ty;
use am_base::{MAX_TYPE_BYTES, Width};

/// How many bytes an integer of a width takes, which is its alignment too.
fn bytes(w: Width) -> u64
    ensures value { result ≡ bytes_of w }
    ensures some { 0 < result }
    ensures few { result ≤ 8 }
{
    match w {
        Width::W1 | Width::W8 => 1,
        Width::W16 => 2,
        Width::W32 => 4,
        Width::W64 => 8,
    }
}

/// The size and the alignment of a type, in bytes.
#[derive(Clone, Copy)]
struct Extent {
    size: u64,
    align: u64,
}

/// The least multiple of an alignment that is not below a place.
fn round(at: u64, align: u64) -> u64
    requires some { 0 < align }
    requires small { at ≤ MAX_TYPE_BYTES }
    requires few { align ≤ 8 }
    ensures { result ≡ round_up at align }
{
    at + (align - at % align) % align
}

#[cycle(layout)]
fn layout_type(t: &Ty) -> Extent
    requires { (layout_of t.now).most ≤ MAX_TYPE_BYTES }
    ensures size { result.size ≡ spec.size_of t.now }
    ensures align { result.align ≡ spec.align_of t.now }
    ensures some { 0 < result.align }
    ensures few { result.align ≤ 8 }
{
    match t {
        Ty::Int(w) => Extent {
            size: bytes(*w),
            align: bytes(*w),
        },
        Ty::Ptr => Extent { size: 8, align: 8 },
        Ty::Array(n, of) => {
            let of = layout_type(of.get());
            Extent {
                size: *n * of.size,
                align: of.align,
            }
        }
        Ty::Struct(fields) => layout_struct(fields.as_slice()),
    }
}

#[cycle(layout)]
#[tactic(auto, using(crate::proofs::Layouts::one_most))]
fn layout_struct(fields: &[Ty]) -> Extent
    requires { (layout_step (Struct (map layout_of fields.now))).most ≤ MAX_TYPE_BYTES }
    ensures size { result.size ≡ (layout_step (Struct (map layout_of fields.now))).size }
    ensures align { result.align ≡ (layout_step (Struct (map layout_of fields.now))).align }
    ensures some { 0 < result.align }
    ensures few { result.align ≤ 8 }
{
    let mut end = 0;
    let mut align = 1;
    for t in fields {
        let field = layout_type(t);
        end = round(end, field.align) + field.size;
        align = align.max(field.align);
    }
    Extent {
        size: round(end, align),
        align,
    }
}

/// How many bytes a value of a type takes, with the padding inside it and at its end. The size of the type and of each type inside it is at most
/// `MAX_TYPE_BYTES`.
pub fn size_of(t: &Ty) -> u64
    requires { (layout_of t.now).most ≤ MAX_TYPE_BYTES }
    ensures { result ≡ spec.size_of t.now }
{
    layout_type(t).size
}

/// The alignment of a type in bytes: 1, 2, 4 or 8. The size of the type and of each type inside it is at most `MAX_TYPE_BYTES`.
pub fn align_of(t: &Ty) -> u64
    requires { (layout_of t.now).most ≤ MAX_TYPE_BYTES }
    ensures { result ≡ spec.align_of t.now }
{
    layout_type(t).align
}

/// Where some fields end, one after another.
fn end_of(fields: &[Ty], count: usize) -> u64
    requires within { count ≤ length fields.now }
    requires small { (layout_step (Struct (map layout_of fields.now))).most ≤ MAX_TYPE_BYTES }
    ensures value { result ≡ spec.end_after 0 (map layout_of (take count fields.now)) }
    ensures few { result ≤ MAX_TYPE_BYTES }
{
    let mut end = 0;
    for k in 0..count {
        let field = layout_type(&fields[k]);
        end = round(end, field.align) + field.size;
    }
    end
}

/// Where the field with a number begins.
fn struct_offset(fields: &[Ty], k: u32) -> u64
    requires small { (layout_step (Struct (map layout_of fields.now))).most ≤ MAX_TYPE_BYTES }
    requires field { k < length (layout_step (Struct (map layout_of fields.now))).offsets }
    ensures { result ≡ slice_index (layout_step (Struct (map layout_of fields.now))).offsets k }
{
    let k = k as usize;
    round(end_of(fields, k), layout_type(&fields[k]).align)
}

/// Where a field of a struct begins, in bytes from the beginning of the struct; fields are numbered from 0. The size of the type and of each type inside
/// it is at most `MAX_TYPE_BYTES`, and the type is a struct with that field.
pub fn offset(t: &Ty, field: u32) -> u64
    requires small { (layout_of t.now).most ≤ MAX_TYPE_BYTES }
    requires field { field < length (layout_of t.now).offsets }
    ensures { result ≡ slice_index (layout_of t.now).offsets field }
{
    match t {
        Ty::Struct(fields) => struct_offset(fields.as_slice(), field),
        _ => unreachable!(),
    }
}
