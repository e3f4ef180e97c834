//! `getelementptr`.
ghost use Rattle.std.specs.Prelude.{◌≡◌, ◌<◌, ◌^◌, All, map};
ghost use Rattle.std.specs.Option.{option_map};
ghost use Rattle.am_base.specs.Word.{word_of};
ghost use Rattle.am_base.specs.declared.word.Width.TheVariants.{W64};
ghost use Rattle.machine_form.specs.Straight.{values_of, scaled_sum};
ghost use Rattle.machine_form.specs.Next.{get_change};
ghost use Rattle.lane_eval.specs.Operands.{HoldsWord};

use crate::step::{gives, traps};
use crate::view::View;
use am_base::{Cast, Trap, Width, convert};
use change_set::Change;
use code_form::Operand;

/// The sum of the indices, each signed in its width and scaled, modulo 2^64, or nothing where one of them isn't set.
fn scaled<V: View>(s: &V, indices: &[(u64, Width, Operand)]) -> Option<u64>
    requires { All (λ i. HoldsWord (V.state s.now) i.1 i.2) indices.now }
    ensures { result ≡ option_map (λ xs. word_of W64 (scaled_sum indices.now xs)) (values_of (V.state s.now) (map (λ i. i.2) indices.now)) }
{
    match indices.split_first() {
        None => Some(0),
        Some((i, rest)) => {
            let x = s.value(i.2)?;
            let more = scaled(s, rest)?;
            let index = convert(Cast::SExt, i.1, Width::W64, x);
            Some(i.0.wrapping_mul(index).wrapping_add(more))
        }
    }
}

/// `getelementptr`: the base, the literal part of the offset, and the other indices with their scales in bytes and their widths.
pub fn get<V: View>(
    s: &V,
    r: Option<u32>,
    a: Operand,
    literal: u64,
    indices: &[(u64, Width, Operand)],
    out: &mut Change,
)
    requires { All (λ i. HoldsWord (V.state s.now) i.1 i.2) indices.now }
    ensures { out.new ≡ get_change (V.state s.now) r a literal indices.now }
{
    let Some(base) = s.value(a) else {
        return traps(s, Trap::UnsetRegister, out);
    };
    let Some(offset) = scaled(s, indices) else {
        return traps(s, Trap::UnsetRegister, out);
    };
    let word = base.wrapping_add(literal).wrapping_add(offset);
    gives(s, r, word, out)
}
