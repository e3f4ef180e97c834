//! Sets of members, over a small table of replacements.
ghost use Rattle.std.specs.Prelude.{◌≡◌, ℕ, ◌≤◌, length, IfOk};
ghost use Rattle.code_form.specs.Variant.{variant_of};

use crate::tests::{freeze, plain_code};
use am_base::{MAX_MUTANTS, OutOfMemory};
use am_lists::Items;
use code_form::{Code, Place, Variants};
use member_sets::Members;
use std::alloc::Global;
use std::test::Fail;

/// A table of five mutants, where mutants 1 and 3 have different replacements at place 0.
fn replaced(alloc: Global, code: &Code) -> Result<Variants, OutOfMemory>
    requires { length code.now.instrs ≡ 1 }
    ensures { IfOk result (λ table. (m : ℕ) → variant_of table m 0 ≤ 2) }
{
    let mut table = Variants::new(alloc, 5)?;
    table.add(alloc, code, 1, Place(0), freeze(8))?;
    table.add(alloc, code, 3, Place(0), freeze(9))?;
    Ok(table)
}

fn table_of_five(alloc: Global) -> Result<Variants, OutOfMemory>
    ensures { IfOk result (λ table. (m : ℕ) → variant_of table m 0 ≤ 2) }
{
    let code = plain_code(alloc, 1)?;
    replaced(alloc, &code)
}

/// The parts of these five mutants by the classes of the variants 0, 1 and 2 at place 0.
fn parts_of_five(alloc: Global, class_of: &[u32]) -> Result<Items<Members>, OutOfMemory>
    requires { length class_of.now ≡ 3 }
{
    let table = table_of_five(alloc)?;
    let members = Members::all(alloc, 5)?;
    members.split_by(alloc, &table, Place(0), class_of)
}

/// A table of 4,096 mutants, where mutants 1 and 4,000 have the same replacement at place 0, and
/// mutant 3 has another one.
fn replaced_far(alloc: Global, code: &Code) -> Result<Variants, OutOfMemory>
    requires { length code.now.instrs ≡ 1 }
    ensures { IfOk result (λ table. (m : ℕ) → variant_of table m 0 ≤ 3) }
{
    let mut table = Variants::new(alloc, 4096)?;
    table.add(alloc, code, 1, Place(0), freeze(8))?;
    table.add(alloc, code, 3, Place(0), freeze(9))?;
    table.add(alloc, code, 4000, Place(0), freeze(8))?;
    Ok(table)
}

fn table_of_many(alloc: Global) -> Result<Variants, OutOfMemory>
    ensures { IfOk result (λ table. (m : ℕ) → variant_of table m 0 ≤ 3) }
{
    let code = plain_code(alloc, 1)?;
    replaced_far(alloc, &code)
}

/// The parts of these 4,096 mutants by the classes of the variants 0, 1 and 2 at place 0, of four.
fn parts_of_many(alloc: Global, class_of: &[u32]) -> Result<Items<Members>, OutOfMemory>
    requires { length class_of.now ≡ 4 }
{
    let table = table_of_many(alloc)?;
    let members = Members::all(alloc, 4096)?;
    members.split_by(alloc, &table, Place(0), class_of)
}

/// Whether all calls on the set of the numbers below `n` tell the same of it.
fn is_whole(alloc: Global, n: u32) -> Result<bool, OutOfMemory>
    requires some { 1 ≤ n }
    requires few { n ≤ MAX_MUTANTS }
{
    let members = Members::all(alloc, n)?.share()?;
    let list = members.list(alloc)?;
    let ends = (members.least(), members.len()) == (0, n);
    let last = members.has(n - 1) && !members.has(n);
    let index = members.index_of(n - 1) == Some(n as usize - 1) && members.index_of(n).is_none();
    let listed = list
        .as_slice()
        .iter()
        .enumerate()
        .all(|(at, m)| *m as usize == at);
    Ok(ends && last && index && listed && list.len() == n as usize)
}

/// Whether the part at an index has exactly these members.
fn has_part(parts: &Items<Members>, at: usize, numbers: &[u32]) -> bool {
    match parts.get(at) {
        Some(part) => {
            part.len() as usize == numbers.len() && numbers.iter().all(|m| part.has(*m))
        }
        None => false,
    }
}

/// Whether all calls on the set of 0 to 4 tell this.
fn is_five(alloc: Global) -> Result<bool, OutOfMemory> {
    let members = Members::all(alloc, 5)?;
    let list = members.list(alloc)?;
    Ok(
        list.as_slice() == [0, 1, 2, 3, 4].as_slice()
            && (members.least(), members.len()) == (0, 5)
            && (members.has(4), members.has(5)) == (true, false),
    )
}

/// Whether five mutants have two parts where both replacements have one class, and three where each
/// has its own.
fn parts_five(alloc: Global) -> Result<bool, OutOfMemory> {
    let two = parts_of_five(alloc, &[7, 3, 3])?;
    let three = parts_of_five(alloc, &[7, 3, 9])?;
    Ok(
        two.len() == 2
            && has_part(&two, 0, &[0, 2, 4])
            && has_part(&two, 1, &[1, 3])
            && three.len() == 3
            && has_part(&three, 0, &[0, 2, 4])
            && has_part(&three, 1, &[1])
            && has_part(&three, 2, &[3]),
    )
}

/// Whether this is the part of the originals among the 4,096 mutants where each replacement has a
/// class of its own.
fn is_rest(rest: &Members) -> bool {
    (rest.least(), rest.len()) == (0, 4093)
        && (rest.has(1), rest.has(2), rest.has(4000)) == (false, true, false)
        && (rest.index_of(2), rest.index_of(3)) == (Some(1), None)
        && (rest.index_of(4001), rest.index_of(4095)) == (Some(3998), Some(4092))
}

/// Whether the 4,096 mutants have three parts where each replacement has a class of its own.
fn parts_in_three(alloc: Global) -> Result<bool, OutOfMemory> {
    let parts = parts_of_many(alloc, &[7, 3, 9, 0])?;
    let is_first = match parts.get(0) {
        Some(rest) => is_rest(rest),
        None => false,
    };
    Ok(is_first && parts.len() == 3 && has_part(&parts, 1, &[1, 4000]) && has_part(&parts, 2, &[3]))
}

/// Whether they have two where mutant 3's has that of the originals.
fn parts_in_two(alloc: Global) -> Result<bool, OutOfMemory> {
    let parts = parts_of_many(alloc, &[5, 3, 5, 0])?;
    let is_first = match parts.get(0) {
        Some(rest) => (rest.least(), rest.len(), rest.has(3)) == (0, 4094, true),
        None => false,
    };
    Ok(is_first && parts.len() == 2 && has_part(&parts, 1, &[1, 4000]))
}

#[test]
fn sets_and_their_parts(rt: HostRuntime) -> Result<(), Fail> {
    let alloc = rt.alloc();
    assert!(rt; is_five(alloc)?);
    assert!(rt; parts_five(alloc)?);
    assert!(rt; parts_in_three(alloc)?);
    assert!(rt; parts_in_two(alloc)?);
    Ok(())
}

/// Below whole words, at whole words and past them.
#[test]
fn whole_sets(rt: HostRuntime) -> Result<(), Fail> {
    let alloc = rt.alloc();
    assert!(rt; is_whole(alloc, 1)?);
    assert!(rt; is_whole(alloc, 63)?);
    assert!(rt; is_whole(alloc, 64)?);
    assert!(rt; is_whole(alloc, 65)?);
    assert!(rt; is_whole(alloc, 4096)?);
    assert!(rt; is_whole(alloc, 65536)?);
    Ok(())
}
