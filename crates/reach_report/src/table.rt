//! A table with a number, or none, for each mutant.

ghost use Rattle.std.specs.Prelude.{◌≡◌, ◌<◌, length, slice_index_or, Option, None};
ghost use Rattle.std.specs.List.{fold};
ghost use Rattle.reach_report.specs.Pass.{with_lesser, with_values};
ghost use Rattle.reach_report.specs.Pass as spec;

/// The entry of a mutant, and none where there is none.
pub(crate) fn entry_of(table: &[Option<u64>], m: u32) -> Option<u64>
    ensures { result ≡ slice_index_or table.now m None }
{
    match table.get(m as usize) {
        Some(entry) => *entry,
        None => None,
    }
}

/// The value, or the entry where that is less.
fn lesser(value: u64, entry: Option<u64>) -> u64
    ensures { result ≡ spec.lesser value entry }
{
    match entry {
        Some(old) => if old < value { old } else { value },
        None => value,
    }
}

/// Makes the entry of a mutant no greater than a value.
fn lower_one(table: &mut Vec<Option<u64>>, m: u32, value: u64)
    ensures { table.new.items ≡ with_lesser value table.old.items m }
{
    let at = m as usize;
    if at < table.len() {
        let least = lesser(value, entry_of(table, m));
        table[at] = Some(least);
    }
}

/// Makes the entries of these mutants no greater than a value, where there is one.
pub(crate) fn lower_each(table: &mut Vec<Option<u64>>, mutants: &[u32], value: Option<u64>)
    ensures { table.new.items ≡ with_values value table.old.items mutants.now }
{
    if let Some(value) = value {
        lower_all(table, mutants, value);
    }
}

/// Makes the entries of these mutants no greater than a value.
fn lower_all(table: &mut Vec<Option<u64>>, mutants: &[u32], value: u64)
    ensures { table.new.items ≡ fold (with_lesser value) table.old.items mutants.now }
{
    'mutants: for m in mutants {
        lower_one(table, *m, value);
    }
}
