//! Numbers found by a table that has the index of each, at the place that the number names.

ghost use Rattle.std.specs.Prelude.{◌≡◌, ℕ, ◌==◌, ◌^◌, ◌<◌, ◌≤◌, ◌++◌, ◌∷◌, [], false, length, slice_index, OnOk};
ghost use Rattle.std.specs.List.{list_any};
ghost use Rattle.member_sets.specs.Marks.{AreMarked};

use am_base::OutOfMemory;

/// Makes the table at least that long. The entries that it has stay.
pub fn widen(table: &mut Vec<u32>, len: usize) -> Result<(), OutOfMemory>
    ensures long { OnOk result (len ≤ length table.new.items) }
    ensures longer { length table.old.items ≤ length table.new.items }
    ensures kept { (i : ℕ) → i < length table.old.items → slice_index table.new.items i ≡ slice_index table.old.items i }
{
    if table.len() < len {
        table.resize(len, 0)?;
    }
    Ok(())
}

/// Whether a number stands among these, each of which has its index in the table of marks. It takes
/// the same time whatever their number.
pub fn is_marked(marks: &[u32], numbers: &[u32], number: u32) -> bool
    requires { AreMarked numbers.now marks.now }
    ensures { result ≡ list_any (λ n. n == number) numbers.now }
{
    let at = number as usize;
    if at >= marks.len() {
        return false;
    }
    let mark = marks[at] as usize;
    mark < numbers.len() && numbers[mark] == number
}

/// Puts a number that isn't among these behind them, and its index into the table of marks, which
/// grows where it must.
pub fn mark(marks: &mut Vec<u32>, numbers: &mut Vec<u32>, number: u32) -> Result<(), OutOfMemory>
    requires marked { AreMarked numbers.old.items marks.old.items }
    requires new { list_any (λ n. n == number) numbers.old.items ≡ false }
    requires few { length numbers.old.items < 2 ^ 32 }
    ensures marked { OnOk result (AreMarked numbers.new.items marks.new.items) }
    ensures pushed { OnOk result (numbers.new.items ≡ numbers.old.items ++ number ∷ []) }
{
    let at = number as usize;
    widen(marks, at + 1)?;
    marks[at] = numbers.len() as u32;
    numbers.push(number)?;
    Ok(())
}
