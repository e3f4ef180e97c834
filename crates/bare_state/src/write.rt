//! Writes of registers, in vectors whose room contracts see.
ghost use Rattle.std.specs.Prelude.{◌≡◌, ◌≤◌, ◌+◌, ◌++◌, length, replicate, take, drop, None, vec_capacity};
ghost use Rattle.machine_form.specs.State.{with_writes};

/// Makes some register writes, in order.
pub fn write_registers(registers: &mut [Option<u64>], writes: &[(u32, u64)])
    ensures { registers.new ≡ with_writes registers.old writes.now }
{
    for (r, word) in writes {
        let r = *r as usize;
        if r < registers.len() {
            registers[r] = Some(*word);
        }
    }
}

/// Removes the registers from an end on, and writes those from a base on.
pub fn go_back(registers: &mut Vec<Option<u64>>, end: usize, base: usize, writes: &[(u32, u64)])
    requires nested { base ≤ end }
    requires within { end ≤ length registers.old.items }
    ensures above { drop base registers.new.items ≡ with_writes (drop base (take end registers.old.items)) writes.now }
    ensures below { take base registers.new.items ≡ take base registers.old.items }
    ensures length { length registers.new.items ≡ end }
    ensures room { vec_capacity registers.new ≡ vec_capacity registers.old }
{
    registers.truncate(end);
    write_registers(&mut registers[base..], writes);
}

/// Appends that many registers without a word, in the room that there is.
pub fn push_unset(registers: &mut Vec<Option<u64>>, count: u32)
    requires { length registers.old.items + count ≤ vec_capacity registers.old }
    ensures { registers.new.items ≡ registers.old.items ++ replicate count None }
{
    for _ in 0..count {
        registers.push_reserved(None);
    }
}
