//! A number of a change, by which equal changes are found without comparing each with each.
ghost use Rattle.std.specs.Prelude.{◌≡◌};
ghost use Rattle.machine_parts.specs.Keys.{mix, control_part, ending_part, change_key};

use am_base::Ending;
use change_set::{Change, Control};

/// What a key is multiplied by before the next part is added: the prime of the 64-bit FNV hash.
pub const FACTOR: u64 = 1_099_511_628_211;

/// The key with one part more.
fn mixed(key: u64, part: u64) -> u64
    ensures { result ≡ mix key part }
{
    key.wrapping_mul(FACTOR).wrapping_add(part)
}

/// The word of an ending, and 0 where it has none.
fn of_ending(ending: Ending) -> u64
    ensures { result ≡ ending_part ending }
{
    match ending {
        Ending::Return(Some(word)) => word,
        Ending::Exit(word) => word,
        _ => 0,
    }
}

/// The block, the function or the word of a control, and 0 where it has none.
fn of_control(control: Control) -> u64
    ensures { result ≡ control_part control }
{
    match control {
        Control::Jump(block) => u64::from(block),
        Control::Enter(function) => u64::from(function),
        Control::End(ending) => of_ending(ending),
        _ => 0,
    }
}

/// The key of a change: its control, its stack top, its output byte and all that it writes, mixed.
/// Equal changes have equal keys.
pub fn key_of(change: &Change) -> u64
    ensures { result ≡ change_key change.now }
{
    let put = match change.put {
        Some(byte) => u64::from(byte),
        None => 0,
    };
    let first = mixed(
        mixed(of_control(change.control), u64::from(change.top)),
        put,
    );
    let words = change.writes.as_slice().iter();
    let key = words.fold(
        first,
        |key, write| mixed(mixed(key, u64::from(write.0)), write.1),
    );
    let bytes = change.bytes.as_slice().iter();
    bytes.fold(
        key,
        |key, write| mixed(mixed(key, u64::from(write.0)), u64::from(write.1)),
    )
}
