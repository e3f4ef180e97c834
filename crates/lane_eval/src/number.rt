//! The number that some bytes encode.
ghost use Rattle.std.specs.Prelude.{◌≡◌, ◌<◌, ◌≤◌, ◌*◌, ◌^◌, length};
ghost use Rattle.machine_form.specs.Straight.{number_of};

/// The number that at most eight bytes encode, the lowest byte first.
pub fn number(bytes: &[u8]) -> u64
    requires { length bytes.now ≤ 8 }
    ensures value { result ≡ number_of bytes.now }
    ensures small { result < 2 ^ (8 * length bytes.now) }
{
    match bytes.split_first() {
        None => 0,
        Some((b, rest)) => u64::from(*b) + 256 * number(rest),
    }
}
