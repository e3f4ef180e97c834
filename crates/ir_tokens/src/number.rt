//! The values of digits.
ghost use Rattle.ir_tokens.specs.Tokens.{is_digits};
ghost use Rattle.ir_tokens.specs.Tokens.{IsSmallNumber};
ghost use Rattle.std.specs.Char.{is_ascii_digit};
ghost use Rattle.std.specs.List.{list_all};
ghost use Rattle.std.specs.Option.{SomeIff};
ghost use Rattle.std.specs.Prelude.{◌<◌, ◌≡◌, ◌^◌, IsTrue, length};
ghost use Rattle.std.specs.Str.Parse.{digits_value};

fn all_digits(text: &[u8]) -> bool
    ensures { result ≡ list_all is_ascii_digit text.now }
{
    text.iter().all(|b| b.is_ascii_digit())
}

/// Whether the text is one or more digits.
pub fn is_digits(text: &[u8]) -> bool
    ensures { result ≡ is_digits text.now }
{
    !text.is_empty() && all_digits(text)
}

/// The value of the digits, if it is below 2^32.
fn digits_below(digits: &[u8]) -> Option<u32>
    requires { IsTrue (list_all is_ascii_digit digits.now) }
    ensures { SomeIff result (digits_value 10 digits.now < 2 ^ 32) (digits_value 10 digits.now) }
{
    let mut value: u64 = 0;
    'each: for digit in digits {
        value = value * 10 + u64::from(*digit - b'0');
        if value > u64::from(u32::MAX) {
            return None;
        }
    }
    Some(value as u32)
}

/// Returns the value of a text of digits in decimal, leading zeros allowed. `None` iff the text is
/// empty, has another byte, or has a value of 2^32 or more. O(n).
///
/// The name of a local, a global or a label may be such a number; the bound is this project's own.
pub fn small_number(text: &[u8]) -> Option<u32>
    ensures { SomeIff result (IsSmallNumber text.now) (digits_value 10 text.now) }
{
    if is_digits(text) {
        digits_below(text)
    } else {
        None
    }
}

#[cfg(test)]
mod tests {
    use super::*;

    #[test]
    fn numbers_of_texts(rt: HostRuntime) {
        let cases = [
            ("0", Some(0)),
            ("007", Some(7)),
            ("4294967295", Some(4_294_967_295)),
            ("00000000004294967295", Some(4_294_967_295)),
            ("4294967296", None),
            ("99999999999999999999", None),
            ("-1", None),
            ("1a", None),
            ("", None),
        ];
        for (text, want) in cases {
            assert_eq!(rt; small_number(text.as_bytes()), want, "of {text:?}");
        }
        assert!(rt; is_digits(b"4294967296"));
        assert!(rt; !is_digits(b"4a"));
        assert!(rt; !is_digits(b""));
    }
}
