//! Classes of bytes.
ghost use Rattle.ir_tokens.specs.Bytes as bytes;
ghost use Rattle.std.specs.List.{prefix_len};
ghost use Rattle.std.specs.Prelude.{length, ◌≡◌, ◌≤◌};

/// The classes of bytes that a token may have a longest run of.
#[derive(Clone, Copy)]
pub enum Class {
    /// Letters, digits, `-`, `$`, `.` and `_`.
    Run,
    /// Those of a run, and `\`.
    Meta,
    Digit,
    /// All but `"`.
    Body,
}

impl Class {
    ghost use Rattle.ir_lexer.specs.Class.{holds};

    fn holds(self, b: u8) -> bool
        ensures { result ≡ holds self b }
    {
        match self {
            Class::Run => is_run_byte(b),
            Class::Meta => is_run_byte(b) || b == b'\\',
            Class::Digit => b.is_ascii_digit(),
            Class::Body => b != b'"',
        }
    }

    /// The number of bytes of the class at the front of the text.
    pub fn prefix_len(self, text: &[u8]) -> usize
        ensures value { result ≡ prefix_len (holds self) text.now }
        ensures within { result ≤ length text.now }
    {
        let mut len = 0;
        'each: while len < text.len() && self.holds(text[len]) {
            len += 1;
        }
        len
    }
}

fn is_run_byte(b: u8) -> bool
    ensures { result ≡ bytes.is_run_byte b }
{
    b.is_ascii_alphanumeric() || matches!(b, b'-' | b'$' | b'.' | b'_')
}
