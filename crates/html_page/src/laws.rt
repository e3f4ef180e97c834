//! The law of escaped texts. It is a function without a body whose clause is the law.
ghost use Rattle.std.specs.Prelude.{ℕ, ◌<◌, List, All};
ghost use Rattle.html_page.specs.Escaped.{IsCharacterData, escaped};

/// Whatever the bytes of a text are, the escaped text is character data: it has no `<`, `>` or
/// quote, each `&` begins one of five references to characters, and it has printed bytes of ASCII
/// alone. So a page that is put together of constant parts, numbers and escaped texts has the tags
/// and attributes of its constant parts and no others.
pub fn escaped_text_has_no_markup()
    ensures { (text : List ℕ) → All (λ b. b < 256) text → IsCharacterData (escaped text) }
{}
