//! The laws of tokens. Each is a function without a body whose clauses are the law.
ghost use Rattle.ir_tokens.specs.Bytes.{Text};
ghost use Rattle.ir_tokens.specs.Names.{IsNamed, NameValue, StandsFor, Unescapes, name_part};
ghost use Rattle.ir_tokens.specs.Names.{name_value, quoted_value, unescaped};
ghost use Rattle.ir_tokens.specs.Tokens.{AreSpelled, Fault, HasFault, HasTokens, IsDigits};
ghost use Rattle.ir_tokens.specs.Tokens.{IsQuoted, IsSmallNumber, Rise, Spells, is_digits};
ghost use Rattle.ir_tokens.specs.Tokens.{is_small_number};
ghost use Rattle.ir_tokens.specs.declared.token.Token.{Token};
ghost use Rattle.ir_tokens.specs.declared.token.TokenKind.{TokenKind};
ghost use Rattle.std.specs.Prelude.{List, length, true, ℕ, ◌↔◌, ◌≡◌, ◌⊎◌};

/// A text is cut in at most one way: it has at most one list of tokens, at most one first fault
/// with one cause, and not both.
pub fn one_cut()
    ensures tokens { (text : Text) (ts us : List Token)
        → HasTokens text ts → HasTokens text us → ts ≡ us }
    ensures either { (text : Text) (ts : List Token) (at : ℕ) (fault : Fault)
        → HasTokens text ts → HasFault text at fault → ⊥ }
    ensures fault { (text : Text) (at at' : ℕ) (fault fault' : Fault)
        → HasFault text at fault → HasFault text at' fault' → (at ≡ at') × (fault ≡ fault') }
{}

/// Every text has tokens or a fault. With `one_cut`, it has tokens iff it has no fault.
pub fn some_cut()
    ensures { (text : Text) → ((ts : List Token) × HasTokens text ts)
        ⊎ ((at : ℕ) × (fault : Fault) × HasFault text at fault) }
{}

/// The tokens of a text lie in it, in order and apart, each with a byte at least.
pub fn tokens_rise()
    ensures { (text : Text) (ts : List Token) → HasTokens text ts → Rise 0 ts (length text) }
{}

/// The bytes of the text between a token's two offsets spell its kind, and are the longest that do.
pub fn spelled_slices()
    ensures { (text : Text) (ts : List Token) → HasTokens text ts → AreSpelled text ts }
{}

/// A quoted text has one value, and so has the name of each local, global and label.
pub fn one_value()
    ensures escapes { (text value : Text) → Unescapes text value ↔ (value ≡ unescaped text) }
    ensures quoted { (s value : Text) (q : IsQuoted s)
        → Unescapes q.body value ↔ (value ≡ quoted_value s) }
    ensures names { (k : TokenKind) (s rest : Text) (value : NameValue)
        → IsNamed k → Spells k s rest
        → StandsFor (name_part k s) value ↔ (value ≡ name_value (name_part k s)) }
{}

/// The tests for digits and for numbers below 2^32, by which names are read and spelled, decide
/// what the definition of tokens says of them.
pub fn decided_numbers()
    ensures digits { (s : Text) → (is_digits s ≡ true) ↔ IsDigits s }
    ensures small { (s : Text) → (is_small_number s ≡ true) ↔ IsSmallNumber s }
{}
