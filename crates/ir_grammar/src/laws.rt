//! The laws of the grammar. Each is a function without a body whose clauses are the law.
ghost use Rattle.ir_grammar.specs.Items.{SomeItem, item};
ghost use Rattle.ir_grammar.specs.Lexeme.{Lexemes};
ghost use Rattle.ir_grammar.specs.Modules.{IsModule, IsUnread};
ghost use Rattle.ir_grammar.specs.Words.{denoted, global_of, label_of, local_of};
ghost use Rattle.ir_tokens.specs.Bytes.{Text};
ghost use Rattle.ir_tokens.specs.Names.{StandsFor, name_part};
ghost use Rattle.ir_tokens.specs.Tokens.{Spells};
ghost use Rattle.ir_tokens.specs.declared.token.TokenKind.TheVariants as kind;
ghost use Rattle.ir_tree.specs.declared.item.Item.{Item};
ghost use Rattle.ir_tree.specs.declared.name.Name.{Name};
ghost use Rattle.std.specs.Prelude.{List, Option, Some, length, ℕ, ◌<◌, ◌↔◌, ◌≡◌, ◌⊎◌};

/// Tokens are an item in at most one way, and an item has a token at least. `item.parse` returns it
/// iff there is one.
pub fn one_item()
    ensures one { (ts rest rest' : Lexemes) (x y : SomeItem)
        → item.reads ts x rest → item.reads ts y rest' → (x ≡ y) × (rest ≡ rest') }
    ensures shorter { (ts rest : Lexemes) (x : SomeItem)
        → item.reads ts x rest → length rest < length ts }
    ensures found { (ts rest : Lexemes) (x : SomeItem)
        → item.reads ts x rest ↔ (item.parse ts ≡ Some (x, rest)) }
{}

/// Tokens are at most one module, and its items begin at one list of tokens.
pub fn one_module()
    ensures { (ts : Lexemes) (xs ys : List Item) (starts starts' : List ℕ)
        → IsModule ts xs starts → IsModule ts ys starts' → (xs ≡ ys) × (starts ≡ starts') }
{}

/// Tokens have at most one first token that isn't read, and none if they are a module.
pub fn one_unread()
    ensures place { (ts : Lexemes) (at at' : ℕ) → IsUnread ts at → IsUnread ts at' → at ≡ at' }
    ensures either { (ts : Lexemes) (xs : List Item) (starts : List ℕ) (at : ℕ)
        → IsModule ts xs starts → IsUnread ts at → ⊥ }
{}

/// Tokens are a module, or they have a first token that isn't read. With `one_unread`, they have
/// one iff they are no module.
pub fn some_reading()
    ensures { (ts : Lexemes)
        → ((xs : List Item) × (starts : List ℕ) × IsModule ts xs starts)
        ⊎ ((at : ℕ) × IsUnread ts at) }
{}

/// The name that a local, a global or a label is read as is the one that its bytes denote: a number
/// in decimal, the value of a quoted text, or the bytes themselves.
pub fn names_read()
    ensures local { (s rest : Text) (n : Name) → Spells kind.Local s rest
        → (local_of (kind.Local, s) ≡ Some n) ↔ StandsFor (name_part kind.Local s) (denoted n) }
    ensures global { (s rest : Text) (n : Name) → Spells kind.Global s rest
        → (global_of (kind.Global, s) ≡ Some n) ↔ StandsFor (name_part kind.Global s) (denoted n) }
    ensures label { (s rest : Text) (n : Name) → Spells kind.Label s rest
        → (label_of (kind.Label, s) ≡ Some n) ↔ StandsFor (name_part kind.Label s) (denoted n) }
{}
