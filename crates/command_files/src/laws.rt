//! The laws of the files of a command: each is read in one way. Each is a function without a body
//! whose clauses are the law.
ghost use Rattle.std.specs.Prelude.{◌≡◌, List, Some, slice_get, ℕ};
ghost use Rattle.code_form.specs.declared.code.Code.{Code};
ghost use Rattle.code_form.specs.declared.sign.PortSign.{PortSign};
ghost use Rattle.ir_tokens.specs.Bytes.{Text};
ghost use Rattle.ir_tokens.specs.declared.token.Token.{Token};
ghost use Rattle.ir_tree.specs.declared.item.Item.{Item};
ghost use Rattle.ir_rules.specs.Rules.{fault};
ghost use Rattle.ir_rules.specs.declared.rule.Fault.{Fault};
ghost use Rattle.mutant_records.specs.declared.list.Made.{Made};
ghost use Rattle.test_suite.specs.declared.suite.Suite.{Suite};
ghost use Rattle.command_files.specs.Modules.{HasItems, IsAccepted, IsRefused};
ghost use Rattle.command_files.specs.Mutants as mutants;
ghost use Rattle.command_files.specs.Tests as tests;
ghost use Rattle.command_files.specs.declared.module.Loaded.{Loaded};

/// A text is refused as a module with at most one line, or accepted as at most one module, and not
/// both.
pub fn one_module_file()
    ensures line { (signs : List PortSign) (text line other : Text) → IsRefused signs text line → IsRefused signs text other → line ≡ other }
    ensures either { (signs : List PortSign) (text line : Text) (m : Loaded) → IsRefused signs text line → IsAccepted signs text m → ⊥ }
    ensures loaded { (signs : List PortSign) (text : Text) (m n : Loaded) → IsAccepted signs text m → IsAccepted signs text n → m ≡ n }
{}

/// The item that breaks a rule begins at a token of the text, so the line that refuses a module for
/// it is the line of its first byte.
pub fn broken_item_has_a_token()
    ensures token { (signs : List PortSign) (text : Text) (tokens : List Token) (items : List Item) (starts : List ℕ) (f : Fault)
        → HasItems text tokens items starts → fault items signs ≡ Some f
        → (start : ℕ) × (token : Token) × (slice_get starts f.item ≡ Some start) × (slice_get tokens start ≡ Some token) }
{}

/// A text is refused as the mutants of a module with at most one line, or is at most one list of
/// them, and not both.
pub fn one_mutants_file()
    ensures line { (signs : List PortSign) (m : Loaded) (text line other : Text)
        → mutants.AreRefused signs m text line → mutants.AreRefused signs m text other → line ≡ other }
    ensures either { (signs : List PortSign) (m : Loaded) (text line : Text) (all : List Made)
        → mutants.AreRefused signs m text line → mutants.AreMutants signs m text all → ⊥ }
    ensures list { (signs : List PortSign) (m : Loaded) (text : Text) (all others : List Made)
        → mutants.AreMutants signs m text all → mutants.AreMutants signs m text others → all ≡ others }
{}

/// A text is refused as the tests of a code with at most one line, or is at most one suite, and not
/// both.
pub fn one_tests_file()
    ensures line { (code : Code) (budget : ℕ) (text line other : Text)
        → tests.AreRefused code budget text line → tests.AreRefused code budget text other → line ≡ other }
    ensures either { (code : Code) (budget : ℕ) (text line : Text) (suite : Suite)
        → tests.AreRefused code budget text line → tests.AreTests code budget text suite → ⊥ }
    ensures suite { (code : Code) (budget : ℕ) (text : Text) (suite other : Suite)
        → tests.AreTests code budget text suite → tests.AreTests code budget text other → suite ≡ other }
{}
