//! The laws of words: what a number in a word is, in other words, and the budgets of commands.
ghost use Rattle.std.specs.Prelude.{◌≡◌, ◌<◌, List, ℕ, Some, decimal};
ghost use Rattle.command_words.specs.Words.{IsBudget, Text, budget_of, command_of, number_in};
ghost use Rattle.command_words.specs.declared.command.Command.{Command};

/// A word is a number iff it is what is printed of a number below 10^10, and it is that number.
pub fn numbers_are_printed()
    ensures read { (word : Text) (n : ℕ) → number_in word ≡ Some n → word ≡ decimal n }
    ensures few { (word : Text) (n : ℕ) → number_in word ≡ Some n → n < 10000000000 }
    ensures printed { (n : ℕ) → n < 10000000000 → number_in (decimal n) ≡ Some n }
{}

/// The budget that a command states is from 1 to `MAX_BUDGET`.
pub fn budgets_are_within()
    ensures { (words : List Text) (command : Command Text) (n : ℕ) → command_of words ≡ Some command → budget_of command ≡ Some n → IsBudget n }
{}
