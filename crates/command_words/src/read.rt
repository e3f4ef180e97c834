//! Which command words are.

ghost use Rattle.std.specs.Prelude.{◌≡◌, ◌<◌, ◌∷◌, length, MatchOption};
ghost use Rattle.std.specs.Option.{option_copied, option_map};
ghost use Rattle.command_words.specs.Words.{only_word, texts_of, meant};
ghost use Rattle.command_words.specs.Words as spec;

use crate::command::{Command, Files};
use crate::number::number_in;
use crate::options::{Allowed, first_of, options_of};

/// Returns the names of three files and the words behind them.
fn files_of<'a>(words: &'a [String]) -> Option<(Files<&'a str>, &'a [String])>
    ensures { MatchOption result (length (texts_of words.now) < 3)
        (λ parts. texts_of words.now
        ≡ parts.0.module.now ∷ (parts.0.mutants.now ∷ (parts.0.tests.now ∷ texts_of parts.1.now))) }
{
    let (module, words) = first_of(words)?;
    let (mutants, words) = first_of(words)?;
    let (tests, words) = first_of(words)?;
    let files = Files {
        module,
        mutants,
        tests,
    };
    Some((files, words))
}

fn run_of<'a>(words: &'a [String]) -> Option<Command<&'a str>>
    ensures { option_map meant result ≡ spec.run_of (texts_of words.now) }
{
    let (files, words) = files_of(words)?;
    let may = Allowed {
        budget: true,
        order: true,
        splits: true,
    };
    let options = options_of(may, words)?;
    Some(Command::Run {
        files,
        budget: options.budget,
        order: options.order,
        splits: options.splits,
    })
}

/// Returns the one word; `None` iff there are none or more.
fn only_word<'a>(words: &'a [String]) -> Option<&'a str>
    ensures { option_copied result ≡ only_word (texts_of words.now) }
{
    let (word, words) = first_of(words)?;
    if words.is_empty() { Some(word) } else { None }
}

fn check_of<'a>(words: &'a [String]) -> Option<Command<&'a str>>
    ensures { option_map meant result ≡ spec.check_of (texts_of words.now) }
{
    let module = only_word(words)?;
    Some(Command::Check { module })
}

fn make_of<'a>(words: &'a [String]) -> Option<Command<&'a str>>
    ensures { option_map meant result ≡ spec.make_of (texts_of words.now) }
{
    let module = only_word(words)?;
    Some(Command::Make { module })
}

fn alone_of<'a>(words: &'a [String]) -> Option<Command<&'a str>>
    ensures { option_map meant result ≡ spec.alone_of (texts_of words.now) }
{
    let (files, words) = files_of(words)?;
    let (first, words) = first_of(words)?;
    let (second, words) = first_of(words)?;
    let mutant = number_in(first)?;
    let test = number_in(second)?;
    let may = Allowed {
        budget: true,
        order: false,
        splits: false,
    };
    let options = options_of(may, words)?;
    Some(Command::Alone {
        files,
        mutant,
        test,
        budget: options.budget,
    })
}

fn groups_of<'a>(words: &'a [String]) -> Option<Command<&'a str>>
    ensures { option_map meant result ≡ spec.groups_of (texts_of words.now) }
{
    let (files, words) = files_of(words)?;
    let (first, words) = first_of(words)?;
    let (second, words) = first_of(words)?;
    let test = number_in(first)?;
    let step = number_in(second)?;
    let may = Allowed {
        budget: true,
        order: true,
        splits: false,
    };
    let options = options_of(may, words)?;
    Some(Command::Groups {
        files,
        test,
        step,
        budget: options.budget,
        order: options.order,
    })
}

fn reduce_of<'a>(words: &'a [String]) -> Option<Command<&'a str>>
    ensures { option_map meant result ≡ spec.reduce_of (texts_of words.now) }
{
    let (files, words) = files_of(words)?;
    let may = Allowed {
        budget: true,
        order: true,
        splits: false,
    };
    let options = options_of(may, words)?;
    Some(Command::Reduce {
        files,
        budget: options.budget,
        order: options.order,
    })
}

fn load_of<'a>(words: &'a [String]) -> Option<Command<&'a str>>
    ensures { option_map meant result ≡ spec.load_of (texts_of words.now) }
{
    let word = only_word(words)?;
    let number = number_in(word)?;
    Some(Command::Load { number })
}

/// Returns the command that the words after the program's name are; `None` iff they are none. No
/// memory is taken.
///
/// | Words | Options |
/// |---|---|
/// | `run MODULE MUTANTS TESTS` | `--budget N`, `--order NAME`, `--splits` |
/// | `check MODULE` | |
/// | `make MODULE` | |
/// | `alone MODULE MUTANTS TESTS M T` | `--budget N` |
/// | `groups MODULE MUTANTS TESTS T N` | `--budget N`, `--order NAME` |
/// | `reduce MODULE MUTANTS TESTS` | `--budget N`, `--order NAME` |
/// | `load N` | |
///
/// A number is 1 to 10 digits without a leading zero, or `0`; a budget is one from 1 to
/// `MAX_BUDGET`. Names are words of any spelling. The options stand in any order, each at most once.
pub fn command_of<'a>(words: &'a [String]) -> Option<Command<&'a str>>
    ensures { option_map meant result ≡ spec.command_of (texts_of words.now) }
{
    let (name, words) = first_of(words)?;
    if name == "run" {
        run_of(words)
    } else if name == "check" {
        check_of(words)
    } else if name == "make" {
        make_of(words)
    } else if name == "alone" {
        alone_of(words)
    } else if name == "groups" {
        groups_of(words)
    } else if name == "reduce" {
        reduce_of(words)
    } else if name == "load" {
        load_of(words)
    } else {
        None
    }
}
