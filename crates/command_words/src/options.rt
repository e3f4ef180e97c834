//! The options behind the names and numbers of a command.

ghost use Rattle.std.specs.Prelude.{◌≡◌, ◌<◌, ◌∷◌, [], length, MatchOption, Some};
ghost use Rattle.std.specs.Option.{option_map};
ghost use Rattle.command_words.specs.Words.{texts_of, IsNextOption};
ghost use Rattle.command_words.specs.Words as spec;

use crate::number::budget_in;

/// Which options may stand behind a command's names and numbers, each once.
#[derive(Clone, Copy)]
pub(crate) struct Allowed {
    pub budget: bool,
    pub order: bool,
    pub splits: bool,
}

/// One option, with a name of type `N`.
#[derive(Clone, Copy)]
pub(crate) enum Given<N> {
    Budget(u64),
    Order(N),
    Splits,
}

/// The options of a command, with a name of type `N`.
#[derive(Clone, Copy)]
pub(crate) struct Options<N> {
    pub budget: Option<u64>,
    pub order: Option<N>,
    pub splits: bool,
}

/// Returns the first word and those behind it.
pub(crate) fn first_of<'a>(words: &'a [String]) -> Option<(&'a str, &'a [String])>
    ensures words { MatchOption result (texts_of words.now ≡ [])
        (λ parts. texts_of words.now ≡ parts.0.now ∷ texts_of parts.1.now) }
    ensures shorter { MatchOption result (length words.now ≡ 0) (λ parts. length parts.1.now < length words.now) }
{
    match words {
        [] => None,
        [first, rest @ ..] => Some((first.as_str(), rest)),
    }
}

/// Returns the option that a word and its value are.
fn valued<'a>(word: &str, value: &'a str) -> Option<Given<&'a str>>
    ensures { option_map spec.given_meant result ≡ spec.valued word.now value.now }
{
    if word == "--budget" {
        match budget_in(value) {
            Some(n) => Some(Given::Budget(n)),
            None => None,
        }
    } else if word == "--order" {
        Some(Given::Order(value))
    } else {
        None
    }
}

/// Returns the option that the words begin with, and the words behind it.
fn next_option<'a>(words: &'a [String]) -> Option<(Given<&'a str>, &'a [String])>
    requires { 0 < length words.now }
    ensures option { MatchOption result (spec.given_by (texts_of words.now) ≡ None)
        (λ parts. IsNextOption (texts_of words.now) (spec.given_meant parts.0) (texts_of parts.1.now)) }
    ensures shorter { MatchOption result (length words.now ≡ length words.now)
        (λ parts. length parts.1.now < length words.now) }
{
    let (word, words) = first_of(words)?;
    if word == "--splits" {
        return Some((Given::Splits, words));
    }
    let (value, words) = first_of(words)?;
    match valued(word, value) {
        Some(given) => Some((given, words)),
        None => None,
    }
}

/// Returns the options that may still stand behind one; `None` iff it may not stand.
fn without<'a>(may: Allowed, given: Given<&'a str>) -> Option<Allowed>
    ensures { result ≡ spec.without may (spec.given_meant given.entry) }
{
    match given {
        Given::Budget(_) if may.budget => Some(Allowed {
            budget: false,
            ..may
        }),
        Given::Order(_) if may.order => Some(Allowed {
            order: false,
            ..may
        }),
        Given::Splits if may.splits => Some(Allowed {
            splits: false,
            ..may
        }),
        _ => None,
    }
}

/// Returns options with one more.
fn with<'a>(options: Options<&'a str>, given: Given<&'a str>) -> Options<&'a str>
    ensures { spec.options_meant result
        ≡ spec.with_option (spec.given_meant given.entry) (spec.options_meant options.entry) }
{
    match given {
        Given::Budget(n) => Options {
            budget: Some(n),
            ..options
        },
        Given::Order(name) => Options {
            order: Some(name),
            ..options
        },
        Given::Splits => Options {
            splits: true,
            ..options
        },
    }
}

/// Returns the options that words are; `None` iff they aren't options that may stand. At most five
/// words are looked at.
#[tactic(auto, using(crate::proofs::MoreOptions::one_more))]
pub(crate) fn options_of<'a>(may: Allowed, words: &'a [String]) -> Option<Options<&'a str>>
    ensures { option_map spec.options_meant result ≡ spec.options_in may (texts_of words.now) }
{
    if words.is_empty() {
        return Some(Options {
            budget: None,
            order: None,
            splits: false,
        });
    }
    let (given, rest) = next_option(words)?;
    let left = without(may, given)?;
    let options = options_of(left, rest)?;
    Some(with(options, given))
}
