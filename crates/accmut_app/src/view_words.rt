//! Which words ask for something to look at.

ghost use Rattle.std.specs.Prelude.{◌≡◌};
ghost use Rattle.std.specs.Option.{option_map};
ghost use Rattle.command_words.specs.Words.{texts_of};
ghost use Rattle.accmut_app.specs.ViewWords as spec;
ghost use Rattle.accmut_app.specs.ViewWords.{view_meant};

use command_words::Files;

/// What there is to look at, with names of type `N`: `&str` here, their bytes in contracts.
#[derive(Clone, Copy)]
pub enum ViewCommand<N> {
    /// The instructions of a module with their numbers.
    Number { module: N },
    /// The page of all mutants of a list on all tests of a suite.
    Page { files: Files<N> },
}

fn number_of<'a>(name: &'a str, module: &'a str) -> Option<ViewCommand<&'a str>>
    ensures { option_map view_meant result ≡ spec.number_of name.now module.now }
{
    if name == "number" {
        Some(ViewCommand::Number { module })
    } else {
        None
    }
}

fn page_of<'a>(name: &'a str, files: Files<&'a str>) -> Option<ViewCommand<&'a str>>
    ensures { option_map view_meant result ≡ spec.page_of name.now files.entry.module.now files.entry.mutants.now files.entry.tests.now }
{
    if name == "page" {
        Some(ViewCommand::Page { files })
    } else {
        None
    }
}

/// Returns what words ask for: `number MODULE` or `page MODULE MUTANTS TESTS`; `None` iff they are
/// neither.
pub(crate) fn view_command_of<'a>(words: &'a [String]) -> Option<ViewCommand<&'a str>>
    ensures { option_map view_meant result ≡ spec.view_command_of (texts_of words.now) }
{
    match words {
        [name, module] => number_of(name.as_str(), module.as_str()),
        [name, module, mutants, tests] => {
            let files = Files {
                module: module.as_str(),
                mutants: mutants.as_str(),
                tests: tests.as_str(),
            };
            page_of(name.as_str(), files)
        }
        _ => None,
    }
}
