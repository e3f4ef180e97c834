//! The picker that a command wants.

ghost use Rattle.std.specs.Prelude.{◌≡◌, MatchOption, None, Some, find};
ghost use Rattle.std.specs.Str.{bytes_eq};

use picker::Picker;

/// Whether a picker has this name.
fn has_name(picker: &Box<dyn Picker>, name: &str) -> bool
    ensures { result ≡ bytes_eq (named picker.now) name.now }
{
    picker.name() == name
}

/// Takes the first picker of a name out, and lets the others go. `None` iff none has the name.
pub(crate) fn first_named(pickers: Vec<Box<dyn Picker>>, name: &str) -> Option<Box<dyn Picker>>
    ensures first { MatchOption result (find (λ q. bytes_eq (named q) name.now) pickers.items ≡ None)
        (λ picker. find (λ q. bytes_eq (named q) name.now) pickers.items ≡ Some picker) }
{
    for picker in pickers {
        if has_name(&picker, name) {
            return Some(picker);
        }
    }
    None
}
