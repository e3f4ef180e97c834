//! What the codes of a refused module mean.

/// Returns what a code of a refused module means and what helps; `None` where it is no such code.
/// The rules are those of docs/LANGUAGE.md.
pub fn about_module(code: &str) -> Option<&'static str> {
    match names(code) {
        Some(text) => Some(text),
        None => match types(code) {
            Some(text) => Some(text),
            None => blocks(code),
        },
    }
}

/// What the codes on tokens, items and names mean.
fn names(code: &str) -> Option<&'static str> {
    let text = match code {
        "BadByte" =>
            "a byte begins no word of the language; leave -g out (#dbg_declare), use no floating point",
        "OpenQuote" => "a quote is opened and never closed",
        "NotAnItem" => {
            "no line of the language can be read here; -g, vectors of -O1, printf, function pointers and \
            the typed pointers of Clang before 15 aren't in it"
        }
        "DoubleName" => "this name is defined twice; rename one of the two",
        "NumberOrder" =>
            "a numbered value is below the one before it; number the values of a function upwards",
        "UnknownName" => {
            "a value that is used isn't defined in the function, or is no variable of the module; \
            a variable that is only declared (extern) has to be defined, a function has no address"
        }
        "UnknownLabel" => "a branch names a block that the function doesn't have",
        "UnknownCallee" => {
            "the function that is called is neither defined here nor one of the outside functions; \
            define it in the module, compile with -O0 and -fno-builtin, copy structs field by field"
        }
        "CallDiffers" => "the call's types differ from those of the function that it calls",
        "DeclareDiffers" =>
            "an outside function is declared with other types than it has; include its header",
        _ => return None,
    };
    Some(text)
}

/// What the codes on types and values mean.
fn types(code: &str) -> Option<&'static str> {
    let text = match code {
        "UnknownType" => "a type is named that the module doesn't define",
        "RecursiveType" => "a type contains itself; use a pointer for one of its parts",
        "TypeTooLarge" => "a type is larger than the memory of a run may be",
        "ScalarWanted" => {
            "a parameter, a result or a value has to be an integer or a pointer; \
            pass structs by pointer"
        }
        "TypeDiffers" => "a value isn't of the type that is wanted here",
        "LiteralRange" => "a number doesn't fit its type",
        "ReturnDiffers" => "what is returned isn't of the function's type",
        "GetPath" => "the indices lead into no array and no field of the type",
        "ResultName" => "a result is named where there is none, or not named where there is one",
        "InitDiffers" => "the initial value doesn't fit the type of the variable",
        "CastWidth" => "a conversion doesn't narrow, or doesn't widen, as its name says",
        _ => return None,
    };
    Some(text)
}

/// What the codes on blocks and limits mean.
fn blocks(code: &str) -> Option<&'static str> {
    let text = match code {
        "PhiPlace" => "a phi is in the first block, or behind another instruction of its block",
        "PhiEntries" => "a phi hasn't one entry for each block that branches to its block",
        "BlockOpen" =>
            "a block doesn't end with br, switch, ret or unreachable, or goes on behind one",
        "SwitchCase" => "a case isn't a number of the value's type, or two cases are equal",
        "EntryTarget" => "a branch goes to the first block of the function",
        "Limit" => {
            "the module has more functions, types, instructions, registers of a function or bytes of \
            variables than docs/LANGUAGE.md allows (Limits)"
        }
        _ => return None,
    };
    Some(text)
}
