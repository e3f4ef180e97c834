//! The line of a refusal, taken apart.

/// What a line `refused,FILE,NUMBER,CODE` has.
#[derive(Clone, Copy)]
pub struct Refusal<'a> {
    /// `module`, `mutants` or `tests`.
    pub file: &'a str,
    /// A line of the module from 1, or a record of a list from 0.
    pub number: u64,
    /// The name of the fault or of the rule that is broken.
    pub code: &'a str,
}

/// Takes a line of a refusal apart; `None` where the line is none. What stands behind its first end
/// isn't looked at.
pub fn refusal_of(text: &str) -> Option<Refusal<'_>> {
    let (line, _) = text.split_once('\n')?;
    let rest = line.strip_prefix("refused,")?;
    let (file, rest) = rest.split_once(',')?;
    let (number, code) = rest.split_once(',')?;
    let number = number.parse::<u64>().ok()?;
    Some(Refusal { file, number, code })
}
