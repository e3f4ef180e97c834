//! What a row is compared with.

use std::alloc::AllocError;

/// The greatest length of a text that is shown by itself.
const LONGEST_SHOWN: usize = 4_096;

/// Appends a text, or how long it is.
pub fn show_text(shown: &mut String, text: &[u8]) -> Result<(), AllocError> {
    if text.len() > LONGEST_SHOWN {
        let lines = text.iter().filter(|b| **b == b'\n').count();
        let bytes = text.len();
        return writeln!(shown, "({lines} lines, {bytes} bytes)");
    }
    shown.push_str(str::from_utf8(text).unwrap_or("(no text)"))?;
    if !text.is_empty() && !text.ends_with(b"\n") {
        shown.push_str("\\\n")?;
    }
    Ok(())
}
