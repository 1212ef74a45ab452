//! What a sink holds, below a row.
use crate::Failure;

/// Adds what was written, each line with two blanks before it, and says where the last has no line feed.
pub fn put_written(text: &mut String, written: &str) -> Result<(), Failure> {
    for line in written.lines() {
        text.push_str("  ")?;
        text.push_str(line)?;
        text.push_str("\n")?;
    }
    if !written.is_empty() && !written.ends_with("\n") {
        text.push_str("  with no line feed\n")?;
    }
    Ok(())
}
