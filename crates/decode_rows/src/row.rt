//! A row, field by field.

/// A message, and how it is decoded: the fields of a line, with `|` between them. A field that is missing is empty.
#[derive(Drop)]
pub(crate) struct Row<'a> {
    /// The words.
    pub(crate) words: &'a str,
    /// The bytes of the source.
    pub(crate) message: &'a str,
    /// The calls that fail.
    pub(crate) failing: &'a str,
}

/// The row of a line.
pub(crate) fn row_of(line: &str) -> Row {
    let mut fields = line.split('|');
    Row {
        words: fields.next().unwrap_or(""),
        message: fields.next().unwrap_or(""),
        failing: fields.next().unwrap_or(""),
    }
}
