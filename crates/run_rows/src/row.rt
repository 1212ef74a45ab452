//! A row.

/// The fields of a row, between `|`. Fields at the end may be missing.
#[derive(Clone, Copy)]
pub(crate) struct Row<'a> {
    pub(crate) words: &'a str,
    /// The module file.
    pub(crate) file: &'a str,
    /// The records of the splits.
    pub(crate) records: &'a str,
    /// The calls that fail.
    pub(crate) failing: &'a str,
    /// The turns of the link's script.
    pub(crate) script: &'a str,
    /// The moments of the clock.
    pub(crate) moments: &'a str,
    /// `full` where requests and batches are shown, `sum` where a checksum of them is.
    pub(crate) detail: &'a str,
    /// Other records for the replay.
    pub(crate) others: &'a str,
}

/// The row of a line.
pub(crate) fn row_of(line: &str) -> Row {
    let mut fields = line.split('|');
    Row {
        words: fields.next().unwrap_or(""),
        file: fields.next().unwrap_or(""),
        records: fields.next().unwrap_or(""),
        failing: fields.next().unwrap_or(""),
        script: fields.next().unwrap_or(""),
        moments: fields.next().unwrap_or(""),
        detail: fields.next().unwrap_or(""),
        others: fields.next().unwrap_or(""),
    }
}

impl<'a> Row<'a> {
    /// The records of the replay.
    pub(crate) fn replayed(&self) -> &'a str {
        if self.others.is_empty() {
            self.records
        } else {
            self.others
        }
    }
}
