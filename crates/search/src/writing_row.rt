use super::entry::Entry;

// No generic row with the waiting row, which would carry an empty field.
/// A seat with its standing writing, a map number and its label, or without one.
#[derive(Clone, Copy, Default, PartialEq, Eq, Debug)]
pub struct WritingRow {
    pub seat: u8,
    pub label: Option<u32>,
    // Beside the label, which by a rule of the project is an `Option` of the entry.
    pub map: u16,
}

impl Entry for WritingRow {
    ghost labelled = { λ row. row.label };

    fn label(&self) -> Option<u32> {
        self.label
    }
}
