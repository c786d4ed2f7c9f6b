use wb_term::WordId;

/// Sixteen words of a RAM.
#[derive(Clone, Copy)]
pub(crate) struct Page {
    pub(crate) cells: [WordId; 16],
}
