/// Where the positions of each kind stand in the list: those of functions and values by a table, the entries of a body
/// from a place on, and the others one after the other.
#[derive(Drop)]
pub(crate) struct Tables {
    pub(crate) functions: Vec<u32>,
    pub(crate) values: Vec<u32>,
    pub(crate) entries: Vec<u32>,
    /// How far the return of a body stands behind its function.
    pub(crate) to_returns: u32,
    pub(crate) first_row: u32,
    pub(crate) row_words: u32,
    pub(crate) first_effect: u32,
}
