use crate::books::Books;

/// The books, none before a kind is told, and the bytes of a line that has not ended yet.
#[derive(Drop)]
pub struct Session {
    pub(crate) line: Vec<u8>,
    pub(crate) books: Option<Books>,
}
