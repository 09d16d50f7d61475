use crate::values::number::{ClientNo, FileNo};

/// Whose opens wait, and on which file.
#[derive(Clone, Copy, Debug, PartialEq, Eq, PartialOrd, Ord)]
pub struct Owner {
    pub client: ClientNo,
    pub file: FileNo,
}
