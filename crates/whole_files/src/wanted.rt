//! Which file is to be read.

use num_ends::Text;

/// A file that is to be read, by its name, and the most bytes that it may have.
#[derive(Debug, Drop)]
pub struct Wanted {
    pub name: Text,
    pub limit: u32,
}
