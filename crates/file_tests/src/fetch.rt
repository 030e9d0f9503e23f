//! Whole files by their names.

use edge_io::{Files, ReadFault, read_whole};
use std::alloc::Global;

pub fn fetch<F: Files>(
    alloc: Global,
    files: &mut F,
    name: &[u8],
    limit: u32,
) -> Result<Vec<u8>, ReadFault> {
    files.begin(name)?;
    read_whole(alloc, files, limit)
}
