//! How a call ended.

use search_records::Record;

/// How a call ended.
#[derive(Drop)]
pub struct Ended {
    /// The status of the process: 0 `PLAN`, `MET`, `VALID`, `CERTIFIED` or a certificate by `upgrade`,
    /// 1 `UNSOLVABLE`, `MISSED`, `INVALID` or `NOT CERTIFIED`, 2 `LIMIT`, 3 `OVERFLOW`,
    /// 4 `REFUSED`, 5 `USAGE`, 6 `FILE FAULT`, 7 a fault of the output, 8 no memory.
    pub status: u8,
    /// The record of the one search, by `plan` or `generate`, of whose text the writing was begun.
    pub found: Option<Record>,
}
