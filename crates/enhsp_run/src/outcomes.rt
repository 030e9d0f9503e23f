//! What is found out for an answer, before it is written.

use pair_certificate::TaskCertificate;
use run_answers::Answer;
use search_records::Record;

/// In which form the answer of a search is told.
#[derive(Clone, Copy, Debug, PartialEq, Eq)]
pub(crate) enum Form {
    /// Its whole text.
    Whole,
    /// The line on the search of a generated task of this size.
    Summary(u32),
}

/// What is found out for an answer.
#[derive(Drop)]
pub(crate) enum Outcome {
    /// The answer, with its text.
    Written(Answer),
    /// The record of a search, whose text is made as it is written.
    Found(Form, Record),
    /// A certificate, whose text in version 2 is made as it is written.
    Upgraded(TaskCertificate),
}
