//! What the words of a command line ask for.

use num_ends::Text;
use thiserror::Error;

/// What the program is to do.
#[derive(Clone, Copy, Debug, PartialEq, Eq)]
pub enum Command {
    /// `plan`: search for a plan.
    Plan,
    /// `relax`: compute the least box of the relaxation.
    Relax,
    /// `validate`: check a plan.
    Validate,
    /// `certify`: check a certificate that there is no plan.
    Certify,
    /// `generate`: plan for a generated task.
    Generate,
    /// `upgrade`: write a certificate in its newer form.
    Upgrade,
    /// `adl`: plan for a pair with quantifiers and conditional effects.
    Adl,
    /// `expand`: write such a pair without them.
    Expand,
    /// `optimal`: search for a plan of least cost.
    Optimal,
    /// `certify-cost`: check the labels that show a least cost.
    CertifyCost,
    /// `steps`: group the actions of a plan into steps.
    Steps,
    /// `look`: compute the least box after each action.
    Look,
}

/// What one run is asked to do.
#[derive(Debug, Drop)]
pub struct Job {
    pub command: Command,
    /// The name of the domain file, or the empty text for a command that reads none.
    pub domain: Text,
    /// The name of the problem file, likewise.
    pub problem: Text,
    /// The name of the plan or certificate file, likewise.
    pub third: Text,
    /// How many nodes a search may expand: 1 to 1,000,000, and 100,000 where none is given.
    pub limit: u32,
    /// The number of search threads: 1 to 16, and 1 where none is given.
    pub workers: u32,
    /// The number of threads of the relaxation: 1 to 16, and 1 where none is given.
    pub relaxers: u32,
    /// The size of the generated task: 2 to 64, or 0 for a command that generates none.
    pub size: u32,
}

/// Why words are not read as a job.
#[derive(Clone, Copy, Debug, PartialEq, Eq, Error)]
pub enum WordsFault {
    /// The words are no job.
    #[error("the words are no job")]
    Usage,
    /// There was no memory to read them.
    #[error("out of memory")]
    NoMemory,
}
