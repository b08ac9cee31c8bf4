//! What a command line asks for.

/// What a judging run writes: its report as text, or the file of its certificates.
#[derive(Clone, Copy, Debug, PartialEq, Eq)]
pub enum Form {
    Text,
    Certs,
}

/// What is asked of the two files.
#[derive(Clone, Copy, Debug)]
pub enum Task<'a> {
    /// To judge the queries, each question within the budget, which is from 1 to 1,000,000.
    Judge { budget: u64, form: Form },
    /// To check the certificates of the file at this path, which is not empty.
    Check { certs: &'a str },
}

/// A command line that is accepted: what is asked, and the paths of the two files.
#[derive(Clone, Copy, Debug)]
pub struct Command<'a> {
    pub task: Task<'a>,
    pub schema: &'a str,
    pub queries: &'a str,
}

/// The budget of a judging run that is given none.
pub const DEFAULT_BUDGET: u64 = 200_000;

/// The largest budget that may be given.
pub(crate) const LARGEST_BUDGET: u64 = 1_000_000;
