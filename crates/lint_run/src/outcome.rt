//! What a run of the program comes to.
use cert_format::CertFault;
use lint_base::Refusal;
use lint_core::Run;

/// A file that the words name.
#[derive(Clone, Copy, Debug, PartialEq, Eq)]
pub enum Which {
    Schema,
    Queries,
    Certs,
}

/// What ended a run early.
#[derive(Clone, Copy, Debug, PartialEq, Eq)]
pub enum Stop {
    /// The words are no command.
    WordsRefused,
    /// The shelf did not open the file.
    OpenFault(Which),
    /// The shelf failed to read the file.
    ReadFault(Which),
    /// The file has more than 1,048,576 bytes, or, of certificates, more than 16,777,216.
    TooLong(Which),
    /// The file declares no schema.
    SchemaRefused(Refusal),
    /// The file is none of certificates.
    CertsRefused(CertFault),
    /// The sink failed. It replaces the stop whose line was being written.
    WriteFault,
    /// Memory ran out.
    NoMemory,
}

/// The program's status, what ended the run early, if anything, and what the run answers.
#[derive(Drop)]
pub struct Outcome {
    pub status: u8,
    pub stop: Option<Stop>,
    pub run: Run,
}
