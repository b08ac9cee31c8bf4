//! Files of certificates: their text, and how they are read.
//!
//! The layer above may use `cert_json` and `certs_json`, `read_certs` and `CertFault`. Of `specs/` a reader must
//! believe `Forms` (the JSON value of each part of a certificate), `Fitting` (which numbers and
//! texts may stand there) and `CertFile` (the text of a file, which certificates a file has, and
//! why it has none). What JSON is they leave to `read` and `compact_text` of `serde_json`.
//!
//! The laws are contracts of functions that do nothing: a file has one list of certificates, and
//! bytes that are refused have none.
#![tactic(auto)]

mod certs;
mod edges;
mod fault;
mod file;
mod laws;
mod name;
mod reading;
mod steps;
mod writing;

pub use fault::CertFault;
pub use file::{cert_json, certs_json, read_certs};
pub use laws::files_have_one_reading;
