//! What the definitions say together. The function does nothing: its contract is the law.
ghost use Rattle.std.specs.Prelude.{◌≡◌, ◌≢◌, ℕ, List};
ghost use Rattle.lint_core.specs.declared.certificate.Cert.{Cert};
ghost use Rattle.cert_format.specs.declared.fault.CertFault.{CertFault};
ghost use Rattle.cert_format.specs.declared.fault.CertFault.TheVariants.{NoMemory};
ghost use Rattle.cert_format.specs.CertFile.{ReadsAs, Refuses};

/// Bytes are a file of one list of certificates at most; they are refused for one fault at most,
/// but for want of memory, and then they are a file of none.
pub fn files_have_one_reading()
    ensures certs { (bytes : List ℕ) (one two : List Cert)
        → ReadsAs bytes one → ReadsAs bytes two → one ≡ two }
    ensures refused { (bytes : List ℕ) (fault : CertFault) (certs : List Cert)
        → fault ≢ NoMemory → Refuses bytes fault → ReadsAs bytes certs → ⊥ }
    ensures faults { (bytes : List ℕ) (one two : CertFault) → one ≢ NoMemory → two ≢ NoMemory
        → Refuses bytes one → Refuses bytes two → one ≡ two }
{}
