//! The law of written certificates. The function calls other laws and does nothing else: its
//! contract is the law.
ghost use Rattle.std.specs.Prelude.{ℕ, List};
ghost use Rattle.cert_format.specs.CertFile.{ReadsAs};
ghost use Rattle.command_words.specs.Wanted.{judges, checks};
ghost use Rattle.command_words.specs.declared.wanted.Form.{Form};
ghost use Rattle.lint_core.specs.declared.certificate.Cert.{Cert};
ghost use Rattle.lint_core.specs.declared.run.QueryRun.{QueryRun};
ghost use Rattle.lint_core.specs.declared.schema.Table.{Table};
ghost use Rattle.lint_run.specs.RightRun.{AreRightQueries};
ghost use Rattle.lint_run.specs.Text.{certs_of};
ghost use Rattle.recheck_laws.specs.Rechecked.{AreAllAccepted};

use cert_format::files_have_one_reading;
use formula_laws::wrong_steps_are_numbered;
use reading_laws::every_query_text_has_one_reading;
use verdict_laws::right_answers_keep_their_word;

/// The certificates of what a judging run says of a query file are all accepted by the check of a
/// run that reads the same file for the same schema, whatever the budget of the one and wherever
/// the other finds its certificates. So are those that any bytes are read as which are a file of
/// these certificates, as what a judging run writes of them is.
pub fn written_certificates_are_accepted()
    ensures certs { (schema : List Table) (text : List ℕ) (budget : ℕ) (form : Form)
        (path : List ℕ) (queries again : List QueryRun)
        → AreRightQueries (judges budget form) schema text queries
        → AreRightQueries (checks path) schema text again
        → AreAllAccepted schema again (certs_of queries) }
    ensures file { (schema : List Table) (text : List ℕ) (budget : ℕ) (form : Form)
        (path : List ℕ) (queries again : List QueryRun)
        → AreRightQueries (judges budget form) schema text queries
        → AreRightQueries (checks path) schema text again
        → (bytes : List ℕ) (certs : List Cert)
        → ReadsAs bytes (certs_of queries) → ReadsAs bytes certs
        → AreAllAccepted schema again certs }
{
    right_answers_keep_their_word();
    wrong_steps_are_numbered();
    every_query_text_has_one_reading();
    files_have_one_reading();
}
