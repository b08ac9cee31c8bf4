//! Files of certificates.
ghost use Rattle.std.specs.Prelude.{◌≡◌, List, ◌++◌, true, map, option_map, IfOk, IfErr, IfSome, IfNone, MatchResult};
ghost use Rattle.std.specs.List.{list_all};
ghost use Rattle.serde_json.specs.Data.{Data};
ghost use Rattle.serde_json.specs.View.{view, items_view};
ghost use Rattle.cert_format.specs.Forms.{cert_form, file_form};
ghost use Rattle.cert_format.specs.Fitting.{cert_fits, is_numbered};
ghost use Rattle.cert_format.specs.CertFile.{file_text, ReadsAs, Refuses};
ghost use Rattle.cert_format.specs.inner.Found.{certs_found};
ghost use Rattle.cert_format.specs.inner.Listed.{IsListOf, RefusesList};

use crate::certs::named;
use crate::fault::{CertFault, Unread};
use crate::reading::FromJson;
use crate::writing::push_list;
use lint_base::NoMemory;
use lint_core::Cert;
use serde_json::Value as Json;
use std::alloc::Global;

/// The text of the file of these certificates: its JSON without spaces, and a line's end.
/// `NoMemory` where there is no memory for it.
pub fn cert_json(alloc: Global, certs: &[Cert]) -> Result<Vec<u8>, NoMemory>
    ensures text { IfOk result (λ bytes. bytes.items ≡ file_text certs.now) }
    ensures reads_back { IfOk result (λ bytes. list_all is_numbered certs.now ≡ true
        → ReadsAs bytes.items certs.now) }
{
    let mut out = String::new(alloc);
    out.push_str("{\"certs\":")?;
    push_list(alloc, &mut out, certs)?;
    out.push_str(",\"sqllint\":1}\n")?;
    Ok(out.into_bytes())
}

/// The same of certificates that stand in several places.
pub fn certs_json(alloc: Global, certs: &[&Cert]) -> Result<Vec<u8>, NoMemory>
    ensures text { IfOk result (λ bytes. bytes.items ≡ file_text (map (λ c. c.now) certs.now)) }
    ensures reads_back { IfOk result (λ bytes.
        list_all is_numbered (map (λ c. c.now) certs.now) ≡ true
        → ReadsAs bytes.items (map (λ c. c.now) certs.now)) }
{
    let mut out = String::new(alloc);
    out.push_str("{\"certs\":")?;
    push_list(alloc, &mut out, certs)?;
    out.push_str(",\"sqllint\":1}\n")?;
    Ok(out.into_bytes())
}

/// The values of a file's certificates, where it has the outer form.
fn cert_values(json: &Json) -> Option<&Vec<Json>>
    ensures { option_map (λ v. items_view v.now.items) result ≡ certs_found (view json.now) }
{
    let mut members = json.as_object()?.iter();
    let certs = named(&mut members, "certs")?;
    let version = named(&mut members, "sqllint")?;
    if members.next().is_none() && version.as_u64() == Some(1) {
        certs.as_array()
    } else {
        None
    }
}

/// The certificates of a list of values, or the number of the first value that is of none.
fn read_all(alloc: Global, values: &[Json]) -> Result<Vec<Cert>, CertFault>
    ensures { MatchResult result
        (λ certs. IsListOf (map view values.now) certs.items)
        (RefusesList (map view values.now)) }
{
    let mut certs = Vec::new(alloc);
    let mut at = 0u32;
    for value in values {
        at = at.saturating_add(1);
        match Cert::read(alloc, value) {
            Ok(cert) => certs.push(cert)?,
            Err(Unread::Shape) => return Err(CertFault::BadShape { at }),
            Err(Unread::NoMemory) => return Err(CertFault::NoMemory),
        }
    }
    Ok(certs)
}

/// The certificates of a file. `NotJson` where the bytes are no JSON in UTF-8, nested at most 127
/// deep; `BadShape` where the JSON has not the form of a file of certificates: at 0 where this is
/// so whatever the certificates are, which is tested first, else at the number of the first
/// certificate that has not the form of one, from 1; `NoMemory` where there is no memory for the
/// JSON value and the certificates.
pub fn read_certs(alloc: Global, bytes: &[u8]) -> Result<Vec<Cert>, CertFault>
    ensures read { IfOk result (λ certs. ReadsAs bytes.now certs.items) }
    ensures refused { IfErr result (Refuses bytes.now) }
{
    let json = match Json::from_slice(alloc, bytes) {
        Ok(json) => json,
        Err(error) if error.is_memory() => return Err(CertFault::NoMemory),
        Err(_) => return Err(CertFault::NotJson),
    };
    match cert_values(&json) {
        Some(values) => read_all(alloc, values.as_slice()),
        None => Err(CertFault::BadShape { at: 0 }),
    }
}
