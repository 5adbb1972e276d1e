// A certificate where the target is summarizable, and a counterexample where it isn't.
ghost use Rattle.std.specs.Prelude.{◌≡◌, ◌≢◌, ◌≤◌, ◌↔◌, All, AllPairs, Err, IfOk, IfSome, length};
ghost use Rattle.olap_base.specs.Graph.{IsCategory};
ghost use Rattle.olap_base.specs.Limits.{most_certificate_bytes};
ghost use Rattle.olap_base.specs.declared.refusals.Refusal.TheVariants as refusal;
ghost use Rattle.olap_ast.specs.Summarizable.{IsSummarizable};
ghost use Rattle.olap_proof.specs.Verifying.{IsCertificateFor};
ghost use Rattle.olap_prove.specs.Proofs.{IsShort, IsYes, Shows};
ghost use Rattle.olap_schema.specs.Schemas.{schema_of};
ghost use Rattle.olap_ast.specs.Trees.{numbers_of};
ghost use Rattle.olap_summ.specs.Decisions.{duplicate_source};

use olap_base::{CatId, MOST_CERTIFICATE_BYTES, Memory, Refusal, Text};
use olap_draft::draft;
use olap_frozen::Found;
use olap_proof::{Form, plain_certificate, verify};
use olap_schema::Schema;
use olap_summ::{DuplicateSource, summarizable};
use std::alloc::Global;

/// Why the target is summarizable from the sources, or why it isn't.
#[derive(Drop)]
pub enum Proof {
    /// It is: the text of a certificate.
    Yes(Text),
    /// It isn't: the counterexample.
    No(Found),
}

// The draft, if there is one and it is a certificate that fits a file.
fn accepted_draft(
    alloc: Global,
    schema: &Schema,
    form: Form,
    target: CatId,
    sources: &[CatId],
) -> Result<Option<Vec<u8>>, Memory>
    requires target { IsCategory (schema_of schema.now).graph target.0 }
    requires sources { All (IsCategory (schema_of schema.now).graph) (numbers_of sources.now) }
    ensures certificate { IfOk result (λ o. IfSome o (λ text.
        IsCertificateFor form (schema_of schema.now) target.0 (numbers_of sources.now) text.items)) }
    ensures short { IfOk result (λ o. IfSome o (λ text. length text.items ≤ most_certificate_bytes)) }
{
    let text = match draft(alloc, schema, form, target, sources) {
        Ok(text) => text,
        Err(Refusal::Memory(m)) => return Err(m),
        Err(Refusal::Kind(_)) => return Ok(None),
    };
    if text.len() as u64 > MOST_CERTIFICATE_BYTES {
        return Ok(None);
    }
    match verify(alloc, schema, form, target, sources, &text) {
        Ok(()) => Ok(Some(text)),
        Err(Refusal::Memory(m)) => Err(m),
        Err(Refusal::Kind(_)) => Ok(None),
    }
}

// A certificate where the target is summarizable: the draft if it is one, and else the plain one.
fn certificate(
    alloc: Global,
    schema: &Schema,
    form: Form,
    target: CatId,
    sources: &[CatId],
) -> Result<Text, Memory>
    requires target { IsCategory (schema_of schema.now).graph target.0 }
    requires sources { All (IsCategory (schema_of schema.now).graph) (numbers_of sources.now) }
    requires summarizable { IsSummarizable (schema_of schema.now) target.0 (numbers_of sources.now) }
    ensures certificate { IfOk result (IsCertificateFor form (schema_of schema.now) target.0 (numbers_of sources.now)) }
    ensures short { IfOk result (λ text. length text ≤ most_certificate_bytes) }
{
    let drafted = accepted_draft(alloc, schema, form, target, sources)?;
    match drafted {
        Some(text) => Ok(Text::from_vec(text)),
        None => plain_certificate(alloc, schema, form, target, sources),
    }
}

/// Why the target is summarizable from the sources, or why it isn't: `Yes` exactly if it is, with a certificate of the
/// form, and else `No` with the counterexample that `summarizable` gives.
///
/// `DuplicateSource`: exactly if a source stands twice. `Memory`: out of memory, or the certificate that was found is
/// longer than a file of one may be: what is given out fits; or none was found with the steps that a draft may take.
/// The target may be a source, and either may be `All`. Most certificates are short.
pub fn prove(
    alloc: Global,
    schema: &Schema,
    form: Form,
    target: CatId,
    sources: &[CatId],
) -> Result<Proof, Refusal<DuplicateSource>>
    requires target { IsCategory (schema_of schema.now).graph target.0 }
    requires sources { All (IsCategory (schema_of schema.now).graph) (numbers_of sources.now) }
    ensures duplicate { (result ≡ Err (refusal.Kind duplicate_source))
        ↔ (AllPairs ◌≢◌ (numbers_of sources.now) → ⊥) }
    ensures yes { IfOk result (λ p.
        IsYes p ↔ IsSummarizable (schema_of schema.now) target.0 (numbers_of sources.now)) }
    ensures proof { IfOk result (Shows form (schema_of schema.now) target.0 (numbers_of sources.now)) }
    ensures short { IfOk result IsShort }
{
    match summarizable(alloc, schema, target, sources)? {
        Some(found) => Ok(Proof::No(found)),
        None => {
            let text = certificate(alloc, schema, form, target, sources)?;
            Ok(Proof::Yes(text))
        }
    }
}
