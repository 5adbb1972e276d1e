// The commands `verify` and `verify-short`: whether a text is a certificate.
ghost use Rattle.std.specs.Prelude.{◌≡◌, ◌≢◌, ◌++◌, ◌∷◌, ◌<◌, ◌^◌, All, AllPairs, IfOk, codes, decimal, length};
ghost use Rattle.olap_base.specs.Graph.{IsCategory};
ghost use Rattle.olap_order.specs.Judged.{Judged, Replies};
ghost use Rattle.olap_order.specs.Order.{Done};
ghost use Rattle.olap_order.specs.Outputs.{line};
ghost use Rattle.olap_order.specs.Words.{texts};
ghost use Rattle.olap_ast.specs.Trees.{numbers_of};
ghost use Rattle.olap_schema.specs.Schemas.{schema_of};
ghost use Rattle.olap_verdicts.specs.Commands.{verify_order};
ghost use Rattle.olap_verdicts.specs.Questions.{ByCertificate, IsAnswer};
ghost use Rattle.olap_verdicts.specs.Seen.{verify_under};

use olap_base::{CatId, MOST_CERTIFICATE_BYTES, Refusal};
use olap_order::{Reply, Stop, categories_at, category_at, no, schema_in, text_in, yes};
use olap_outside::Library;
use olap_proof::{Form, VerifyFault};
use olap_schema::Schema;
use std::alloc::{AllocError, Global};

/// `rejected line` and the line's number.
fn rejected(alloc: Global, at: u64) -> Result<Vec<u8>, AllocError>
    ensures { IfOk result (λ text. text.items ≡ line (codes "rejected line " ++ decimal at)) }
{
    let text = format!(in alloc; "rejected line {at}\n")?;
    Ok(text.into_bytes())
}

/// Whether the text is a certificate, and else the first line that is wrong.
fn told(
    alloc: Global,
    schema: &Schema,
    form: Form,
    target: CatId,
    sources: &[CatId],
    text: &[u8],
) -> Result<Reply, Stop>
    requires target { IsCategory (schema_of schema.now).graph target.0 }
    requires sources { All (IsCategory (schema_of schema.now).graph) (numbers_of sources.now) }
    requires differ { AllPairs ◌≢◌ (numbers_of sources.now) }
    ensures replies { Replies IsAnswer (Done (ByCertificate form (schema_of schema.now) target.0
        (numbers_of sources.now) text.now)) result }
{
    match olap_proof::verify(alloc, schema, form, target, sources, text) {
        Ok(()) => Ok(yes(Vec::from_slice(alloc, b"accepted\n")?)),
        Err(Refusal::Kind(VerifyFault::Rejected { line })) => Ok(no(rejected(alloc, line)?)),
        Err(Refusal::Kind(VerifyFault::DuplicateSource)) => unreachable!(),
        Err(Refusal::Memory(m)) => Err(Stop::Memory(m)),
    }
}

/// Whether the text in a file is a certificate for the schema, the target and the sources.
fn verify_for<L: Library>(
    alloc: Global,
    form: Form,
    schema: &Schema,
    certificate: &str,
    target: &str,
    sources: &[String],
    lib: &mut L,
) -> Result<Reply, Stop>
    requires few { length sources.now < 2 ^ 63 }
    ensures judged { Judged IsAnswer L.Library lib.old lib.new
        (verify_under form (schema_of schema.now) certificate.now target.now (texts sources.now)) result }
{
    let target = category_at(alloc, 4, schema, target)?;
    let sources = categories_at(alloc, 5, "DuplicateSource", schema, sources)?;
    let text = text_in(
        alloc,
        "certificate",
        certificate,
        MOST_CERTIFICATE_BYTES,
        lib,
    )?;
    told(alloc, schema, form, target, &sources, &text)
}

/// Whether the text in a file is a certificate for the schema in another, the target and the sources.
pub(crate) fn verify<L: Library>(
    alloc: Global,
    form: Form,
    schema: &str,
    certificate: &str,
    target: &str,
    sources: &[String],
    lib: &mut L,
) -> Result<Reply, Stop>
    requires few { length sources.now < 2 ^ 63 }
    ensures judged { Judged IsAnswer L.Library lib.old lib.new
        (verify_order form (schema.now ∷ certificate.now ∷ target.now ∷ texts sources.now)) result }
{
    let schema = schema_in(alloc, "schema", schema, lib)?;
    verify_for(alloc, form, &schema, certificate, target, sources, lib)
}
