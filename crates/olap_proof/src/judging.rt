// A text, judged line by line.
ghost use Rattle.std.specs.Prelude.{◌≡◌, ◌++◌, ◌∷◌, ◌↔◌, ◌<◌, ◌+◌, ◌^◌, [], Contains, IfOk, IfSome, IsNone, IsTrue, length};
ghost use Rattle.olap_base.specs.Bytes.{line_feed};
ghost use Rattle.olap_proof.specs.Asking.{IsAsked, names_in, question_in, schema_in};
ghost use Rattle.olap_proof.specs.Certificates.{IsCertificateText};
ghost use Rattle.olap_proof.specs.Stages.{open_at};
ghost use Rattle.olap_proof.specs.Certificates.{IsFirstWrong};
ghost use Rattle.olap_proof.specs.declared.asking.Asked.{Asked as AnyAsked};
ghost use Rattle.olap_proof.specs.declared.stages.Stage.TheVariants as variant;

use crate::Form;
use crate::asking::Asked;
use crate::lines::cut;
use crate::stages::{Stage, step};
use olap_base::Memory;
use std::alloc::Global;

/// A line, without its LF, and what stands after it, if there is one.
fn next_line(text: &[u8]) -> Option<(&[u8], &[u8])>
    ensures some { IfSome result (λ p. text.now ≡ p.0.now ++ line_feed ∷ p.1.now) }
    ensures whole { IfSome result (λ p. Contains p.0.now line_feed → ⊥) }
    ensures none { IsNone result → Contains text.now line_feed → ⊥ }
{
    match cut(text, b'\n') {
        (line, Some(others)) => Some((line, others)),
        (_, None) => None,
    }
}

/// The line at which the text ends too early, if it does: the one after this many.
fn early_end(rest: &[u8], stage: &Stage, count: u64) -> Option<u64>
    requires { count + 1 < 2 ^ 64 }
    ensures none { (a : AnyAsked) → IsNone result → (rest.now ≡ []) × (open_at a stage.now ≡ []) }
    ensures some { (a : AnyAsked) → IfSome result (λ line. (line ≡ count + 1)
        × ((rest.now ≡ []) × (open_at a stage.now ≡ []) → ⊥)) }
{
    if rest.is_empty() && matches!(stage, Stage::Done) {
        return None;
    }
    Some(count + 1)
}

/// The number of the first line that is wrong, of a text that is read from the first line on.
fn first_wrong_from(
    alloc: Global,
    asked: &Asked<'_>,
    form: Form,
    stage: &mut Stage,
    text: &[u8],
) -> Result<Option<u64>, Memory>
    requires asked { IsAsked asked.now }
    requires few { length (schema_in asked.now).constraints < 2 ^ 64 }
    requires start { stage.old ≡ variant.Head }
    ensures none { IfOk result (λ o. IsNone o
        → IsCertificateText form (schema_in asked.now) (question_in asked.now) (names_in asked.now) text.now) }
    ensures some { IfOk result (λ o. IfSome o
        (IsFirstWrong form (schema_in asked.now) (question_in asked.now) (names_in asked.now) text.now)) }
{
    let mut rest = text;
    let mut count = 0u64;
    'lines: while let Some((line, others)) = next_line(rest) {
        if !step(alloc, asked, form, stage, line)? {
            return Ok(Some(count + 1));
        }
        rest = others;
        count += 1;
    }
    Ok(early_end(rest, stage, count))
}

/// The number of the first line that is wrong, from 1 on, if one is; where the text ends too early, the one after its
/// last. One pass over the text. `Memory`: out of memory.
pub(crate) fn first_wrong(
    alloc: Global,
    asked: &Asked<'_>,
    form: Form,
    text: &[u8],
) -> Result<Option<u64>, Memory>
    requires asked { IsAsked asked.now }
    requires few { length (schema_in asked.now).constraints < 2 ^ 64 }
    ensures none { IfOk result (λ o. IsNone o
        → IsCertificateText form (schema_in asked.now) (question_in asked.now) (names_in asked.now) text.now) }
    ensures some { IfOk result (λ o. IfSome o
        (IsFirstWrong form (schema_in asked.now) (question_in asked.now) (names_in asked.now) text.now)) }
{
    let mut stage = Stage::Head;
    first_wrong_from(alloc, asked, form, &mut stage, text)
}
