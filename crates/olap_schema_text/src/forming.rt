// Reading a formula over words, before any name is looked up.
ghost use Rattle.olap_base.specs.Limits.{most_schema_nodes};
ghost use Rattle.olap_grammar.specs.Nodes.{nodes_of};
ghost use Rattle.olap_schema_text.specs.Judging.{form_read, formula_read};
ghost use Rattle.olap_schema_text.specs.Kinds.{name_of_kind};
ghost use Rattle.olap_schema_text.specs.Reading.{ReadsForm, form_kind as form_kind_of};
ghost use Rattle.std.specs.Prelude.{◌≡◌, ◌≤◌, ◌+◌, IfOk};

use crate::SchemaKind;
use crate::measuring::{has_bad_number, has_long_text, has_too_many_nodes, nodes, opens_too_deep};
use olap_base::{MOST_TEXT_BYTES, Refusal};
use olap_grammar::{Form, FormFault, Token, Version, formula};
use std::alloc::Global;

/// The fault of tokens that are no formula.
fn form_kind(fault: FormFault) -> SchemaKind
    ensures { name_of_kind result ≡ form_kind_of fault }
{
    match fault {
        FormFault::BadForm => SchemaKind::BadForm,
        FormFault::TooDeep => SchemaKind::TooDeep,
    }
}

/// The formula of the tokens by the version, with this many nodes on the lines above.
#[tactic(auto, using(crate::proofs::FormLemmas::same_answer), unfolding(crate::specs::Judging::form_read))]
fn read_form(
    alloc: Global,
    version: Version,
    before: u32,
    tokens: &[Token],
) -> Result<Form, Refusal<SchemaKind>>
    ensures read { ReadsForm result (form_read version before tokens.now) }
    ensures few { IfOk result (λ f. before + nodes_of version tokens.now ≤ most_schema_nodes) }
{
    if has_too_many_nodes(before, nodes(version, tokens)) {
        return Err(Refusal::Kind(SchemaKind::TooManyNodes));
    }
    if opens_too_deep(tokens) {
        return Err(Refusal::Kind(SchemaKind::TooDeep));
    }
    match formula(alloc, version, tokens) {
        Ok(f) => Ok(f),
        Err(Refusal::Kind(fault)) => Err(Refusal::Kind(form_kind(fault))),
        Err(Refusal::Memory(m)) => Err(Refusal::Memory(m)),
    }
}

/// The same with short names and good numbers, where a root of this name stands in front.
pub(crate) fn checked_form(
    alloc: Global,
    version: Version,
    before: u32,
    name: &[u8],
    tokens: &[Token],
) -> Result<Form, Refusal<SchemaKind>>
    ensures read { ReadsForm result (formula_read version before name.now tokens.now) }
    ensures few { IfOk result (λ f. before + nodes_of version tokens.now ≤ most_schema_nodes) }
{
    let form = read_form(alloc, version, before, tokens)?;
    if name.len() > MOST_TEXT_BYTES || has_long_text(tokens) {
        return Err(Refusal::Kind(SchemaKind::TextTooLong));
    }
    if has_bad_number(tokens) {
        return Err(Refusal::Kind(SchemaKind::BadNumber));
    }
    Ok(form)
}
