// An instance, printed.
ghost use Rattle.std.specs.Prelude.{◌≡◌, ◌<◌, ◌≤◌, ◌∷◌, ◌++◌, All, Ok, length, map, IfOk, OnOk, if◌then◌else◌};
ghost use Rattle.std.specs.List.{join_with_byte};
ghost use Rattle.olap_base.specs.Bytes.{semicolon};
ghost use Rattle.olap_base.specs.Graph.{IsHierarchy};
ghost use Rattle.olap_base.specs.Instance.{IsInstance, member_at};
ghost use Rattle.olap_base.specs.Limits.{most_members};
ghost use Rattle.olap_records.specs.Records.{records_of};
ghost use Rattle.olap_records.specs.Texts.{text_of_row};
ghost use Rattle.olap_instance.specs.InstanceText.{instance_read};
ghost use Rattle.olap_instance.specs.Made.{IsMadeFor};
ghost use Rattle.olap_instance.specs.Members.{AllHasNoParents, HasShortNames, HasTexts};
ghost use Rattle.olap_instance.specs.Printing.{member_fields, text_of_instance};

use crate::Instance;
use olap_base::{MemberId, Memory, Text};
use olap_graph::Graph;
use olap_records::Printer;
use std::alloc::Global;

// Adds a piece, after a semicolon where it isn't the first.
fn add_piece(text: &mut Vec<u8>, is_first: bool, piece: &[u8]) -> Result<(), Memory>
    ensures { OnOk result (text.new.items ≡ text.old.items
        ++ (if is_first then piece.now else semicolon ∷ piece.now)) }
{
    if is_first {
        text.extend_from_slice(piece)?;
        return Ok(());
    }
    text.push(b';')?;
    text.extend_from_slice(piece)?;
    Ok(())
}

// The ids of members, with semicolons between them.
fn joined(alloc: Global, instance: &Instance, members: &[MemberId]) -> Result<Vec<u8>, Memory>
    requires { All (λ m. m.0 < length instance.now) members.now }
    ensures { IfOk result (λ v. v.items
        ≡ join_with_byte semicolon (map (λ m. (member_at instance.now m.0).id) members.now)) }
{
    let mut text = Vec::new(alloc);
    'members: for i in 0..members.len() {
        add_piece(&mut text, i == 0, instance.id(members[i]))?;
    }
    Ok(text)
}

// Adds a member's record.
fn print_member(
    alloc: Global,
    out: &mut Printer,
    graph: &Graph,
    instance: &Instance,
    m: MemberId,
) -> Result<(), Memory>
    requires made { IsMadeFor graph.now instance.now }
    requires inside { m.0 < length instance.now }
    requires width { out.old.width ≡ 4 }
    ensures text { OnOk result (out.new.text
        ≡ out.old.text ++ text_of_row (member_fields graph.now instance.now (member_at instance.now m.0))) }
    ensures width { out.new.width ≡ 4 }
{
    let parents = joined(alloc, instance, instance.parents(m))?;
    let category = graph.name(instance.category(m)).bytes();
    out.row(&[instance.id(m), category, instance.name(m), &parents])
}

// The text of an instance.
fn printed(alloc: Global, graph: &Graph, instance: &Instance) -> Result<Vec<u8>, Memory>
    requires made { IsMadeFor graph.now instance.now }
    ensures { IfOk result (λ v. v.items ≡ text_of_instance graph.now instance.now) }
{
    let mut out = Printer::new(alloc, 4);
    out.row(&[b"id", b"category", b"name", b"parents"])?;
    'others: for m in 0..instance.members() - 1 {
        print_member(alloc, &mut out, graph, instance, MemberId(m))?;
    }
    out.finish()
}

// What is known of every graph and every instance, which reading back rests on.
fn recall(graph: &Graph, instance: &Instance)
    ensures hierarchy { IsHierarchy graph.now }
    ensures sound { IsInstance instance.now }
    ensures texts { HasTexts instance.now }
    ensures few { length instance.now ≤ most_members }
    ensures top { AllHasNoParents instance.now }
{
    graph.categories();
    instance.members();
}

/// The text of an instance that was made for the graph. Reading it gives the same instance, where each
/// name is short enough for a file.
pub fn print_instance(alloc: Global, graph: &Graph, instance: &Instance) -> Result<Text, Memory>
    requires made { IsMadeFor graph.now instance.now }
    ensures text { IfOk result (λ t. t ≡ text_of_instance graph.now instance.now) }
    ensures reads { HasShortNames instance.now
        → IfOk result (λ t. instance_read graph.now (records_of t) ≡ Ok instance.now) }
{
    recall(graph, instance);
    Ok(Text::from_vec(printed(alloc, graph, instance)?))
}
