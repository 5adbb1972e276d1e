// The text of stored views: reading and printing it.
ghost use Rattle.std.specs.Prelude.{◌≡◌, ◌<◌, [], All, IfOk, IsTrue, MatchResult, None, Ok, OnOk, drop, length};
ghost use Rattle.olap_base.specs.Graph.{IsCategory};
ghost use Rattle.olap_base.specs.Refusing.{IsRefusedBy};
ghost use Rattle.olap_records.specs.Faults.{first_fault};
ghost use Rattle.olap_records.specs.Records.{records_of};
ghost use Rattle.olap_view.specs.Seen.{each_view_of, views_of};
ghost use Rattle.olap_view.specs.StoreReading.{IsStoreFaultOf, Tells};
ghost use Rattle.olap_view.specs.StoreText.{header, records_of_store, store_fault, store_read, store_text, views_read};
ghost use Rattle.olap_view.specs.Stores.{IsInFileOrder, IsSoundStore};
ghost use Rattle.olap_records.specs.Tables.{begins_with};

use crate::guessing::Guess;
use crate::judging::{enter, judge};
use crate::printing::print_rows;
use crate::stored_rows::StoredRows;
use crate::{Store, StoreKind, View};
use olap_base::{Fault, List, Memory, Refusal, Text};
use olap_graph::Graph;
use olap_instance::Instance;
use olap_records::{Printer, Rows};
use std::alloc::Global;

/// Prints the header, and each view after it: the record that begins it, and its rows.
fn print_views(
    out: &mut Printer,
    graph: &Graph,
    instance: &Instance,
    store: &Store,
) -> Result<(), Memory>
    requires width { out.old.width ≡ 6 }
    requires nothing { out.old.text ≡ [] }
    requires categories { All (λ v. IsCategory graph.now v.target) (views_of store.now) }
    requires at_members { All (λ v. All (λ r. r.at < length instance.now) v.rows) (views_of store.now) }
    ensures { OnOk result (out.new.text ≡ store_text graph.now instance.now (views_of store.now)) }
{
    out.row(&[
        b"category",
        b"member",
        b"count",
        b"sum",
        b"least",
        b"greatest",
    ])?;
    'views: for view in store.views.items() {
        let name = graph.name(view.category).bytes();
        print_rows(
            out,
            instance,
            &[name, b"", b"", b"", b"", b""],
            Some(name),
            view,
        )?;
    }
    Ok(())
}

/// The text of stored views: a header, and for each view a record that begins it and a record for each row, with the
/// category's name, the member's id and the four numbers in decimal. Its records read back as these, and reading it
/// gives the same store, if it is sound and its rows stand in file order. `Memory`: out of memory.
pub fn print_store(
    alloc: Global,
    graph: &Graph,
    instance: &Instance,
    store: &Store,
) -> Result<Text, Memory>
    requires categories { All (λ v. IsCategory graph.now v.target) (views_of store.now) }
    requires at_members { All (λ v. All (λ r. r.at < length instance.now) v.rows) (views_of store.now) }

    ensures text { IfOk result (λ text. text ≡ store_text graph.now instance.now (views_of store.now)) }
    ensures reads { IfOk result (λ text. records_of text
        ≡ records_of_store graph.now instance.now (views_of store.now)) }

    ensures reads_back { IsSoundStore graph.now instance.now (views_of store.now)
        → All (IsInFileOrder instance.now) (views_of store.now)
        → IfOk result (λ text. store_read graph.now instance.now (records_of text)
        ≡ Ok (views_of store.now)) }
{
    // Called for their clauses: reading back rests on what is known of every graph and every instance.
    graph.categories();
    instance.members();
    let mut out = Printer::new(alloc, 6);
    let printed = print_views(&mut out, graph, instance, store);
    let text = printed.and(out.finish())?;
    Ok(Text::from_vec(text))
}

/// Reads the first record, and says whether it is the header.
fn begins(rows: &mut Rows) -> Result<bool, Memory>
    ensures header { IfOk result (λ b. b ≡ begins_with header rows.old.left) }
    ensures left { IfOk result (λ b. IsTrue b → rows.new.left ≡ drop 1 rows.old.left) }
{
    let found = rows.advance()?;
    Ok(
        found
            && rows.is_row(&[
                b"category",
                b"member",
                b"count",
                b"sum",
                b"least",
                b"greatest",
            ]),
    )
}

/// Enters what the records say that are left where no row is.
fn read_rows(
    graph: &Graph,
    instance: &Instance,
    rows: &mut Rows,
    table: &mut StoredRows,
) -> Result<(), Refusal<Fault<StoreKind>>>
    requires { Tells graph.now instance.now [] table.old }
    ensures { MatchResult result
        (λ _. (first_fault (store_fault graph.now instance.now) [] rows.old.left ≡ None)
        × Tells graph.now instance.now rows.old.left table.new)
        (λ e. IsStoreFaultOf (first_fault (store_fault graph.now instance.now) [] rows.old.left) e) }
{
    let mut at = 2;
    let mut guess = Guess::new();
    'rows: while rows.advance()? {
        match judge(graph, instance, rows, table, guess) {
            Ok(entry) => {
                guess = guess.after(entry);
                enter(table, entry)?;
            }
            Err(kind) => return Err(Refusal::Kind(Fault { at, kind })),
        }
        at += 1;
    }
    Ok(())
}

/// The views that the records say that are left.
fn read_views(
    alloc: Global,
    graph: &Graph,
    instance: &Instance,
    rows: &mut Rows,
) -> Result<List<View>, Refusal<Fault<StoreKind>>>
    ensures read { MatchResult result
        (λ v. (first_fault (store_fault graph.now instance.now) [] rows.old.left ≡ None)
        × (each_view_of v ≡ views_read graph.now instance.now rows.old.left))
        (λ e. IsStoreFaultOf (first_fault (store_fault graph.now instance.now) [] rows.old.left) e) }
    ensures sound { IfOk result (λ v. IsSoundStore graph.now instance.now (each_view_of v)) }
    ensures order { IfOk result (λ v. All (IsInFileOrder instance.now) (each_view_of v)) }
{
    let mut table = StoredRows::new(alloc, instance)?;
    read_rows(graph, instance, rows, &mut table)?;
    Ok(table.views(alloc, instance)?)
}

/// The stored views that the records tell that are left, or their first fault.
fn read_left(
    alloc: Global,
    graph: &Graph,
    instance: &Instance,
    rows: &mut Rows,
) -> Result<Store, Refusal<Fault<StoreKind>>>
    ensures read { MatchResult result
        (λ store. store_read graph.now instance.now rows.old.left ≡ Ok (views_of store))
        (λ e. IsRefusedBy e (store_read graph.now instance.now rows.old.left)) }
    ensures sound { IfOk result (λ store. IsSoundStore graph.now instance.now (views_of store)) }
    ensures order { IfOk result (λ store. All (IsInFileOrder instance.now) (views_of store)) }
{
    if !begins(rows)? {
        return Err(Refusal::Kind(Fault {
            at: 1,
            kind: StoreKind::BadHeader,
        }));
    }
    Ok(Store {
        views: read_views(alloc, graph, instance, rows)?,
    })
}

/// The stored views that a text tells, or the text's first fault. The rows of each view stand in the order of their
/// members, whatever their order in the text.
///
/// Linear in the text: a record takes a look-up of a category's name and one of a member's id, or where it names the
/// category of the record before and the member after that one's, a comparison of each. It takes four bytes for each
/// member of the instance, and memory for each row. `Memory`: out of memory.
pub fn read_store(
    alloc: Global,
    graph: &Graph,
    instance: &Instance,
    text: &[u8],
) -> Result<Store, Refusal<Fault<StoreKind>>>
    ensures read { MatchResult result
        (λ store. store_read graph.now instance.now (records_of text.now) ≡ Ok (views_of store))
        (λ e. IsRefusedBy e (store_read graph.now instance.now (records_of text.now))) }

    ensures sound { IfOk result (λ store. IsSoundStore graph.now instance.now (views_of store)) }
    ensures order { IfOk result (λ store. All (IsInFileOrder instance.now) (views_of store)) }
{
    let mut rows = Rows::new(alloc, text);
    read_left(alloc, graph, instance, &mut rows)
}
