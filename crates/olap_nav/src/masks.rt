// Masks over the stored views, and what the views of a mask cost.
ghost use Rattle.std.specs.Int.{bit_at};
ghost use Rattle.std.specs.Prelude.{◌≡◌, ◌==◌, ◌<◌, ◌≤◌, IfOk, length};
ghost use Rattle.olap_base.specs.Limits.{most_views};
ghost use Rattle.olap_nav.specs.Plans.{rows_in, sources_in};
ghost use Rattle.olap_ast.specs.Trees.{numbers_of};
ghost use Rattle.olap_view.specs.Seen.{views_of};

use olap_base::{CatId, Memory};
use olap_view::Store;
use std::alloc::Global;

/// Whether the k-th view's bit is in the mask.
pub(crate) fn has_bit(mask: u16, k: usize) -> bool
    requires { k < most_views }
    ensures { result ≡ (bit_at mask k == 1) }
{
    mask >> k & 1 == 1
}

/// The categories of the views whose bits are in the mask, in order.
pub(crate) fn sources(alloc: Global, store: &Store, mask: u16) -> Result<Vec<CatId>, Memory>
    requires { length store.now.views ≤ most_views }
    ensures { IfOk result (λ v. numbers_of v.items ≡ sources_in (views_of store.now) mask) }
{
    let mut sources = Vec::new(alloc);
    'views: for (k, view) in store.views.items().iter().enumerate() {
        if has_bit(mask, k) {
            sources.push(view.category)?;
        }
    }
    Ok(sources)
}

/// How many rows these views have together.
pub(crate) fn rows(store: &Store, mask: u16) -> u64
    requires { length store.now.views ≤ most_views }
    ensures { result ≡ rows_in (views_of store.now) mask }
{
    let mut rows = 0;
    'views: for (k, view) in store.views.items().iter().enumerate() {
        if has_bit(mask, k) {
            let count = view.rows.items().len();
            rows += count as u64;
        }
    }
    rows
}
