// Views from the stored views of a small instance.
ghost use Rattle.std.specs.Prelude.{◌≡◌, ◌<◌, ◌^◌, All, length};
ghost use Rattle.olap_view.specs.Seen.{views_of};
ghost use Rattle.olap_view.specs.Stores.{Fits, IsStore};

use crate::locations::stored;
use olap_base::CatId;
use olap_legal::Legal;
use olap_view::{Store, from_views, print_view};
use std::alloc::Global;
use std::process::Abort;

// Of each view the bits of the stored views that it is made from, its category and its text.
const VIEWS: [(u16, u16, &[u8]); 4] = [
    (7, 0, b"member,count,sum,least,greatest\nall,9,30,-5,10\n"),
    (
        3,
        5,
        b"member,count,sum,least,greatest\neast,3,3,-5,5\nsouth,1,7,7,7\n",
    ),
    (
        4,
        6,
        b"member,count,sum,least,greatest\nusa,1,10,10,10\nca,3,3,-5,5\nme,1,7,7,7\n",
    ),
    (4, 0, b"member,count,sum,least,greatest\nall,5,20,-5,10\n"),
];

// Whether the view of a category from the stored views whose bits are in the mask fits, and has this text.
fn is_text_from(
    alloc: Global,
    rt: &impl Abort,
    legal: &Legal,
    store: &Store,
    mask: u16,
    c: CatId,
    wanted: &[u8],
) -> bool
    requires store { IsStore (views_of store.now) }
    requires fit { All Fits (views_of store.now) }
    requires at_members { All (λ v. All (λ r. r.at < length legal.now) v.rows) (views_of store.now) }
    requires bits { mask < 2 ^ length store.now.views }
{
    let view = from_views(alloc, legal, store, mask, c).expect(rt, "a view");
    let text = print_view(alloc, legal.instance(), &view).expect(rt, "a text");
    view.fits() && text.bytes() == wanted
}

fn have_texts(alloc: Global, rt: &impl Abort, legal: &Legal, store: &Store)
    requires store { IsStore (views_of store.now) }
    requires fit { All Fits (views_of store.now) }
    requires at_members { All (λ v. All (λ r. r.at < length legal.now) v.rows) (views_of store.now) }
    requires three { length store.now.views ≡ 3 }
{
    for (mask, category, wanted) in &VIEWS {
        assert!(rt; *mask < 8);
        assert!(rt; is_text_from(alloc, rt, legal, store, *mask, CatId(*category), wanted));
    }
}

// Each view is made from those whose bits it has.
pub(crate) fn are_from_stored_views(alloc: Global, rt: &impl Abort, legal: &Legal) {
    let store = stored(alloc, rt, legal.instance());
    have_texts(alloc, rt, legal, &store);
}
