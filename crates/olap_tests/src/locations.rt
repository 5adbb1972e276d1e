// Locations: a schema, a legal instance of it and stored views, and the one test of views, which owns them.
ghost use Rattle.std.specs.Prelude.{◌≡◌, ◌<◌, All, length};
ghost use Rattle.olap_instance.specs.Made.{IsMadeFor};
ghost use Rattle.olap_schema.specs.Schemas.{schema_of};
ghost use Rattle.olap_view.specs.Seen.{views_of};
ghost use Rattle.olap_view.specs.Stores.{Fits, IsStore};

use crate::reading::read;
use crate::stored::are_from_stored_views;
use crate::view::are_views;
use olap_base::{CatId, List, MemberId};
use olap_check::check;
use olap_instance::{Instance, read_instance};
use olap_legal::Legal;
use olap_schema::Schema;
use olap_view::{Row, Store, View};
use std::alloc::Global;
use std::process::Abort;

const LOCATION: &[u8] = b"schema 1
category Store
category City
category State
category Province
category Region
category Country
edge Store City
edge City State
edge City Province
edge City Country
edge State Region
edge State Country
edge Province Region
edge Region Country
edge Country All
";

const MEMBERS: &[u8] = b"id,category,name,parents
s1,Store,S1,w
s2,Store,S2,to
s3,Store,S3,au
s4,Store,S4,mx
s5,Store,S5,to
w,City,Washington,usa
to,City,Toronto,on
au,City,Austin,tx
mx,City,Merida,yu
on,Province,Ontario,east
tx,State,Texas,usa
yu,State,Yucatan,south
east,Region,East,ca
south,Region,South,me
usa,Country,USA,all
ca,Country,Canada,all
me,Country,Mexico,all
";

const YUCATAN: Row = Row {
    member: MemberId(11),
    count: 1,
    sum: 7,
    least: 7,
    greatest: 7,
};

const ONTARIO: Row = Row {
    member: MemberId(9),
    count: 3,
    sum: 3,
    least: -5,
    greatest: 5,
};

const WASHINGTON: Row = Row {
    member: MemberId(5),
    count: 1,
    sum: 10,
    least: 10,
    greatest: 10,
};

const TORONTO: Row = Row {
    member: MemberId(6),
    count: 3,
    sum: 3,
    least: -5,
    greatest: 5,
};

const MERIDA: Row = Row {
    member: MemberId(8),
    count: 1,
    sum: 7,
    least: 7,
    greatest: 7,
};

// The members, which are a legal instance.
fn legal(alloc: Global, rt: &impl Abort, schema: &Schema) -> Legal
    ensures { IsMadeFor (schema_of schema.now).graph result }
{
    let instance = read_instance(alloc, schema.graph(), MEMBERS).expect(rt, "an instance");
    match check(alloc, schema, instance) {
        Ok(legal) => legal,
        Err(_) => panic!(rt; "a legal instance"),
    }
}

// A view with these rows.
fn view(category: u16, rows: Vec<Row>) -> View
    ensures category { result.category.0 ≡ category }
    ensures rows { result.rows ≡ rows.items }
{
    View {
        category: CatId(category),
        rows: List::from_vec(rows),
    }
}

// The stored views of the states, the provinces and the cities, of an instance of the locations.
pub(crate) fn stored(alloc: Global, rt: &impl Abort, instance: &Instance) -> Store
    ensures store { IsStore (views_of result) }
    ensures fit { All Fits (views_of result) }
    ensures three { length result.views ≡ 3 }
    ensures at_members { All (λ v. All (λ r. r.at < length instance.now) v.rows) (views_of result) }
{
    assert!(rt; instance.members() == 18);
    let states = vec![in alloc; YUCATAN].expect(rt, "memory");
    let provinces = vec![in alloc; ONTARIO].expect(rt, "memory");
    let cities = vec![in alloc; WASHINGTON, TORONTO, MERIDA].expect(rt, "memory");
    let states = view(3, states);
    let provinces = view(4, provinces);
    let cities = view(2, cities);
    let views = vec![in alloc; states, provinces, cities].expect(rt, "memory");
    Store {
        views: List::from_vec(views),
    }
}

#[test]
fn views_of_locations(rt: HostRuntime) {
    let schema = read(&rt, rt.alloc(), LOCATION);
    let legal = legal(rt.alloc(), &rt, &schema);
    are_views(rt.alloc(), &rt, &schema, &legal);
    are_from_stored_views(rt.alloc(), &rt, &legal);
}
