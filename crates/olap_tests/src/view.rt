// Views of facts that were read into a list.
ghost use Rattle.olap_instance.specs.Made.{IsMadeFor};
ghost use Rattle.olap_schema.specs.Schemas.{schema_of};

use olap_facts::read_facts;
use olap_legal::Legal;
use olap_schema::Schema;
use olap_view::{direct, print_view};
use std::alloc::Global;
use std::process::Abort;

// Categories, facts and the text of the view.
const VIEWS: [(&[u8], &[u8], &[u8]); 5] = [
    (
        b"City",
        b"member,value\ns2,5\ns5,-5\ns2,0\n",
        b"member,count,sum,least,greatest\nto,3,0,-5,5\n",
    ),
    (
        b"City",
        b"member,value\n",
        b"member,count,sum,least,greatest\n",
    ),
    (
        b"Store",
        b"member,value\ns2,7\ns1,1\ns1,-3\n",
        b"member,count,sum,least,greatest\ns1,2,-2,-3,1\ns2,1,7,7,7\n",
    ),
    (
        b"City",
        b"member,value\ns1,9223372036854775807\ns1,9223372036854775807\n",
        b"member,count,sum,least,greatest\nw,2,18446744073709551614,9223372036854775807,9223372036854775807\n",
    ),
    (
        b"All",
        b"member,value\ns2,7\ns1,1\n",
        b"member,count,sum,least,greatest\nall,2,8,1,7\n",
    ),
];

// Whether the view of a category, with these facts, has this text.
fn is_view_of(
    alloc: Global,
    rt: &impl Abort,
    schema: &Schema,
    legal: &Legal,
    category: &[u8],
    facts: &[u8],
    wanted: &[u8],
) -> bool
    requires { IsMadeFor (schema_of schema.now).graph legal.now }
{
    let c = schema.graph().category(category).expect(rt, "a category");
    let facts = read_facts(alloc, schema.graph(), legal.instance(), facts).expect(rt, "facts");
    let view = direct(alloc, legal, &facts, c).expect(rt, "a view");
    let text = print_view(alloc, legal.instance(), &view).expect(rt, "a text");
    text.bytes() == wanted
}

// Each view has its text.
pub(crate) fn are_views(alloc: Global, rt: &impl Abort, schema: &Schema, legal: &Legal)
    requires { IsMadeFor (schema_of schema.now).graph legal.now }
{
    for (category, facts, wanted) in &VIEWS {
        assert!(rt; is_view_of(alloc, rt, schema, legal, category, facts, wanted));
    }
}
