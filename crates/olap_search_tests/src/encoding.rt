// How many clauses there are of a schema and a root, where nothing is asked but that it has a member.
ghost use Rattle.olap_base.specs.Graph.{IsCategory};
ghost use Rattle.olap_encoding.specs.Formulas.{IsSpokenQuestion};
ghost use Rattle.olap_names.specs.Questions.{IsQuestion, question_of};
ghost use Rattle.olap_schema.specs.Schemas.{schema_of};

use crate::reading::read;
use olap_ast::Formula;
use olap_base::CatId;
use olap_encoding::encode;
use olap_names::{Candidates, Question};
use olap_schema::Schema;
use std::alloc::Global;
use std::process::Abort;

// The schema of `examples/location`, whose clauses are counted below. A line has what belongs together.
const LOCATION: &[u8] = b"schema 1\n\
category Store\ncategory City\ncategory State\ncategory Province\ncategory Region\ncategory Country\n\
edge Store City\nedge City State\nedge City Province\nedge City Country\nedge State Region\n\
edge State Country\nedge Province Region\nedge Region Country\nedge Country All\n\
constraint City: City_Country <-> City = \"Washington\"\n\
constraint City: one(City_State, City_Province, City_Country)\n\
constraint City: City = \"Washington\" -> City.Country = \"USA\"\n\
constraint State: State.Country = \"USA\" | State.Country = \"Mexico\"\n\
constraint State: State_Region <-> State.Country = \"Mexico\"\nconstraint State: State_Region ^ State_Country\n\
constraint Province: Province.Country = \"Canada\"\n";

// For each category beside `All` how many clauses there are with it as the root, counted by hand.
const COUNTS: [(&[u8], usize); 6] = [
    (b"Store", 128),
    (b"City", 120),
    (b"State", 60),
    (b"Province", 35),
    (b"Region", 29),
    (b"Country", 27),
];

// A ring above a category, declared upwards and downwards.
const RINGS: [&[u8]; 2] = [
    b"schema 1
category Store
category City
category State
category Country
edge Store City
edge City State
edge State Country
edge Country City
edge Country All
",
    b"schema 1
category Country
category State
category City
category Store
edge Store City
edge City State
edge State Country
edge Country City
edge Country All
",
];

// How many clauses the question has.
fn clause_count(rt: &impl Abort, alloc: Global, question: &Question) -> usize
    requires question { IsQuestion (question_of question.now) }
    requires spoken { IsSpokenQuestion (question_of question.now) }
{
    let encoder = encode(alloc, question).expect(rt, "memory");
    encoder.into_parts().pool.len()
}

// How many clauses there are with this root.
fn clauses_at(rt: &impl Abort, alloc: Global, schema: &Schema, root: CatId) -> usize
    requires { IsCategory (schema_of schema.now).graph root.0 }
{
    let formula = Formula::True;
    let graph = schema.graph();
    let constraints = schema.constraints();
    let candidates = Candidates::of(alloc, graph, constraints, &formula).expect(rt, "memory");
    let question = Question {
        graph,
        constraints,
        formula: &formula,
        root,
        candidates: &candidates,
    };
    clause_count(rt, alloc, &question)
}

// The same of a schema's text and a category's name.
fn clauses_of(rt: &impl Abort, alloc: Global, text: &[u8], root: &[u8]) -> usize {
    let schema = read(rt, alloc, text);
    let root = schema.graph().category(root).expect(rt, "a category");
    clauses_at(rt, alloc, &schema, root)
}

#[test]
fn clauses_of_locations(rt: HostRuntime) {
    for (root, count) in &COUNTS {
        assert!(rt; clauses_of(&rt, rt.alloc(), LOCATION, root) == *count);
    }
}

// Counted by hand. That no walk comes back is said of one edge, whichever way the categories were declared.
#[test]
fn clauses_of_rings(rt: HostRuntime) {
    for ring in &RINGS {
        assert!(rt; clauses_of(&rt, rt.alloc(), ring, b"Store") == 38);
    }
}
