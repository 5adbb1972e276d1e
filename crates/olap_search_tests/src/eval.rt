// A partial shape of which little is known, and the values of a few formulas by it.
use crate::reading::read;
use olap_ast::{Constraint, Op, Truth3};
use olap_base::{CatId, Text};
use olap_eval::{Partial, holds3};
use std::process::Abort;

// Formulas of the category 3, over the categories 1 and 2.
const FORMULAS: &[u8] = b"schema 2\n\
category Region number\ncategory State number\ncategory Store\n\
edge Store State\nedge State Region\nedge Region All\n\
constraint Store: Store.Region\nconstraint Store: Store.State\nconstraint Store: Store.State.Region\n\
constraint Store: Store.Region < 9\nconstraint Store: Store.State < 9\nconstraint Store: !Store.Region\n\
constraint Store: one(true, Store.Region)\nconstraint Store: one(true, Store.State)\n\
constraint Store: one(true, true)\n";

// Their values, where nothing reaches the category 1.
const VALUES: [Truth3; 9] = [
    Truth3::No,
    Truth3::Unknown,
    Truth3::No,
    Truth3::No,
    Truth3::Unknown,
    Truth3::Yes,
    Truth3::Yes,
    Truth3::Unknown,
    Truth3::No,
];

// Of category 1 it is known that nothing reaches it; else nothing is known.
struct Without1;

impl Partial for Without1 {
    ghost use Rattle.std.specs.Prelude.{◌==◌, if◌then◌else◌};
    ghost use Rattle.olap_ast.specs.declared.three_values.Truth3.TheVariants.{No, Unknown};

    ghost known = { λ _. record {
      edge = λ _ _. Unknown;
      reaches = λ _ d. if d == 1 then No else Unknown;
      name = λ _ _. Unknown;
      number = λ _ _ _. Unknown;
    } };

    fn edge(&self, _: CatId, _: CatId) -> Truth3 {
        Truth3::Unknown
    }

    fn reaches(&self, _: CatId, d: CatId) -> Truth3 {
        if d.0 == 1 {
            Truth3::No
        } else {
            Truth3::Unknown
        }
    }

    fn name(&self, _: CatId, _: &Text) -> Truth3 {
        Truth3::Unknown
    }

    fn number(&self, _: CatId, _: Op, _: i64) -> Truth3 {
        Truth3::Unknown
    }
}

// Each formula has its value.
fn have_values(rt: &impl Abort, constraints: &[Constraint]) {
    assert!(rt; constraints.len() == VALUES.len());
    for (constraint, value) in constraints.iter().zip(&VALUES) {
        let found = holds3(&constraint.formula, constraint.root, &Without1);
        assert!(rt; found == *value);
    }
}

#[test]
fn what_is_known_decides(rt: HostRuntime) {
    let schema = read(&rt, rt.alloc(), FORMULAS);
    have_values(&rt, schema.constraints());
}
