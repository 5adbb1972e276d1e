// The names of each category: of texts the fresh name and the constants, and of numbers numerals.
ghost use Rattle.std.specs.Prelude.{◌≡◌, ◌+◌, ◌*◌, ◌<◌, ◌≤◌, ◌↔◌, All, Contains, IfOk, IsTrue, codes, length, map, slice_index_or, [], ◌∷◌, ℕ};
ghost use Rattle.olap_ast.specs.Atoms.{AreAscending, numbers_on, texts_on};
ghost use Rattle.olap_ast.specs.Pairs.{distinct_numbers};
ghost use Rattle.olap_ast.specs.Constants.{AreInByteOrder, IsFreshName};
ghost use Rattle.olap_ast.specs.Frozen.{AreCandidates, AreNamesOf};
ghost use Rattle.olap_ast.specs.Trees.{constraint_of, formula_of};
ghost use Rattle.olap_base.specs.Graph.{IsCategory, category_count, is_number};
ghost use Rattle.olap_names.specs.Names.{CanBeNamed, IsConstantSomewhere, IsFreshAmong, atoms, candidates_of, most_others, name_at, names_of, number_atoms, with_graph};
ghost use Rattle.olap_numerals.specs.Numerals.{canonical};
ghost use Rattle.olap_numerals.specs.Representatives.{AreNumberNames, AreSmall};

use olap_ast::{Constraint, Formula, gather, gather_numbers};
use olap_base::{CatId, List, Memory, Text};
use olap_graph::Graph;
use olap_numerals::{numeral, numerals, representatives};
use std::alloc::Global;
use std::marker::Model;

/// For each category its first name, and its other names in their order.
#[derive(Drop)]
pub struct Candidates {
    texts: Vec<List<Text>>,
    first: Vec<Text>,
    fresh: Text,
    all: Text,
}

impl Model for Candidates {
    ghost use Rattle.olap_names.specs.Names.{Named};

    ghost Value = { Named };

    ghost use Rattle.olap_names.specs.Inside.{IsKept};

    ghost view = { λ a. record { fresh = a.fresh; first = a.first.items; texts = a.texts.items } };

    ghost invariant = { IsKept };
}

// Whether the text stands in the list.
fn has_text(texts: &[Text], name: &[u8]) -> bool
    ensures { IsTrue result ↔ Contains texts.now name.now }
{
    'texts: for text in texts {
        if text.bytes() == name {
            return true;
        }
    }
    false
}

// Whether the text is a constant of some category.
fn is_constant(texts: &[List<Text>], name: &[u8]) -> bool
    ensures { IsTrue result ↔ IsConstantSomewhere texts.now name.now }
{
    'categories: for list in texts {
        if has_text(list.items(), name) {
            return true;
        }
    }
    false
}

// The first of nk, nk_, nk__, .. that is no constant of any category.
fn fresh_name(alloc: Global, texts: &[List<Text>]) -> Result<Text, Memory>
    ensures { IfOk result (IsFreshAmong texts.now) }
{
    let mut name = Vec::from_slice(alloc, b"nk")?;
    'underscores: while is_constant(texts, &name) {
        name.push(b'_')?;
    }
    Text::from_bytes(alloc, &name)
}

// The distinct constants of the category, in byte order.
fn constants_of(
    alloc: Global,
    constraints: &[Constraint],
    question: &Formula,
    c: CatId,
) -> Result<List<Text>, Memory>
    ensures { let all = atoms (map constraint_of constraints.now) (formula_of question.now) in
        IfOk result (AreInByteOrder (Contains (texts_on c.0 all))) }
{
    let mut texts = Vec::new(alloc);
    'constraints: for constraint in constraints {
        gather(alloc, &constraint.formula, c, &mut texts)?;
    }
    gather(alloc, question, c, &mut texts)?;
    texts.sort_unstable();
    texts.dedup();
    Ok(List::from_vec(texts))
}

// The distinct constants of each category, in byte order.
fn all_constants(
    alloc: Global,
    categories: u16,
    constraints: &[Constraint],
    question: &Formula,
) -> Result<Vec<List<Text>>, Memory>
    requires { All (λ a. a.category < categories)
        (atoms (map constraint_of constraints.now) (formula_of question.now)) }
    ensures { let all = atoms (map constraint_of constraints.now) (formula_of question.now) in
        IfOk result (λ v. (c : ℕ) → AreInByteOrder (Contains (texts_on c all)) (slice_index_or v.items c [])) }
{
    let mut texts = Vec::new(alloc);
    'categories: for c in 0..categories {
        texts.push(constants_of(alloc, constraints, question, CatId(c))?)?;
    }
    Ok(texts)
}

// The distinct numbers that the category's are compared with, ascending.
fn numbers_of(
    alloc: Global,
    constraints: &[Constraint],
    question: &Formula,
    c: CatId,
) -> Result<Vec<i64>, Memory>
    ensures { let all = number_atoms (map constraint_of constraints.now) (formula_of question.now) in
        IfOk result (λ v. AreAscending (numbers_on c.0 all) v.items) }
{
    let mut numbers = Vec::new(alloc);
    'constraints: for constraint in constraints {
        gather_numbers(&constraint.formula, c, &mut numbers)?;
    }
    gather_numbers(question, c, &mut numbers)?;
    numbers.sort_unstable();
    numbers.dedup();
    Ok(numbers)
}

// The numerals of the numbers: the first, and the others.
#[tactic(auto, using(crate::proofs::NumberLemmas::spelled_is))]
fn spelled(alloc: Global, numbers: &[i64]) -> Result<(Text, List<Text>), Memory>
    requires { 0 < length numbers.now }
    ensures { IfOk result (λ p. p.0 ∷ p.1 ≡ map canonical numbers.now) }
{
    let first = numeral(alloc, numbers[0])?;
    let others = numerals(alloc, &numbers[1..])?;
    Ok((first, others))
}

// The names of a category of numbers: the numerals of those that stand for all, ascending.
fn number_names(
    alloc: Global,
    constraints: &[Constraint],
    question: &Formula,
    c: CatId,
) -> Result<(Text, List<Text>), Memory>
    requires { let all = number_atoms (map constraint_of constraints.now) (formula_of question.now) in
        AreSmall (numbers_on c.0 all) }
    ensures names { let all = number_atoms (map constraint_of constraints.now) (formula_of question.now) in
        IfOk result (λ p. AreNumberNames (numbers_on c.0 all) p.0 p.1) }
    ensures few { let all = number_atoms (map constraint_of constraints.now) (formula_of question.now) in
        IfOk result (λ p. length p.1 ≤ 2 * length (distinct_numbers all)) }
{
    let constants = numbers_of(alloc, constraints, question, c)?;
    let numbers = representatives(alloc, &constants)?;
    spelled(alloc, &numbers)
}

// The names of a category of texts: the fresh name, and its constants.
fn text_names(
    alloc: Global,
    constraints: &[Constraint],
    question: &Formula,
    fresh: &Text,
    c: CatId,
) -> Result<(Text, List<Text>), Memory>
    ensures fresh { IfOk result (λ p. p.0 ≡ fresh.now) }
    ensures constants { let all = atoms (map constraint_of constraints.now) (formula_of question.now) in
        IfOk result (λ p. AreInByteOrder (Contains (texts_on c.0 all)) p.1) }
{
    let others = constants_of(alloc, constraints, question, c)?;
    let first = Text::from_bytes(alloc, fresh.bytes())?;
    Ok((first, others))
}

// The names of a category.
fn names_in(
    alloc: Global,
    graph: &Graph,
    constraints: &[Constraint],
    question: &Formula,
    fresh: &Text,
    c: CatId,
) -> Result<(Text, List<Text>), Memory>
    requires category { IsCategory graph.now c.0 }
    requires named { CanBeNamed graph.now (map constraint_of constraints.now) (formula_of question.now) }
    requires fresh { IsFreshName (with_graph graph.now (map constraint_of constraints.now)) (formula_of question.now)
        fresh.now }
    ensures names { let schema = with_graph graph.now (map constraint_of constraints.now) in
        IfOk result (λ p. AreNamesOf (is_number graph.now c.0) schema (formula_of question.now) c.0 p.0 p.1) }
    ensures few { IfOk result (λ p. length p.1 ≤ most_others) }
{
    if graph.is_number(c) {
        number_names(alloc, constraints, question, c)
    } else {
        text_names(alloc, constraints, question, fresh, c)
    }
}

impl Candidates {
    /// The candidates of a schema of that graph with these constraints, and of a question. `Memory`: out of memory.
    ///
    /// Cost: for each category the formulas twice, and two sorts of its constants.
    pub fn of(
        alloc: Global,
        graph: &Graph,
        constraints: &[Constraint],
        question: &Formula,
    ) -> Result<Candidates, Memory>
        requires { CanBeNamed graph.now (map constraint_of constraints.now) (formula_of question.now) }
        ensures count { IfOk result (λ k. length k.texts ≡ category_count graph.now) }
        ensures candidates { IfOk result (λ k. AreCandidates
            (with_graph graph.now (map constraint_of constraints.now)) (formula_of question.now) (candidates_of k)) }
    {
        let count = graph.categories();
        let constants = all_constants(alloc, count, constraints, question)?;
        let fresh = fresh_name(alloc, &constants)?;
        let mut first = Vec::new(alloc);
        let mut texts = Vec::new(alloc);
        'categories: for c in 0..count {
            let names = names_in(alloc, graph, constraints, question, &fresh, CatId(c))?;
            first.push(names.0)?;
            texts.push(names.1)?;
        }
        let all = Text::from_bytes(alloc, b"all")?;
        Ok(Candidates {
            texts,
            first,
            fresh,
            all,
        })
    }

    /// How many categories there are.
    pub fn categories(&self) -> u16
        ensures { result ≡ length self.now.texts }
    {
        self.texts.len() as u16
    }

    /// The names of the category beside the first, in their order: of texts the constants in byte order, of numbers the
    /// further numerals.
    pub fn others(&self, c: CatId) -> &[Text]
        requires { c.0 < length self.now.texts }
        ensures list { result.now ≡ slice_index_or self.now.texts c.0 [] }
        ensures few { length result.now ≤ most_others }
    {
        self.texts[usize::from(c.0)].items()
    }

    /// The first name of the category: of texts the fresh name, of numbers the least numeral.
    pub fn first(&self, c: CatId) -> &Text
        requires { c.0 < length self.now.texts }
        ensures { result.now ≡ slice_index_or self.now.first c.0 self.now.fresh }
    {
        &self.first[usize::from(c.0)]
    }

    /// How many names a member of the category may have, the first one counted: an index is below that.
    pub fn names(&self, c: CatId) -> u16
        requires { c.0 < length self.now.texts }
        ensures count { result ≡ names_of self.now c.0 }
        ensures few { result ≤ most_others + 1 }
    {
        self.others(c).len() as u16 + 1
    }

    /// The name of an index: `all` for `All`, else the first name for 0 and the i-th of the others for i.
    pub fn name(&self, c: CatId, index: u16) -> &Text
        requires category { c.0 < length self.now.texts }
        requires index { index ≤ length (slice_index_or self.now.texts c.0 []) }
        ensures { result.now ≡ name_at (candidates_of self.now) c.0 index }
    {
        if c.0 == 0 {
            return &self.all;
        }
        if index == 0 {
            return self.first(c);
        }
        &self.texts[usize::from(c.0)].items()[usize::from(index) - 1]
    }
}
