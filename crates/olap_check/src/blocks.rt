// A formula at many members at once: at those of a block.
ghost use Rattle.std.specs.Prelude.{◌≡◌, ◌+◌, ◌<◌, ◌≤◌, ◌↔◌, length, map, slice_index, ℕ, true, IsTrue, IfSome, IsNone};
ghost use Rattle.std.specs.FinSet as set;
ghost use Rattle.olap_ast.specs.Formula.{Holds, HasPath, ExactlyOneHolds, NoneHolds};
ghost use Rattle.olap_ast.specs.Trees.{formula_of, terms_of};
ghost use Rattle.olap_base.specs.Instance.{IsMemberOf};
ghost use Rattle.olap_bits.specs.Sets.{members};
ghost use Rattle.olap_check.specs.Blocks.{IsBlock, IsFirstUnmetFrom, Selects, width};
ghost use Rattle.olap_check.specs.Groups.{count_before};
ghost use Rattle.olap_check.specs.Seen.{IsSeen, IsSo};

use crate::above::Above;
use crate::asked::{Asked, Way};
use crate::places::Places;
use crate::seen::{Entry, Seen};
use olap_ast::{Formula, Terms};
use olap_base::CatId;
use olap_instance::Instance;
use olap_legal::Table;

/// A part of the root's members: `WIDTH` in file order from the `start`-th on, or as many as there are.
///
/// The numbers of a set are places of the part; what it says of places past the part's end means nothing. A connective
/// is an operation on such sets, so it costs the same for one member as for all of them.
#[derive(Clone, Copy)]
pub(crate) struct Block<'a> {
    pub instance: &'a Instance,
    pub table: &'a Table,
    pub categories: u16,
    pub root: CatId,
    pub start: usize,
    pub part: &'a [u32],
    pub all: Places,
    ghost sound: { IsBlock instance.now categories table.now root.0 start part.now (members all) },
}

/// Of some formulas: the places where none is true, and those where exactly one is.
#[derive(Clone, Copy)]
struct Counted {
    none: Places,
    one: Places,
}

/// The places that are in one set alone.
fn differing(a: Places, b: Places) -> Places
    ensures { let first = set.difference (members a) (members b) in
        let second = set.difference (members b) (members a) in
        members result ≡ set.union first second }
{
    a.minus(b).union(b.minus(a))
}

impl Counted {
    /// Of these formulas and of one more, which is true at the places `here`.
    fn with(self, here: Places) -> Counted
        ensures none { members result.none ≡ set.difference (members self.none) (members here) }
        ensures one { let alone = set.difference (members self.one) (members here) in
            members result.one ≡ set.union alone (set.intersection (members here) (members self.none)) }
    {
        Counted {
            none: self.none.minus(here),
            one: self.one.minus(here).union(here.meet(self.none)),
        }
    }
}

impl<'a> Block<'a> {
    /// Whether what is asked is so of the member of a place.
    fn is_so_at(&self, asked: Asked, k: usize) -> bool
        requires { k < length self.now.part.now }
        ensures { IsTrue result ↔ IsSo self.now.instance.now asked.entry (slice_index self.now.part.now k) }
    {
        let above = Above {
            instance: self.instance,
            table: self.table,
            categories: self.categories,
            x: self.part[k],
        };
        above.is_so(asked)
    }

    /// The places at which what is asked is so, one by one.
    fn places_of(&self, asked: Asked) -> Places
        ensures { let part = self.now.part.now in
            Selects (length part) (λ k. IsSo self.now.instance.now asked.entry (slice_index part k)) (members result) }
    {
        let mut truths = Places::empty();
        'places: for k in 0..self.part.len() {
            if self.is_so_at(asked, k) {
                truths = truths.with(k as u16);
            }
        }
        truths
    }

    /// The places at which what is asked is so, asked now and remembered.
    fn ask(&self, asked: Asked, seen: &mut Seen) -> Places
        requires { IsSeen self.now.instance.now seen.old }
        ensures seen { IsSeen self.now.instance.now seen.new }
        ensures places { let part = self.now.part.now in
            Selects (length part) (λ k. IsSo self.now.instance.now asked.entry (slice_index part k)) (members result) }
    {
        let places = self.places_of(asked);
        let entry = Entry {
            root: self.root,
            start: self.start,
            places,
        };
        seen.keep(asked, entry);
        places
    }

    /// The places at which what is asked is so, remembered or asked now.
    fn look_up(&self, asked: Asked, seen: &mut Seen) -> Places
        requires { IsSeen self.now.instance.now seen.old }
        ensures seen { IsSeen self.now.instance.now seen.new }
        ensures places { let part = self.now.part.now in
            Selects (length part) (λ k. IsSo self.now.instance.now asked.entry (slice_index part k)) (members result) }
    {
        if let Some(places) = seen.kept(asked, self.root, self.start) {
            return *places;
        }
        self.ask(asked, seen)
    }

    /// Of these places those at which what is asked is so as well.
    fn narrowed(&self, places: Places, asked: Asked, seen: &mut Seen) -> Places
        requires { IsSeen self.now.instance.now seen.old }
        ensures seen { IsSeen self.now.instance.now seen.new }
        ensures places { let part = self.now.part.now in
            let is_so = IsSo self.now.instance.now asked.entry in
            Selects (length part) (λ k. (set.contains (members places) k ≡ true) × is_so (slice_index part k))
            (members result) }
    {
        match seen.kept(asked, self.root, self.start) {
            Some(kept) => places.meet(*kept),
            None => places.meet(self.ask(asked, seen)),
        }
    }

    /// The places at which edges lead from the root through these categories.
    fn along(&self, categories: &[CatId], seen: &mut Seen) -> Places
        requires { IsSeen self.now.instance.now seen.old }
        ensures seen { IsSeen self.now.instance.now seen.new }
        ensures places { let part = self.now.part.now in let path = map (λ c. c.0) categories.now in
            Selects (length part) (λ k. HasPath self.now.instance.now (slice_index part k) path) (members result) }
    {
        let mut at = self.root;
        let mut truths = self.all;
        'path: for c in categories {
            truths = self.narrowed(truths, Asked::GoesOn(Way::Steps, at, *c), seen);
            at = *c;
        }
        truths
    }

    /// The places at which the formula is true.
    ///
    /// It asks each name, each number, and each way from one category to another, once for the block. It calls itself
    /// as deep as the formula is.
    #[cycle(holding)]
    fn holding(&self, f: &Formula, seen: &mut Seen) -> Places
        requires { IsSeen self.now.instance.now seen.old }
        ensures seen { IsSeen self.now.instance.now seen.new }
        ensures places { let part = self.now.part.now in let formula = formula_of f.now in
            Selects (length part) (λ k. Holds self.now.instance.now (slice_index part k) formula) (members result) }
    {
        match f {
            Formula::True => self.all,
            Formula::False => Places::empty(),
            Formula::Path(categories) => self.along(categories.items(), seen),
            Formula::Reach(d) => self.look_up(Asked::GoesOn(Way::Reaches, self.root, *d), seen),
            Formula::Via(d, e) => self.look_up(Asked::GoesOn(Way::Reaches, *d, *e), seen),
            Formula::Equals(d, text) => self.look_up(Asked::Named(*d, text), seen),
            Formula::Compare(d, op, n) => self.look_up(Asked::Compares(*d, *op, *n), seen),
            Formula::Not(g) => self.all.minus(self.holding(g, seen)),
            Formula::And(g, h) => self.holding(g, seen).meet(self.holding(h, seen)),
            Formula::Or(g, h) => self.holding(g, seen).union(self.holding(h, seen)),
            Formula::Implies(g, h) => self
                .all
                .minus(self.holding(g, seen))
                .union(self.holding(h, seen)),
            Formula::Iff(g, h) => self
                .all
                .minus(differing(self.holding(g, seen), self.holding(h, seen))),
            Formula::Xor(g, h) => differing(self.holding(g, seen), self.holding(h, seen)),
            Formula::One(parts) => self.counted(parts, seen).one,
        }
    }

    /// The places at which none of the formulas is true, and at which exactly one is.
    #[cycle(holding)]
    fn counted(&self, parts: &Terms, seen: &mut Seen) -> Counted
        requires { IsSeen self.now.instance.now seen.old }
        ensures seen { IsSeen self.now.instance.now seen.new }
        ensures none { let part = self.now.part.now in let terms = terms_of parts.now in
            Selects (length part) (λ k. NoneHolds self.now.instance.now (slice_index part k) terms)
            (members result.none) }
        ensures one { let part = self.now.part.now in let terms = terms_of parts.now in
            Selects (length part) (λ k. ExactlyOneHolds self.now.instance.now (slice_index part k) terms)
            (members result.one) }
    {
        let mut counted = Counted {
            none: self.all,
            one: Places::empty(),
        };
        // A loop: a list may have thousands of parts, and a call for each would take as much stack.
        let mut left = parts;
        'parts: while let Terms::More(f, rest) = left {
            counted = counted.with(self.holding(f, seen));
            left = rest;
        }
        counted
    }

    /// The first member of the block at which the formula is false.
    pub(crate) fn first_unmet(&self, f: &Formula, seen: &mut Seen) -> Option<u32>
        requires { IsSeen self.now.instance.now seen.old }
        ensures seen { IsSeen self.now.instance.now seen.new }
        ensures some { let formula = formula_of f.now in
            IfSome result (IsFirstUnmetFrom self.now.instance.now self.now.root.0 formula self.now.start) }
        ensures none { let earlier = count_before self.now.instance.now self.now.root.0 in
            IsNone result → (x : ℕ) → self.now.start ≤ earlier x → earlier x < self.now.start + width
            → IsMemberOf self.now.instance.now self.now.root.0 x → Holds self.now.instance.now x (formula_of f.now) }
    {
        let unmet = self.all.minus(self.holding(f, seen));
        let k = usize::from(unmet.first()?);
        if k < self.part.len() {
            Some(self.part[k])
        } else {
            None
        }
    }
}
