// A solver: clauses, a trail, and the search over them.
ghost use Rattle.std.specs.Prelude.{◌≡◌, ℕ, ◌+◌, ◌<◌, ◌≤◌, Bool, true, false, List, [], ◌∷◌, ◌++◌, length, take, vec_capacity, IfOk, IsSome};
ghost use Rattle.olap_clauses.specs.declared.trails.Step.{Step};
ghost use Rattle.olap_clauses.specs.Admits.{Grown};
ghost use Rattle.olap_clauses.specs.Standing.{Agrees, AgreesDecisions};
ghost use Rattle.olap_clauses.specs.Trails.{values_of, IsOpen};
ghost use Rattle.olap_pool.specs.Pools.{AreTrue, clause_count};
ghost use Rattle.olap_clauses.specs.Judging.{JudgesSo};
ghost use Rattle.olap_clauses.specs.Ranks.{left};

use crate::effort::Effort;
use crate::fixpoints::Fixpoints;
use crate::judging::{Judge, Verdict};
use crate::learning::{Notes, copy_some, learn};
use crate::ordering::Round;
use crate::outcomes::Outcome;
use crate::picking::pick;
use crate::propagating::{force_each_short, propagate};
use crate::retreating::retreat;
use crate::simplifying::copy_all;
use crate::trails::{Reason, Trail};
use olap_parities::Parities;
use olap_pool::{Lit, Pool};
use std::alloc::{AllocError, Global};
use std::mem::swap;

/// How many learned clauses are kept at first, before the older ones are dropped: with more, each step takes longer.
const KEPT: usize = 7500;

/// How many more are kept each time.
const MORE_KEPT: usize = 600;

/// Clauses, a trail, and the search over them.
#[derive(Drop)]
pub(crate) struct Solver {
    trail: Trail,
    pool: Pool,
    /// Where the clauses to be kept are copied, before the two pools change places.
    spare: Pool,
    /// How many clauses were given; those after them were learned.
    given: usize,
    /// How many learned ones are kept before the older ones are dropped.
    kept: usize,
    notes: Notes,
    /// What was learned from the last conflict, if anything was.
    last: Option<usize>,
    /// How many literals of the trail were looked at for what they force.
    done: usize,
    fixpoints: Fixpoints,
    /// How many literals were known with no decision when the clauses were last rid of them.
    facts: usize,
    effort: Effort,
    ghost reserved: { length (values_of trail) ≤ vec_capacity notes.work },
}

/// What one turn of the search did.
#[derive(Clone, Copy)]
enum Turn {
    /// It decided a literal.
    Decided,
    /// It found that nothing agrees with the trail.
    Failed,
    /// The judge took the trail.
    Taken,
}

/// Whether there was a budget, and this many conflicts are all of it, or there is no room to learn
/// more.
fn is_spent(budget: &Option<u64>, conflicts: u64, full: bool) -> bool
    ensures { result ≡ true → IsSome budget.now }
{
    match budget {
        Some(most) => full || conflicts >= *most,
        None => false,
    }
}

impl Solver {
    ghost use Rattle.olap_clauses.specs.Solvers.{admits, trail_of, variables_of};
    ghost use Rattle.olap_clauses.specs.Engines.{Finds};
    ghost use Rattle.olap_clauses.specs.Turns.{TurnsSo};

    /// Takes all memory that the solver will use: for these clauses, and this many literals and clauses more.
    pub(crate) fn new(
        alloc: Global,
        variables: u32,
        pool: Pool,
        room: u32,
        clause_room: u32,
    ) -> Result<Solver, AllocError>
        ensures empty { IfOk result (λ s. trail_of s ≡ []) }
        ensures variables { IfOk result (λ s. variables_of s ≡ variables) }
        ensures admits { IfOk result (λ s. (v : ℕ → Bool) → AreTrue v pool → admits v s) }
    {
        let mut pool = pool;
        pool.reserve(room as usize, clause_room as usize)?;
        let mut notes = Notes::new(alloc, variables, pool.len(), clause_room)?;
        notes.watches.enter_all(&pool);
        let spare = pool.spare(alloc)?;
        let trail = Trail::new(alloc, variables)?;
        let fixpoints = Fixpoints::new(alloc, variables)?;
        let given = pool.len();
        let mut solver = Solver {
            trail,
            pool,
            spare,
            given,
            kept: KEPT,
            notes,
            last: None,
            done: 0,
            fixpoints,
            facts: 0,
            effort: Effort::NONE,
        };
        solver.simplify();
        Ok(solver)
    }

    /// A solver with as much room, in which nothing stands, and no clauses.
    pub(crate) fn beside(
        &self,
        alloc: Global,
        variables: u32,
        clause_room: u32,
    ) -> Result<Solver, AllocError>
        ensures { IfOk result (λ s. (v : ℕ → Bool) → AreTrue v s.pool) }
    {
        let pool = self.pool.spare(alloc)?;
        let notes = Notes::new(alloc, variables, self.pool.len(), clause_room)?;
        let spare = self.pool.spare(alloc)?;
        let trail = Trail::new(alloc, variables)?;
        let fixpoints = Fixpoints::new(alloc, variables)?;
        Ok(Solver {
            trail,
            pool,
            spare,
            given: 0,
            kept: KEPT,
            notes,
            last: None,
            done: 0,
            fixpoints,
            facts: 0,
            effort: Effort::NONE,
        })
    }

    /// Copies what another solver was given, and what it learned on few levels, if this one has no clauses.
    pub(crate) fn fill_from(&mut self, other: &Solver)
        ensures trail { self.new.trail ≡ self.old.trail }
        ensures clauses { (v : ℕ → Bool) → AreTrue v other.now.pool → AreTrue v self.old.pool
            → AreTrue v self.new.pool }
    {
        if self.pool.len() == 0 {
            copy_some(&other.pool, &mut self.pool, other.given, other.pool.len());
            self.given = other.given.min(self.pool.len());
            self.notes.watches.enter_all(&self.pool);
        }
    }

    /// Changes places with another solver, except for the trail.
    pub(crate) fn change_places(&mut self, other: &mut Solver)
        ensures trail { self.new.trail ≡ self.old.trail }
        ensures clauses { (v : ℕ → Bool) → AreTrue v self.old.pool → AreTrue v other.old.pool
            → AreTrue v self.new.pool × AreTrue v other.new.pool }
    {
        if self.trail.variables() == other.trail.variables() {
            swap(self, other);
            swap(&mut self.trail, &mut other.trail);
            self.fixpoints.forget();
        }
    }

    /// Forces what is forced with no decision. False: nothing agrees with that.
    fn force_facts(&mut self) -> bool
        requires { trail_of self.old ≡ [] }
        ensures facts { (v : ℕ → Bool) → AreTrue v self.old.pool → Agrees v (trail_of self.new) }
        ensures clauses { (v : ℕ → Bool) → AreTrue v self.old.pool → AreTrue v self.new.pool }
        ensures variables { variables_of self.new ≡ variables_of self.old }
    {
        self.done = 0;
        if let Some(_) = force_each_short(&mut self.trail, &self.pool, &self.notes.watches, false) {
            return false;
        }
        let broken = propagate(
            &mut self.trail,
            &self.pool,
            &mut self.notes.watches,
            &mut self.done,
        );
        broken.is_none()
    }

    /// Replaces each clause that the trail makes true by what stands, and takes out of the others what the trail makes
    /// false.
    fn rewrite(&mut self)
        ensures clauses { (v : ℕ → Bool) → Agrees v (trail_of self.old) → AreTrue v self.old.pool
            → AreTrue v self.new.pool }
        ensures variables { variables_of self.new ≡ variables_of self.old }
    {
        self.given = copy_all(
            &self.trail,
            &self.pool,
            &mut self.spare,
            &mut self.notes.work,
            self.given,
        );
        swap(&mut self.pool, &mut self.spare);
        self.notes.watches.enter_all(&self.pool);
        self.fixpoints.forget();
        self.last = None;
        self.facts = self.trail.len();
    }

    /// Rids the clauses of what is known with no decision, if more is known than the last time.
    fn keep_facts(&mut self)
        requires { trail_of self.old ≡ [] }
        ensures clauses { (v : ℕ → Bool) → AreTrue v self.old.pool → AreTrue v self.new.pool }
        ensures variables { variables_of self.new ≡ variables_of self.old }
    {
        if self.force_facts() && self.trail.len() > self.facts {
            self.rewrite();
        }
    }

    /// The same, if the trail is empty; else nothing is done.
    pub(crate) fn simplify(&mut self)
        ensures trail { trail_of self.new ≡ trail_of self.old }
        ensures variables { variables_of self.new ≡ variables_of self.old }
        ensures admits { (v : ℕ → Bool) → admits v self.old → admits v self.new }
    {
        if self.trail.len() > 0 {
            return;
        }
        self.keep_facts();
        self.undo(0);
    }

    /// What searching took so far: conflicts, and literals learned from them.
    pub(crate) fn effort(&self) -> Effort {
        self.effort
    }

    /// The clauses.
    pub(crate) fn pool(&self) -> &Pool
        ensures { result.now ≡ self.now.pool }
    {
        &self.pool
    }

    /// The literals that stand.
    pub(crate) fn trail(&self) -> &Trail
        ensures { result.now ≡ self.now.trail }
    {
        &self.trail
    }

    /// Decides an open literal.
    pub(crate) fn decide(&mut self, lit: Lit)
        requires { IsOpen self.old.trail lit }
        ensures trail { trail_of self.new
            ≡ trail_of self.old ++ (record { lit = lit; reason = Reason.Decision }) ∷ [] }
        ensures variables { variables_of self.new ≡ variables_of self.old }
        ensures admits { (v : ℕ → Bool) → admits v self.old → admits v self.new }
    {
        self.trail.push(lit, Reason::Decision);
    }

    /// Takes literals off until this many are left.
    pub(crate) fn undo(&mut self, mark: usize)
        ensures trail { trail_of self.new ≡ take mark (trail_of self.old) }
        ensures variables { variables_of self.new ≡ variables_of self.old }
        ensures admits { (v : ℕ → Bool) → admits v self.old → admits v self.new }
        ensures clauses { (v : ℕ → Bool) → AreTrue v self.old.pool → AreTrue v self.new.pool }
    {
        self.trail.cut(mark);
        self.done = self.fixpoints.cut(mark);
    }

    /// Adds to the trail the literals that the clauses force, until a clause is false or nothing more is forced.
    pub(crate) fn force(&mut self)
        ensures follows { (v : ℕ → Bool) → admits v self.old → Agrees v (trail_of self.old)
            → Agrees v (trail_of self.new) }
        ensures longer { (more : List Step) × (trail_of self.new ≡ trail_of self.old ++ more) }
        ensures grown { Grown (trail_of self.old) (trail_of self.new) }
        ensures variables { variables_of self.new ≡ variables_of self.old }
        ensures admits { (v : ℕ → Bool) → admits v self.old → admits v self.new }
    {
        self.done = self.fixpoints.cut(self.trail.len());
        let stand = !self.fixpoints.is_empty();
        if force_each_short(&mut self.trail, &self.pool, &self.notes.watches, stand).is_none() {
            let broken = propagate(
                &mut self.trail,
                &self.pool,
                &mut self.notes.watches,
                &mut self.done,
            );
            self.fixpoints.note(self.trail.len(), broken.is_none());
        }
    }

    /// Adds what follows from the parities that the clauses contain. False: no valuation makes all clauses true.
    pub(crate) fn derive(&mut self, parities: &mut Parities) -> bool
        ensures none { result ≡ false → (v : ℕ → Bool) → AreTrue v self.old.pool → ⊥ }
        ensures trail { trail_of self.new ≡ trail_of self.old }
        ensures variables { variables_of self.new ≡ variables_of self.old }
        ensures admits { (v : ℕ → Bool) → admits v self.old → admits v self.new }
    {
        let all = self.pool.len();
        copy_some(&self.pool, &mut self.spare, all, all);
        let some = parities.derive(&self.pool, &mut self.spare);
        swap(&mut self.pool, &mut self.spare);
        self.notes.watches.enter_all(&self.pool);
        self.fixpoints.forget();
        self.last = None;
        some
    }

    /// From now on decisions are taken in the order of this plan, and by its sign where the judge isn't asked.
    pub(crate) fn show(&mut self, plan: Round)
        ensures trail { trail_of self.new ≡ trail_of self.old }
        ensures variables { variables_of self.new ≡ variables_of self.old }
        ensures admits { (v : ℕ → Bool) → admits v self.old → admits v self.new }
    {
        self.notes.scores.show(plan);
    }

    /// Learns from a clause that is false.
    fn learn_from(&mut self, id: usize)
        requires { id < clause_count self.old.pool }
        ensures trail { self.new.trail ≡ self.old.trail }
        ensures admits { (v : ℕ → Bool) → admits v self.old → admits v self.new }
    {
        self.last = learn(&self.trail, &mut self.pool, &mut self.notes, id);
        self.fixpoints.keep_before(&self.trail, &self.notes.work);
        self.notes.scores.age();
        self.effort = self.effort.with_conflict(self.notes.work.len());
    }

    /// What comes next: the open literal that had most to do with conflicts is decided, or the judge is asked.
    fn ask<S, J: Judge<S>>(&self, judge: &J, state: &mut S) -> Verdict
        requires suits { J.Suits judge.now state.old (variables_of self.now) }
        ensures right { JudgesSo (J.Means judge.now) (J.Took judge.now state.new) self.now.trail result }
        ensures suits { J.Suits judge.now state.new (variables_of self.now) }
    {
        match pick(&self.trail, &self.notes.scores) {
            Some(lit) => Verdict::Decide(lit),
            None => judge.judge(state, &self.trail, self.notes.scores.shown()),
        }
    }

    /// One turn of the search: forces what is forced, and then learns, or asks the judge.
    fn turn<S, J: Judge<S>>(&mut self, judge: &J, state: &mut S) -> Turn
        requires suits { J.Suits judge.now state.old (variables_of self.old) }
        ensures turn { TurnsSo (J.Means judge.now) (J.Took judge.now state.new) self.old self.new result }
        ensures front { (off : List Step) × (trail_of self.new ≡ trail_of self.old ++ off) }
        ensures variables { variables_of self.new ≡ variables_of self.old }
        ensures admits { (v : ℕ → Bool) → admits v self.old → admits v self.new }
        ensures suits { J.Suits judge.now state.new (variables_of self.old) }
    {
        let broken = propagate(
            &mut self.trail,
            &self.pool,
            &mut self.notes.watches,
            &mut self.done,
        );
        if let Some(id) = broken {
            self.learn_from(id);
            return Turn::Failed;
        }
        match self.ask(judge, state) {
            Verdict::Decide(lit) => {
                self.trail.push(lit, Reason::Decision);
                Turn::Decided
            }
            Verdict::Take => Turn::Taken,
            Verdict::Refuse => {
                self.last = None;
                Turn::Failed
            }
        }
    }

    /// Goes to the other side of a branch, if there is one after the floor.
    fn turn_back(&mut self, floor: usize) -> bool
        requires { floor ≤ length (trail_of self.old) }
        ensures on { result ≡ true → (v : ℕ → Bool) → admits v self.old
            → (Agrees v (trail_of self.old) → ⊥) → admits v self.new }
        ensures off { result ≡ false → (v : ℕ → Bool) → admits v self.old
            → (Agrees v (trail_of self.old) → ⊥) → Agrees v (take floor (trail_of self.old)) → ⊥ }
        ensures front { take floor (trail_of self.new) ≡ take floor (trail_of self.old) }
        ensures floor { floor ≤ length (trail_of self.new) }
        ensures variables { variables_of self.new ≡ variables_of self.old }
        ensures less { result ≡ true
            → left self.old.trail self.new.trail < left self.old.trail self.old.trail }
        ensures clauses { (v : ℕ → Bool) → AreTrue v self.old.pool → AreTrue v self.new.pool }
    {
        let on = retreat(&mut self.trail, &self.pool, self.last, floor);
        self.done = self.done.min(self.trail.len().saturating_sub(1));
        on
    }

    /// The search. What is forced stays on the trail.
    fn run<S, J: Judge<S>>(
        &mut self,
        judge: &J,
        state: &mut S,
        budget: Option<u64>,
        floor: usize,
    ) -> Outcome
        requires suits { J.Suits judge.now state.old (variables_of self.old) }
        requires floor { floor ≡ length (trail_of self.old) }
        ensures found { result ≡ Outcome.Found
            → Finds (J.Took judge.now state.new) (trail_of self.old) }
        ensures nothing { result ≡ Outcome.Nothing → (v : ℕ → Bool) → J.Means judge.now v
            → admits v self.old → Agrees v (trail_of self.old) → ⊥ }
        ensures stop { result ≡ Outcome.Stop → IsSome budget }
        ensures front { take floor (trail_of self.new) ≡ trail_of self.old }
        ensures variables { variables_of self.new ≡ variables_of self.old }
        ensures admits { (v : ℕ → Bool) → J.Means judge.now v → admits v self.old
            → AreTrue v self.new.pool }
        ensures suits { J.Suits judge.now state.new (variables_of self.old) }
    {
        let stand = !self.fixpoints.is_empty();
        if let Some(_) = force_each_short(&mut self.trail, &self.pool, &self.notes.watches, stand) {
            return Outcome::Nothing;
        }
        let mut conflicts: u64 = 0;
        'turns: loop {
            match self.turn(judge, state) {
                Turn::Decided => {}
                Turn::Taken => return Outcome::Found,
                Turn::Failed => {
                    if !self.turn_back(floor) {
                        return Outcome::Nothing;
                    }
                    if is_spent(&budget, conflicts, self.pool.is_full()) {
                        return Outcome::Stop;
                    }
                    conflicts = conflicts.saturating_add(1);
                }
            }
        }
    }

    /// Searches for a trail that begins with this one and that the judge takes, for at most `budget` conflicts. The
    /// trail is left as it was.
    pub(crate) fn search<S, J: Judge<S>>(
        &mut self,
        judge: &J,
        state: &mut S,
        budget: Option<u64>,
    ) -> Outcome
        requires suits { J.Suits judge.now state.old (variables_of self.old) }
        ensures found { result ≡ Outcome.Found
            → Finds (J.Took judge.now state.new) (trail_of self.old) }
        ensures nothing { result ≡ Outcome.Nothing → (v : ℕ → Bool) → J.Means judge.now v
            → admits v self.old → AgreesDecisions v (trail_of self.old) → ⊥ }
        ensures stop { result ≡ Outcome.Stop → IsSome budget }
        ensures trail { trail_of self.new ≡ trail_of self.old }
        ensures variables { variables_of self.new ≡ variables_of self.old }
        ensures admits { (v : ℕ → Bool) → J.Means judge.now v → admits v self.old
            → admits v self.new }
        ensures suits { J.Suits judge.now state.new (variables_of self.old) }
    {
        let floor = self.trail.len();
        self.done = self.fixpoints.cut(floor);
        let outcome = self.run(judge, state, budget, floor);
        self.undo(floor);
        outcome
    }

    /// Drops about half of what was learned: kept are the newest quarter, and about as many of the others, whose
    /// literals stood on the fewest levels of decisions.
    fn reduce(&mut self)
        ensures trail { trail_of self.new ≡ trail_of self.old }
        ensures variables { variables_of self.new ≡ variables_of self.old }
        ensures admits { (v : ℕ → Bool) → admits v self.old → admits v self.new }
    {
        let learned = self.pool.len().saturating_sub(self.given);
        let newer = self.pool.len() - learned / 2;
        copy_some(&self.pool, &mut self.spare, self.given, newer);
        swap(&mut self.pool, &mut self.spare);
        self.notes.watches.enter_all(&self.pool);
        self.fixpoints.forget();
        self.last = None;
    }

    /// Drops what was learned long ago, if there is little room or much was learned.
    pub(crate) fn make_room(&mut self)
        ensures trail { trail_of self.new ≡ trail_of self.old }
        ensures variables { variables_of self.new ≡ variables_of self.old }
        ensures admits { (v : ℕ → Bool) → admits v self.old → admits v self.new }
    {
        let learned = self.pool.len().saturating_sub(self.given);
        if self.pool.is_full() || learned > self.kept {
            self.kept = self.kept.saturating_add(MORE_KEPT);
            self.reduce();
        }
    }
}
