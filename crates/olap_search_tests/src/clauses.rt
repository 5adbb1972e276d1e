// Satisfiable and unsatisfiable sets of clauses, with much room to learn in, little, and none.
ghost use Rattle.std.specs.Prelude.{◌≡◌, true};
ghost use Rattle.olap_clauses.specs.Trails.{IsOpen};

use olap_clauses::{Effort, Engine, Judge, Trail, Value, Verdict};
use olap_pool::{Lit, Pool};
use std::alloc::Global;
use std::process::Abort;

// Takes a trail on which each variable is known and each clause true, and refuses one on which a
// clause isn't.
#[derive(Drop)]
struct Reader<'a> {
    variables: u32,
    clauses: &'a [Vec<Lit>],
}

// How often a trail was refused.
#[derive(Drop)]
struct Refusals(u32);

// Whether the literal may be decided.
fn is_open(trail: &Trail, lit: Lit) -> bool
    ensures { result ≡ true → IsOpen trail.now lit }
{
    (lit.variable as usize) < trail.variables() && trail.value(lit) == Value::Unknown
}

// The last open literal of highest score, with the sign that its variable had last.
fn pick(variables: u32, trail: &Trail, scores: &[u32]) -> Option<Lit> {
    let mut best = None;
    let mut top = 0;
    for variable in 0..variables {
        let positive = trail.last_sign(variable);
        let lit = Lit { variable, positive };
        let score = *scores.get(variable as usize).unwrap_or(&0);
        if is_open(trail, lit) && score >= top {
            best = Some(lit);
            top = score;
        }
    }
    best
}

// Whether a literal of the clause is true.
fn is_met(clause: &[Lit], trail: &Trail) -> bool {
    for lit in clause {
        if trail.value(*lit) == Value::Yes {
            return true;
        }
    }
    false
}

fn are_met(clauses: &[Vec<Lit>], trail: &Trail) -> bool {
    for clause in clauses {
        if !is_met(clause, trail) {
            return false;
        }
    }
    true
}

impl<'a> Judge<Refusals> for Reader<'a> {
    ghost Means = { λ reader v. ⊥ };

    ghost Suits = { λ reader refusals n. Unit {0} };

    ghost Took = { λ reader refusals steps. Unit {0} };

    fn judge(&self, refusals: &mut Refusals, trail: &Trail, scores: &[u32]) -> Verdict {
        if let Some(lit) = pick(self.variables, trail, scores) {
            if is_open(trail, lit) {
                return Verdict::Decide(lit);
            }
        }
        if are_met(self.clauses, trail) {
            return Verdict::Take;
        }
        refusals.0 = refusals.0.saturating_add(1);
        Verdict::Refuse
    }
}

// The literals of a clause, of which a number below 0 is the negation of its variable.
fn clause_of(rt: &impl Abort, alloc: Global, numbers: &[i32]) -> Vec<Lit> {
    let mut clause = Vec::new(alloc);
    for number in numbers {
        let variable = number.unsigned_abs();
        let positive = *number > 0;
        clause.push(Lit { variable, positive }).expect(rt, "memory");
    }
    clause
}

fn clauses_of(rt: &impl Abort, alloc: Global, numbers: &[&[i32]]) -> Vec<Vec<Lit>> {
    let mut clauses = Vec::new(alloc);
    for clause in numbers {
        clauses
            .push(clause_of(rt, alloc, clause))
            .expect(rt, "memory");
    }
    clauses
}

// Adds a clause.
fn add(rt: &impl Abort, alloc: Global, clauses: &mut Vec<Vec<Lit>>, lits: &[Lit]) {
    let clause = Vec::from_slice(alloc, lits).expect(rt, "memory");
    clauses.push(clause).expect(rt, "memory");
}

// Whether the pigeon sits in the hole, of this many.
fn sits(pigeon: u8, hole: u8, holes: u8, positive: bool) -> Lit {
    let variable = u32::from(pigeon) * u32::from(holes) + u32::from(hole);
    Lit { variable, positive }
}

// The pigeon sits in some hole.
fn sits_somewhere(rt: &impl Abort, alloc: Global, pigeon: u8, holes: u8) -> Vec<Lit> {
    let mut clause = Vec::new(alloc);
    for hole in 0..holes {
        clause
            .push(sits(pigeon, hole, holes, true))
            .expect(rt, "memory");
    }
    clause
}

// The pigeon sits in no hole with one before it.
fn sits_alone(rt: &impl Abort, alloc: Global, clauses: &mut Vec<Vec<Lit>>, pigeon: u8, holes: u8) {
    for hole in 0..holes {
        for other in 0..pigeon {
            let pair = [
                sits(pigeon, hole, holes, false),
                sits(other, hole, holes, false),
            ];
            add(rt, alloc, clauses, &pair);
        }
    }
}

// Each pigeon in some hole, and no two in one.
fn pigeons(rt: &impl Abort, alloc: Global, pigeons: u8, holes: u8) -> Vec<Vec<Lit>> {
    let mut clauses = Vec::new(alloc);
    for pigeon in 0..pigeons {
        sits_alone(rt, alloc, &mut clauses, pigeon, holes);
        clauses
            .push(sits_somewhere(rt, alloc, pigeon, holes))
            .expect(rt, "memory");
    }
    clauses
}

// A literal of eight variables, drawn by a fixed rule.
fn draw(state: &mut u32) -> Lit {
    *state = state.wrapping_mul(1_664_525).wrapping_add(1_013_904_223);
    Lit {
        variable: (*state >> 24) % 8,
        positive: (*state >> 16) % 2 == 1,
    }
}

// This many clauses of three literals, drawn one after the other.
fn drawn(rt: &impl Abort, alloc: Global, seed: u32, count: u8) -> Vec<Vec<Lit>> {
    let mut clauses = Vec::new(alloc);
    let mut state = seed;
    for _ in 0..count {
        let clause = [draw(&mut state), draw(&mut state), draw(&mut state)];
        add(rt, alloc, &mut clauses, &clause);
    }
    clauses
}

// Whether the literal is true by a valuation of eight variables, each a bit.
fn is_true_by(lit: Lit, valuation: u32) -> bool {
    (valuation.wrapping_shr(lit.variable) % 2 == 1) == lit.positive
}

fn is_met_by(clause: &[Lit], valuation: u32) -> bool {
    for lit in clause {
        if is_true_by(*lit, valuation) {
            return true;
        }
    }
    false
}

fn are_met_by(clauses: &[Vec<Lit>], valuation: u32) -> bool {
    for clause in clauses {
        if !is_met_by(clause, valuation) {
            return false;
        }
    }
    true
}

// Whether one of all valuations of eight variables makes each clause true.
fn is_satisfiable(clauses: &[Vec<Lit>]) -> bool {
    for valuation in 0..256_u32 {
        if are_met_by(clauses, valuation) {
            return true;
        }
    }
    false
}

// An engine over these clauses, with this much room to learn in.
fn engine_of(rt: &impl Abort, alloc: Global, reader: &Reader, room: u32) -> Engine {
    let mut pool = Pool::new(alloc);
    for clause in reader.clauses {
        pool.add(clause).expect(rt, "memory");
    }
    Engine::new(alloc, reader.variables, pool, room, room / 4).expect(rt, "memory")
}

// Whether the engine finds something, and how many trails it had to refuse.
fn search(rt: &impl Abort, alloc: Global, reader: &Reader, room: u32) -> (bool, u32) {
    let mut engine = engine_of(rt, alloc, reader, room);
    let mut refusals = Refusals(0);
    let found = engine.exists(reader, &mut refusals);
    (found, refusals.0)
}

// What is found with each room to learn in; nothing if that isn't the same, or a trail had to be refused.
fn is_found(rt: &impl Abort, alloc: Global, variables: u32, clauses: &[Vec<Lit>]) -> Option<bool> {
    let reader = Reader { variables, clauses };
    let (found, refused) = search(rt, alloc, &reader, 0);
    let little = search(rt, alloc, &reader, 60);
    let much = search(rt, alloc, &reader, 4000);
    (refused == 0 && little == (found, 0) && much == (found, 0)).then_some(found)
}

// What is found of clauses over four variables.
fn is_small_found(rt: &impl Abort, alloc: Global, numbers: &[&[i32]]) -> Option<bool> {
    let clauses = clauses_of(rt, alloc, numbers);
    is_found(rt, alloc, 4, &clauses)
}

// A set of clauses by what it shows, and whether it is satisfiable.
type Small = (&'static str, &'static [&'static [i32]], bool);

const SMALL: [Small; 7] = [
    ("no clause", &[], true),
    ("an empty clause", &[&[]], false),
    ("a literal twice", &[&[1, 1], &[-2, 1, -2]], true),
    ("a variable and its negation", &[&[1], &[-1]], false),
    (
        "a chain to its end",
        &[&[1], &[-1, 2], &[-2, 3], &[-3, -1]],
        false,
    ),
    (
        "a chain that is open",
        &[&[1, 2], &[-1, 2], &[-2, 3], &[-3, -1]],
        true,
    ),
    (
        "all pairs of signs",
        &[&[1, 2], &[1, -2], &[-1, 2], &[-1, -2]],
        false,
    ),
];

#[test]
fn small_sets_are_decided(rt: HostRuntime) {
    for (what, numbers, found) in &SMALL {
        assert!(rt;
            is_small_found(&rt, rt.alloc(), numbers) == Some(*found),
            "{what}"
        );
    }
}

// Whether this many pigeons are found to fit.
fn fit(rt: &impl Abort, alloc: Global, count: u8, holes: u8) -> Option<bool> {
    let clauses = pigeons(rt, alloc, count, holes);
    is_found(rt, alloc, u32::from(count) * u32::from(holes), &clauses)
}

// How many pigeons and holes there are, and whether they fit.
const PIGEONS: [(u8, u8, bool); 3] = [(3, 3, true), (4, 3, false), (5, 4, false)];

#[test]
fn pigeons_fit_where_there_are_holes(rt: HostRuntime) {
    for (count, holes, found) in &PIGEONS {
        assert!(rt;
            fit(&rt, rt.alloc(), *count, *holes) == Some(*found),
            "{count}"
        );
    }
}

// What is found of 38 drawn clauses, if that is what some valuation shows.
fn is_drawn_found(rt: &impl Abort, alloc: Global, seed: u32) -> Option<bool> {
    let clauses = drawn(rt, alloc, seed, 38);
    let satisfiable = is_satisfiable(&clauses);
    (is_found(rt, alloc, 8, &clauses) == Some(satisfiable)).then_some(satisfiable)
}

#[test]
fn drawn_sets_are_decided_as_by_all_valuations(rt: HostRuntime) {
    let mut some = false;
    let mut each = true;
    for seed in 0..8 {
        let found = is_drawn_found(&rt, rt.alloc(), seed).expect(&rt, "the right answer");
        some |= found;
        each &= found;
    }
    assert!(rt; some && !each);
}

// Whether the engine finds something where this literal is assumed.
fn exists_with(engine: &mut Engine, reader: &Reader, refusals: &mut Refusals, lit: Lit) -> bool {
    if is_open(engine.trail(), lit) {
        engine.decide(lit);
        engine.exists(reader, refusals)
    } else {
        false
    }
}

// The same, and again where nothing is assumed; and how many trails were refused.
fn found_with(rt: &impl Abort, alloc: Global, clauses: &[Vec<Lit>], lit: Lit) -> (bool, bool, u32) {
    let reader = Reader {
        variables: 8,
        clauses,
    };
    let mut engine = engine_of(rt, alloc, &reader, 4000);
    let mut refusals = Refusals(0);
    let found = exists_with(&mut engine, &reader, &mut refusals, lit);
    engine.undo(0);
    let all = engine.exists(&reader, &mut refusals);
    (found, all, refusals.0)
}

// Whether both answers on 30 drawn clauses are those of all valuations.
fn is_followed(rt: &impl Abort, alloc: Global, seed: u32, lit: Lit) -> bool {
    let mut clauses = drawn(rt, alloc, seed, 30);
    let found = found_with(rt, alloc, &clauses, lit);
    let all = is_satisfiable(&clauses);
    add(rt, alloc, &mut clauses, &[lit]);
    found == (is_satisfiable(&clauses), all, 0)
}

// Each literal may be assumed.
fn are_followed(rt: &impl Abort, alloc: Global, seed: u32) {
    for variable in 0..8 {
        for positive in [false, true] {
            let lit = Lit { variable, positive };
            assert!(rt;
                is_followed(rt, alloc, seed, lit),
                "seed {seed}, {variable} {positive}"
            );
        }
    }
}

#[test]
fn assumptions_are_followed(rt: HostRuntime) {
    for seed in 0..4 {
        are_followed(&rt, rt.alloc(), seed);
    }
}

// Six pigeons in five holes, of which the first 30 variables speak, and a hundred variables after them of which each
// must be true.
fn pigeons_and_facts(rt: &impl Abort, alloc: Global) -> Vec<Vec<Lit>> {
    let mut clauses = pigeons(rt, alloc, 6, 5);
    clauses
        .push(clause_of(rt, alloc, &[31]))
        .expect(rt, "memory");
    for variable in 30..129_u32 {
        let this = Lit {
            variable,
            positive: false,
        };
        let next = Lit {
            variable: variable.saturating_add(1),
            positive: true,
        };
        add(rt, alloc, &mut clauses, &[this, next]);
    }
    clauses
}

// The last of the facts, where nothing else is decided.
const SPARE: Lit = Lit {
    variable: 130,
    positive: true,
};

// Whether the engine finds something, maybe where the last fact is assumed, and what that took.
fn effort(rt: &impl Abort, alloc: Global, reader: &Reader, assumed: bool) -> (bool, Effort) {
    let mut engine = engine_of(rt, alloc, reader, 4000);
    let mut refusals = Refusals(0);
    let found = if assumed {
        exists_with(&mut engine, reader, &mut refusals, SPARE)
    } else {
        engine.exists(reader, &mut refusals)
    };
    (found, engine.effort())
}

// Whether nothing is found, and that took some conflicts, but fewer than 720, from which little was learned each.
fn is_little_learned(rt: &impl Abort, alloc: Global, assumed: bool) -> bool {
    let clauses = pigeons_and_facts(rt, alloc);
    let reader = Reader {
        variables: 131,
        clauses: &clauses,
    };
    let (found, effort) = effort(rt, alloc, &reader, assumed);
    let few = 0 < effort.conflicts && effort.conflicts < 720;
    !found && few && effort.literals / 30 < effort.conflicts
}

// There are 6! ways to put five of six pigeons into five holes, each a conflict for whoever learns nothing, and a
// clause that is learned needs none of the facts.
#[test]
fn little_is_learned_from_few_conflicts(rt: HostRuntime) {
    assert!(rt; is_little_learned(&rt, rt.alloc(), false));
    assert!(rt; is_little_learned(&rt, rt.alloc(), true));
}
