// Whose order a round of the search goes by, and who searches. Nothing here is trusted.
use crate::effort::Effort;
use crate::outcomes::Outcome;

/// Whose order the decisions of a round are taken in.
#[derive(Clone, Copy)]
pub(crate) enum Order {
    /// The judge's own.
    Judge,
    /// The judge's, which is shown the scores.
    Shown,
    /// That of the scores over all variables, before the judge is asked.
    Free,
}

/// How a variable is decided for which the judge isn't asked.
#[derive(Clone, Copy)]
pub(crate) enum Sign {
    /// It is false: most edges and names are, if there is a frozen dimension.
    False,
    /// As it was last.
    Last,
}

/// How quickly earlier conflicts come to count less in the scores.
#[derive(Clone, Copy)]
pub(crate) enum Decay {
    /// Each counts an eighth more than the one before it.
    Quick,
    /// Each counts a nineteenth more.
    Slow,
}

/// Which solver searches.
#[derive(Clone, Copy)]
pub(crate) enum Part {
    /// The one that asks from the first round on.
    First,
    /// The second.
    Second,
    /// The third.
    Third,
}

/// What a round does.
#[derive(Clone, Copy)]
pub(crate) struct Round {
    pub(crate) part: Part,
    pub(crate) order: Order,
    pub(crate) sign: Sign,
    pub(crate) decay: Decay,
    /// The most conflicts that it may have.
    pub(crate) budget: u64,
}

/// How many rounds the first solver has alone. Later rounds go to each solver in turn, which keeps to its own order.
const ALONE: u64 = 6;

/// Conflicts of a round that tries an order.
const SHORT: u64 = 110;

/// Conflicts of a round by the order that was best.
const LONG: u64 = 1000;

/// Conflicts of the first turns of each solver.
const TURN: u64 = 300;

/// Conflicts of a later turn, for each turn before it.
const GROWTH: u64 = 50;

/// So many literals a clause, in sixteenths, are few.
const FEW: u64 = 16 * 16;

/// Which solver has this turn. Each has one of three; while the scores over all variables are ahead, theirs has seven
/// of nine.
fn solver_of(turn: u64, ahead: bool) -> Part {
    let place = if !ahead {
        turn
    } else if turn % 3 == 0 {
        turn / 3
    } else {
        1
    };
    match place % 3 {
        0 => Part::First,
        1 => Part::Second,
        _ => Part::Third,
    }
}

/// What the rounds of each order took, late ones counting more, and which of them ended the last search.
#[derive(Clone, Copy)]
pub(crate) struct Orders {
    judge: Effort,
    shown: Effort,
    free: Effort,
    last: Order,
}

impl Orders {
    /// No order was tried.
    pub(crate) fn new() -> Orders {
        Orders {
            judge: Effort::NONE,
            shown: Effort::NONE,
            free: Effort::NONE,
            last: Order::Judge,
        }
    }

    /// What rounds of this order took recently.
    fn took(&self, order: Order) -> Effort {
        match order {
            Order::Judge => self.judge,
            Order::Shown => self.shown,
            Order::Free => self.free,
        }
    }

    /// The order by which the shortest clauses were learned.
    fn best(&self) -> Order {
        let mut best = Order::Judge;
        'orders: for order in [Order::Shown, Order::Free] {
            if self.took(order).literals_each() < self.took(best).literals_each() {
                best = order;
            }
        }
        best
    }

    /// This order, or the judge's if this one was tried first.
    fn untried(&self, order: Order) -> Order {
        if order == self.last {
            Order::Judge
        } else {
            order
        }
    }

    /// Whether the scores over all variables learned clauses shorter by more than an eighth than both other orders.
    fn is_free_ahead(&self) -> bool {
        let others = self.judge.literals_each().min(self.shown.literals_each());
        self.free.literals_each() < others - others / 8
    }

    /// Conflicts of the first round: more where the order that ended the last search learned short clauses.
    fn first_budget(&self) -> u64 {
        if self.took(self.last).literals_each() <= FEW {
            LONG
        } else {
            SHORT
        }
    }

    /// What the first solver does in a round that it has alone.
    fn alone(&self, round: u64) -> Round {
        let (order, budget) = match round {
            0 => (self.last, self.first_budget()),
            1 => (self.untried(Order::Free), SHORT),
            2 => (self.untried(Order::Shown), SHORT),
            _ => (self.best(), LONG),
        };
        Round {
            part: Part::First,
            order,
            sign: Sign::False,
            decay: Decay::Quick,
            budget,
        }
    }

    /// What this round does: later ones have more conflicts.
    pub(crate) fn plan(&self, round: u64) -> Round {
        if round < ALONE {
            return self.alone(round);
        }
        let turn = round - ALONE;
        let ahead = self.is_free_ahead();
        let part = solver_of(turn, ahead);
        let (order, decay) = match part {
            Part::First => (Order::Shown, Decay::Quick),
            Part::Second if ahead => (Order::Free, Decay::Slow),
            Part::Second => (Order::Free, Decay::Quick),
            Part::Third => (Order::Judge, Decay::Quick),
        };
        Round {
            part,
            order,
            sign: Sign::Last,
            decay,
            budget: TURN.max(GROWTH.saturating_mul(turn / 3)),
        }
    }

    /// Notes what a round of this order took, and how it ended.
    pub(crate) fn note(&mut self, order: Order, effort: Effort, outcome: Outcome) {
        let took = self.took(order).halved_with(effort);
        match order {
            Order::Judge => self.judge = took,
            Order::Shown => self.shown = took,
            Order::Free => self.free = took,
        }
        if outcome != Outcome::Stop {
            self.last = order;
        }
    }
}
