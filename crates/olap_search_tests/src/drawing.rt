// The texts of small schemas and questions, drawn at random.
use std::alloc::{AllocError, Global};

/// Numbers drawn one after the other, by a linear congruence (Knuth, The Art of Computer Programming, 3.3.4).
#[derive(Drop)]
pub(crate) struct Draws {
    state: u64,
}

impl Draws {
    /// The draws that a seed gives.
    pub(crate) fn of(seed: u64) -> Draws {
        Draws { state: seed }
    }

    /// A number below this one.
    pub(crate) fn below(&mut self, limit: u64) -> u64 {
        self.state = self
            .state
            .wrapping_mul(6_364_136_223_846_793_005)
            .wrapping_add(1_442_695_040_888_963_407);
        (self.state >> 33).checked_rem(limit).unwrap_or(0)
    }

    /// The number of a category from 1 to `count`.
    pub(crate) fn category(&mut self, count: u64) -> u64 {
        self.below(count).saturating_add(1)
    }
}

/// An edge; the category 0 is `All`.
fn edge(alloc: Global, c: u64, d: u64) -> Result<String, AllocError> {
    if d == 0 {
        return format!(in alloc; "edge C{c} All\n");
    }
    format!(in alloc; "edge C{c} C{d}\n")
}

/// Each of the edges from a category, in one draw out of three.
fn push_edges(
    alloc: Global,
    text: &mut String,
    draws: &mut Draws,
    c: u64,
    count: u64,
) -> Result<(), AllocError> {
    let up = draws.below(c);
    text.push_str(&edge(alloc, c, up)?)?;
    for d in 0..=count {
        if d != c && d != up && draws.below(3) == 0 {
            text.push_str(&edge(alloc, c, d)?)?;
        }
    }
    Ok(())
}

/// Whether the members of a category are named by numbers: those of each second one are.
fn is_number(c: u64) -> bool {
    c % 2 == 0
}

/// What the name of a category's member is compared with: a text or a number, as its names are.
fn compared_with(alloc: Global, draws: &mut Draws, c: u64) -> Result<String, AllocError> {
    if !is_number(c) {
        let name = if draws.below(2) == 0 { "x" } else { "y" };
        return format!(in alloc; "= \"{name}\"");
    }
    let mark = match draws.below(3) {
        0 => "=",
        1 => "<",
        _ => "<=",
    };
    let minus = if draws.below(8) == 0 { "-" } else { "" };
    let number = draws.below(2);
    format!(in alloc; "{mark} {minus}{number}")
}

/// An atom at a category, on categories that need not be above it.
fn atom(alloc: Global, draws: &mut Draws, c: u64, count: u64) -> Result<String, AllocError> {
    let d = draws.category(count);
    let e = draws.category(count);
    match draws.below(5) {
        0 => format!(in alloc; "C{c}_C{d}"),
        1 => format!(in alloc; "C{c}.C{d}"),
        2 => format!(in alloc; "C{c}.C{d}.C{e}"),
        3 => {
            let comparison = compared_with(alloc, draws, d)?;
            format!(in alloc; "C{c}.C{d} {comparison}")
        }
        _ => {
            let comparison = compared_with(alloc, draws, c)?;
            format!(in alloc; "C{c} {comparison}")
        }
    }
}

/// Two formulas made one.
fn joined(
    alloc: Global,
    draws: &mut Draws,
    one: &str,
    other: &str,
    c: u64,
) -> Result<String, AllocError> {
    let not = if draws.below(2) == 0 { "!" } else { "" };
    let connective = match draws.below(6) {
        0 => "&",
        1 => "|",
        2 => "->",
        3 => "<->",
        4 => "^",
        _ => return format!(in alloc; "one({one}, {not}{other}, C{c}.All)"),
    };
    format!(in alloc; "({one}) {connective} {not}{other}")
}

/// A formula at a category, of one to three atoms.
pub(crate) fn formula(
    alloc: Global,
    draws: &mut Draws,
    c: u64,
    count: u64,
) -> Result<String, AllocError> {
    let mut text = atom(alloc, draws, c, count)?;
    for _ in 0..draws.below(3) {
        let other = atom(alloc, draws, c, count)?;
        text = joined(alloc, draws, &text, &other, c)?;
    }
    Ok(text)
}

/// The text of a schema over this many categories, each second one of numbers: a way to `All` from each, cycles and
/// shortcuts among the edges, and up to three constraints.
pub(crate) fn schema(alloc: Global, draws: &mut Draws, count: u64) -> Result<String, AllocError> {
    let mut text = String::from_str(alloc, "schema 2\n")?;
    for c in 1..=count {
        let kind = if is_number(c) { " number" } else { "" };
        text.push_str(&format!(in alloc; "category C{c}{kind}\n")?)?;
    }
    for c in 1..=count {
        push_edges(alloc, &mut text, draws, c, count)?;
    }
    for _ in 0..draws.below(4) {
        let c = draws.category(count);
        let f = formula(alloc, draws, c, count)?;
        text.push_str(&format!(in alloc; "constraint C{c}: {f}\n")?)?;
    }
    Ok(text)
}
