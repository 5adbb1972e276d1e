// The command `generate`: what comes of an input that is made from a seed and a number of stores.
ghost use Rattle.std.specs.Prelude.{◌≡◌, ◌≤◌, [], ◌∷◌, IfOk};
ghost use Rattle.olap_base.specs.Limits.{most_generated};
ghost use Rattle.olap_plans.specs.Commands.{generate_order};
ghost use Rattle.olap_order.specs.Judged.{Replies};
ghost use Rattle.olap_plans.specs.Numbers.{number_of, size_of};
ghost use Rattle.olap_order.specs.Order.{Done};
ghost use Rattle.olap_plans.specs.Questions.{ByGenerated, IsAnswer};
ghost use Rattle.olap_order.specs.Steps.{number_word};
ghost use Rattle.olap_order.specs.Taken.{PlainStep};

use olap_base::MOST_GENERATED;
use olap_order::{Reply, Stop, refuse_at, yes};
use std::alloc::Global;

/// The most digits of a number in a word.
const MOST_DIGITS: usize = 20;

/// The number that a word spells.
fn number(word: &str) -> Option<u64>
    ensures { result ≡ number_of word.now }
{
    if word.len() > MOST_DIGITS || word.starts_with('+') {
        return None;
    }
    word.parse::<u64>().ok()
}

/// The size that a word spells.
fn size(word: &str) -> Option<u32>
    ensures { result ≡ size_of word.now }
{
    match number(word) {
        Some(n) if 1 <= n && n <= u64::from(MOST_GENERATED) => Some(n as u32),
        _ => None,
    }
}

/// The seed that the word of this number spells.
fn seed_at(alloc: Global, at: u64, word: &str) -> Result<u64, Stop>
    ensures { PlainStep (number_word number_of at word.now) (λ n. n) result }
{
    match number(word) {
        Some(seed) => Ok(seed),
        None => Err(refuse_at(alloc, "word", at, "BadNumber")),
    }
}

/// The size that the word of this number spells.
fn size_at(alloc: Global, at: u64, word: &str) -> Result<u32, Stop>
    ensures step { PlainStep (number_word size_of at word.now) (λ n. n) result }
    ensures some { IfOk result (λ n. 1 ≤ n) }
    ensures few { IfOk result (λ n. n ≤ most_generated) }
{
    match size(word) {
        Some(size) => Ok(size),
        None => Err(refuse_at(alloc, "word", at, "BadNumber")),
    }
}

/// What comes of the input that is made.
fn answered(alloc: Global, seed: u64, size: u32) -> Result<Reply, Stop>
    requires some { 1 ≤ size }
    requires few { size ≤ most_generated }
    ensures replies { Replies IsAnswer (Done (ByGenerated seed size)) result }
{
    let text = olap_generate::generate(alloc, seed, size)?;
    Ok(yes(text.into_bytes()))
}

/// What comes of the input that is made from a seed and a number of stores. No file is read.
pub(crate) fn generate(alloc: Global, seed: &str, size: &str) -> Result<Reply, Stop>
    ensures replies { Replies IsAnswer (generate_order (seed.now ∷ size.now ∷ [])) result }
{
    let seed = seed_at(alloc, 2, seed)?;
    let size = size_at(alloc, 3, size)?;
    answered(alloc, seed, size)
}
