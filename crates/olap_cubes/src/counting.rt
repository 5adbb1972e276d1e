// How many dimensions there are.
ghost use Rattle.std.specs.Prelude.{◌≡◌, ℕ, IfSome, List as Items, MatchOption, None, Option as Maybe};
ghost use Rattle.olap_order.specs.Order.{Order};
ghost use Rattle.olap_order.specs.Words.{texts};
ghost use Rattle.olap_cubes.specs.Commands.{dimensions_said};
ghost use Rattle.olap_cubes.specs.Cut.{by_count};
ghost use Rattle.olap_cubes.specs.Questions.{Question};
ghost use Rattle.olap_cubes.specs.Seen.{AreDimensions};

/// How many dimensions a word says that there are.
fn dimensions_said(word: &str) -> Option<usize>
    ensures said { result ≡ dimensions_said word.now }
    ensures few { IfSome result AreDimensions }
{
    match word {
        "1" => Some(1),
        "2" => Some(2),
        "3" => Some(3),
        "4" => Some(4),
        _ => None,
    }
}

/// How many dimensions the first word says that there are, and the words after it.
pub(crate) fn count_and_rest(words: &[String]) -> Option<(usize, &[String])>
    ensures order { (order : ℕ → Items (Items ℕ) → Maybe (Order Question)) → MatchOption result
        (by_count order (texts words.now) ≡ None)
        (λ p. by_count order (texts words.now) ≡ order p.0 (texts p.1.now)) }
    ensures few { IfSome result (λ p. AreDimensions p.0) }
{
    let (word, words) = words.split_first()?;
    let dimensions = dimensions_said(word.as_str())?;
    Some((dimensions, words))
}
