// Which words are a command over an instance and its facts.
ghost use Rattle.std.specs.Prelude.{◌≡◌, option_map};
ghost use Rattle.olap_order.specs.Behind.{by_four, by_three_or_more, by_two};
ghost use Rattle.olap_order.specs.Words.{texts};
ghost use Rattle.olap_delta.specs.Changing.{step_named};
ghost use Rattle.olap_totals.specs.Commands.{order_named};
ghost use Rattle.olap_totals.specs.Seen.{is_few, seen, store_by, under};
ghost use Rattle.olap_totals.specs.Under.{breaks_under, change_under, check_under, rollup_under};

use olap_base::MOST_VIEWS;
use olap_delta::Change;

/// A command with its words: the file of a schema, and what is asked under it.
#[derive(Clone, Copy)]
pub(crate) struct Command<'a> {
    pub(crate) schema: &'a str,
    pub(crate) asked: Asked<'a>,
}

/// What a command asks under a schema.
#[derive(Clone, Copy)]
pub(crate) enum Asked<'a> {
    /// The direct view of a category.
    Rollup {
        instance: &'a str,
        facts: &'a str,
        category: &'a str,
    },
    /// Whether an instance is legal.
    Check {
        instance: &'a str,
    },
    /// The direct views of some categories, to be stored.
    Store {
        instance: &'a str,
        facts: &'a str,
        categories: &'a [String],
    },
    /// The members at which a view isn't that from other views.
    Breaks {
        instance: &'a str,
        target: &'a str,
        sources: &'a [String],
    },
    /// Stored views after facts came or were withdrawn.
    Change {
        change: Change,
        instance: &'a str,
        store: &'a str,
        facts: &'a str,
    },
}

/// The words after `rollup`.
fn rollup(words: &[String]) -> Option<Command<'_>>
    ensures { option_map seen result
        ≡ by_four (λ a b c d. under a (λ s. rollup_under s b c d)) (texts words.now) }
{
    match words {
        [schema, instance, facts, category] => Some(Command {
            schema: schema.as_str(),
            asked: Asked::Rollup {
                instance: instance.as_str(),
                facts: facts.as_str(),
                category: category.as_str(),
            },
        }),
        _ => None,
    }
}

/// The words after `check`.
fn check(words: &[String]) -> Option<Command<'_>>
    ensures { option_map seen result ≡ by_two (λ a b. under a (λ s. check_under s b)) (texts words.now) }
{
    match words {
        [schema, instance] => Some(Command {
            schema: schema.as_str(),
            asked: Asked::Check {
                instance: instance.as_str(),
            },
        }),
        _ => None,
    }
}

/// Whether a store may have as many views as these are categories, and has one.
fn are_few(categories: &[String]) -> bool
    ensures { result ≡ is_few (texts categories.now) }
{
    !categories.is_empty() && categories.len() <= MOST_VIEWS
}

/// The words after `store`.
fn store(words: &[String]) -> Option<Command<'_>>
    ensures { option_map seen result ≡ store_by (texts words.now) }
{
    match words {
        [schema, instance, facts, categories @ ..] if are_few(categories) => Some(Command {
            schema: schema.as_str(),
            asked: Asked::Store {
                instance: instance.as_str(),
                facts: facts.as_str(),
                categories,
            },
        }),
        _ => None,
    }
}

/// The words after `breaks`.
fn breaks(words: &[String]) -> Option<Command<'_>>
    ensures { option_map seen result
        ≡ by_three_or_more (λ a b c more. under a (λ s. breaks_under s b c more)) (texts words.now) }
{
    match words {
        [schema, instance, target, sources @ ..] => Some(Command {
            schema: schema.as_str(),
            asked: Asked::Breaks {
                instance: instance.as_str(),
                target: target.as_str(),
                sources,
            },
        }),
        _ => None,
    }
}

/// The words after `append` or `retract`.
fn change_command(change: Change, words: &[String]) -> Option<Command<'_>>
    ensures { option_map seen result
        ≡ by_four (λ a b c d. under a (λ s. change_under (step_named change) s b c d)) (texts words.now) }
{
    match words {
        [schema, instance, store, facts] => Some(Command {
            schema: schema.as_str(),
            asked: Asked::Change {
                change,
                instance: instance.as_str(),
                store: store.as_str(),
                facts: facts.as_str(),
            },
        }),
        _ => None,
    }
}

/// The command of that name with these words after it, if it is one of this family.
pub(crate) fn parse<'a>(name: &str, words: &'a [String]) -> Option<Command<'a>>
    ensures { option_map seen result ≡ order_named name.now (texts words.now) }
{
    match name {
        "rollup" => rollup(words),
        "check" => check(words),
        "store" => store(words),
        "breaks" => breaks(words),
        "append" => change_command(Change::Append, words),
        "retract" => change_command(Change::Retract, words),
        _ => None,
    }
}
