// Which words are a command about all legal instances of a schema.
ghost use Rattle.std.specs.Prelude.{◌≡◌, option_map};
ghost use Rattle.olap_order.specs.Behind.{by_one, by_three, by_two, by_two_or_more};
ghost use Rattle.olap_order.specs.Order.{Done, Told};
ghost use Rattle.olap_order.specs.Words.{texts};
ghost use Rattle.olap_order.specs.declared.status.Status.TheVariants.{Yes};
ghost use Rattle.olap_schema_text.specs.Printing.{schema_text};
ghost use Rattle.olap_reasoning.specs.Commands.{order_named};
ghost use Rattle.olap_reasoning.specs.Questions.{ByAudit, ByFrozen, ByNeeds, BySatisfiable, ByShapes};
ghost use Rattle.olap_reasoning.specs.Seen.{question_of, seen, under};
ghost use Rattle.olap_reasoning.specs.Under.{category_under, implies_under, sources_under};

use olap_proof::Form;

/// What is wanted where a target is summarizable.
#[derive(Clone, Copy)]
pub(crate) enum Wanted {
    /// That it is.
    Answer,
    /// Why: a certificate of that form.
    Certificate(Form),
}

/// A command with its words: the file of a schema, and what is asked of it.
#[derive(Clone, Copy)]
pub(crate) struct Command<'a> {
    pub(crate) schema: &'a str,
    pub(crate) asked: Asked<'a>,
}

/// What a command asks of a schema.
#[derive(Clone, Copy)]
pub(crate) enum Asked<'a> {
    /// Its canonical text.
    Format,
    /// Whether a category can have a member.
    Satisfiable {
        category: &'a str,
    },
    /// Whether all legal instances meet a constraint.
    Implies {
        root: &'a str,
        formula: &'a str,
    },
    /// Whether a view is always that from others, or why.
    Summarizable {
        wanted: Wanted,
        target: &'a str,
        sources: &'a [String],
    },
    /// What must be added so that a view is always that from others.
    Needs {
        target: &'a str,
        sources: &'a [String],
    },
    /// All frozen dimensions with a root.
    Frozen {
        category: &'a str,
    },
    /// The least frozen dimension of each shape of a root.
    Shapes {
        category: &'a str,
    },
    /// What it says or does for nothing.
    Audit,
}

/// The words after `format`.
fn format(words: &[String]) -> Option<Command<'_>>
    ensures { option_map seen result ≡ by_one (λ a. under a (λ s. Told Yes (schema_text s))) (texts words.now) }
{
    match words {
        [schema] => Some(Command {
            schema: schema.as_str(),
            asked: Asked::Format,
        }),
        _ => None,
    }
}

/// The words after `satisfiable`.
fn satisfiable(words: &[String]) -> Option<Command<'_>>
    ensures { option_map seen result
        ≡ by_two (λ a b. under a (λ s. category_under BySatisfiable s b)) (texts words.now) }
{
    match words {
        [schema, category] => Some(Command {
            schema: schema.as_str(),
            asked: Asked::Satisfiable {
                category: category.as_str(),
            },
        }),
        _ => None,
    }
}

/// The words after `implies`.
fn implies(words: &[String]) -> Option<Command<'_>>
    ensures { option_map seen result ≡ by_three (λ a b c. under a (λ s. implies_under s b c)) (texts words.now) }
{
    match words {
        [schema, root, formula] => Some(Command {
            schema: schema.as_str(),
            asked: Asked::Implies {
                root: root.as_str(),
                formula: formula.as_str(),
            },
        }),
        _ => None,
    }
}

/// The words after `summarizable`, `prove` and `prove-short`.
fn summarizable(wanted: Wanted, words: &[String]) -> Option<Command<'_>>
    ensures { option_map seen result ≡ by_two_or_more
        (λ a b more. under a (λ s. sources_under (question_of wanted) s b more)) (texts words.now) }
{
    match words {
        [schema, target, sources @ ..] => Some(Command {
            schema: schema.as_str(),
            asked: Asked::Summarizable {
                wanted,
                target: target.as_str(),
                sources,
            },
        }),
        _ => None,
    }
}

/// The words after `needs`.
fn needs(words: &[String]) -> Option<Command<'_>>
    ensures { option_map seen result
        ≡ by_two_or_more (λ a b more. under a (λ s. sources_under ByNeeds s b more)) (texts words.now) }
{
    match words {
        [schema, target, sources @ ..] => Some(Command {
            schema: schema.as_str(),
            asked: Asked::Needs {
                target: target.as_str(),
                sources,
            },
        }),
        _ => None,
    }
}

/// The words after `frozen`.
fn frozen(words: &[String]) -> Option<Command<'_>>
    ensures { option_map seen result ≡ by_two (λ a b. under a (λ s. category_under ByFrozen s b)) (texts words.now) }
{
    match words {
        [schema, category] => Some(Command {
            schema: schema.as_str(),
            asked: Asked::Frozen {
                category: category.as_str(),
            },
        }),
        _ => None,
    }
}

/// The words after `shapes`.
fn shapes(words: &[String]) -> Option<Command<'_>>
    ensures { option_map seen result ≡ by_two (λ a b. under a (λ s. category_under ByShapes s b)) (texts words.now) }
{
    match words {
        [schema, category] => Some(Command {
            schema: schema.as_str(),
            asked: Asked::Shapes {
                category: category.as_str(),
            },
        }),
        _ => None,
    }
}

/// The words after `audit`.
fn audit(words: &[String]) -> Option<Command<'_>>
    ensures { option_map seen result ≡ by_one (λ a. under a (λ s. Done (ByAudit s))) (texts words.now) }
{
    match words {
        [schema] => Some(Command {
            schema: schema.as_str(),
            asked: Asked::Audit,
        }),
        _ => None,
    }
}

/// The command of that name with these words after it, if it is one of this family.
pub(crate) fn parse<'a>(name: &str, words: &'a [String]) -> Option<Command<'a>>
    ensures { option_map seen result ≡ order_named name.now (texts words.now) }
{
    match name {
        "format" => format(words),
        "satisfiable" => satisfiable(words),
        "implies" => implies(words),
        "summarizable" => summarizable(Wanted::Answer, words),
        "prove" => summarizable(Wanted::Certificate(Form::Long), words),
        "prove-short" => summarizable(Wanted::Certificate(Form::Short), words),
        "needs" => needs(words),
        "frozen" => frozen(words),
        "shapes" => shapes(words),
        "audit" => audit(words),
        _ => None,
    }
}
