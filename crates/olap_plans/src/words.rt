// Which words are a command that a plan answers.
ghost use Rattle.std.specs.Prelude.{◌≡◌, [], ◌∷◌, option_map};
ghost use Rattle.olap_order.specs.Behind.{by_four, by_two};
ghost use Rattle.olap_order.specs.Words.{texts};
ghost use Rattle.olap_plans.specs.Commands.{answer_order, generate_order, order_named};
ghost use Rattle.olap_plans.specs.Seen.{seen};

/// A command with its words.
#[derive(Clone, Copy)]
pub(crate) enum Command<'a> {
    /// A view from stored views.
    Answer {
        schema: &'a str,
        instance: &'a str,
        store: &'a str,
        target: &'a str,
    },
    /// What comes of an input that is made from a number.
    Generate {
        seed: &'a str,
        size: &'a str,
    },
}

/// The words after `answer`.
fn answer(words: &[String]) -> Option<Command<'_>>
    ensures { option_map seen result
        ≡ by_four (λ a b c d. answer_order (a ∷ b ∷ c ∷ d ∷ [])) (texts words.now) }
{
    match words {
        [schema, instance, store, target] => Some(Command::Answer {
            schema: schema.as_str(),
            instance: instance.as_str(),
            store: store.as_str(),
            target: target.as_str(),
        }),
        _ => None,
    }
}

/// The words after `generate`.
fn generate(words: &[String]) -> Option<Command<'_>>
    ensures { option_map seen result ≡ by_two (λ a b. generate_order (a ∷ b ∷ [])) (texts words.now) }
{
    match words {
        [seed, size] => Some(Command::Generate {
            seed: seed.as_str(),
            size: size.as_str(),
        }),
        _ => None,
    }
}

/// The command of that name with these words after it, if it is one of this family.
pub(crate) fn parse<'a>(name: &str, words: &'a [String]) -> Option<Command<'a>>
    ensures { option_map seen result ≡ order_named name.now (texts words.now) }
{
    match name {
        "answer" => answer(words),
        "generate" => generate(words),
        _ => None,
    }
}
