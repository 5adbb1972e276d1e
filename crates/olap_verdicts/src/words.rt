// Which words are a command about a certificate.
ghost use Rattle.std.specs.Prelude.{◌≡◌, ◌∷◌, option_map};
ghost use Rattle.olap_order.specs.Words.{texts};
ghost use Rattle.olap_order.specs.Behind.{by_three_or_more};
ghost use Rattle.olap_verdicts.specs.Commands.{order_named, verify_order};
ghost use Rattle.olap_verdicts.specs.Seen.{seen};

use olap_proof::Form;

/// A command with its words.
#[derive(Clone, Copy)]
pub(crate) enum Command<'a> {
    /// Whether a text is a certificate of that form.
    Verify {
        form: Form,
        schema: &'a str,
        certificate: &'a str,
        target: &'a str,
        sources: &'a [String],
    },
}

/// The words after `verify` and `verify-short`.
fn verify(form: Form, words: &[String]) -> Option<Command<'_>>
    ensures { option_map seen result
        ≡ by_three_or_more (λ a b c more. verify_order form (a ∷ b ∷ c ∷ more)) (texts words.now) }
{
    match words {
        [schema, certificate, target, sources @ ..] => Some(Command::Verify {
            form,
            schema: schema.as_str(),
            certificate: certificate.as_str(),
            target: target.as_str(),
            sources,
        }),
        _ => None,
    }
}

/// The command of that name with these words after it, if it is one of this family.
pub(crate) fn parse<'a>(name: &str, words: &'a [String]) -> Option<Command<'a>>
    ensures { option_map seen result ≡ order_named name.now (texts words.now) }
{
    match name {
        "verify" => verify(Form::Long, words),
        "verify-short" => verify(Form::Short, words),
        _ => None,
    }
}
