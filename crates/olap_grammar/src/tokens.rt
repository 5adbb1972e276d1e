// Tokens.
ghost use Rattle.olap_grammar.specs.Nodes.{compares, is_node};
ghost use Rattle.std.specs.Prelude.{◌≡◌};

use olap_base::Text;

/// A version of the schema text. The second has numbers, and comparisons with them.
#[derive(Clone, Copy, PartialEq, Eq)]
pub enum Version {
    /// Texts alone.
    One,
    /// Numbers too.
    Two,
}

/// A mark that joins two formulas.
#[derive(Clone, Copy)]
pub enum Joint {
    /// `<->`
    Iff,
    /// `->`
    Implies,
    /// `^`
    Xor,
    /// `|`
    Or,
    /// `&`
    And,
}

/// A mark.
#[derive(Clone, Copy)]
pub enum Mark {
    /// `(`
    Open,
    /// `)`
    Close,
    /// `,`
    Comma,
    /// `:`
    Colon,
    /// `=`
    Equal,
    /// `<`
    Less,
    /// `<=`
    AtMost,
    /// `!`
    Not,
    /// One that joins two formulas.
    Joint(Joint),
}

/// A token of a line.
#[derive(Drop)]
pub enum Token {
    /// Letters, digits, `_` and `.`.
    Word(Text),
    /// What a string stands for, its escapes resolved.
    Quoted(Text),
    /// A `-` before a digit, with the bytes of a word after it.
    Signed(Text),
    /// A mark.
    Mark(Mark),
}

impl Token {
    /// Whether it is a mark before a number: `=`, `<` or `<=`, in the version that has numbers.
    pub fn compares(&self, version: Version) -> bool
        ensures { result ≡ compares version self.now }
    {
        match version {
            Version::One => false,
            Version::Two => { matches!(self, Token::Mark(Mark::Equal | Mark::Less | Mark::AtMost)) }
        }
    }

    /// Whether it is a node of a formula's tree, unless it is compared with.
    pub fn is_node(&self) -> bool
        ensures { result ≡ is_node self.now }
    {
        match self {
            Token::Word(_) => true,
            Token::Mark(mark) => matches!(mark, Mark::Not | Mark::Joint(_)),
            _ => false,
        }
    }
}
