// The tally of a line's tokens, kept or not.
ghost use Rattle.std.specs.Prelude.{◌≡◌};
ghost use Rattle.olap_grammar.specs.Tallying.{HasRoom, added, counted, nothing_tallied, tallied};

use crate::{Mark, Token, Version};
use olap_base::{MOST_DEPTH, MOST_NODES};

/// Nodes are counted up to here: more than a formula may have, and the three tokens before it.
const COUNTED_NODES: u16 = MOST_NODES as u16 + 4;

/// What is counted of tokens.
#[derive(Clone, Copy)]
pub struct Tally {
    /// The nodes, or as many of them as are counted.
    pub nodes: u16,
    /// The `(`.
    pub opened: usize,
    /// The `)`.
    pub closed: usize,
    /// Whether more than `MOST_DEPTH` brackets were open at some place.
    pub too_deep: bool,
    /// Whether what comes next is compared with: it is no node.
    pub is_compared: bool,
}

/// One node more, up to `COUNTED_NODES`.
fn count(nodes: u16) -> u16
    ensures { result ≡ counted nodes }
{
    if nodes < COUNTED_NODES {
        nodes + 1
    } else {
        nodes
    }
}

impl Tally {
    /// Nothing is counted yet.
    pub(crate) fn new() -> Tally
        ensures { result ≡ nothing_tallied }
    {
        Tally {
            nodes: 0,
            opened: 0,
            closed: 0,
            too_deep: false,
            is_compared: false,
        }
    }

    /// One token more, but for what comes next.
    fn count(&mut self, token: &Token)
        requires { HasRoom self.old }
        ensures { self.new ≡ added self.old token.now }
    {
        match token {
            Token::Mark(Mark::Open) => {
                self.opened += 1;
                let open = self.opened.saturating_sub(self.closed);
                self.too_deep = self.too_deep || open > MOST_DEPTH as usize;
            }
            Token::Mark(Mark::Close) => self.closed += 1,
            _ => {
                if !self.is_compared && token.is_node() {
                    self.nodes = count(self.nodes);
                }
            }
        }
    }

    /// One token more.
    pub(crate) fn add(&mut self, version: Version, token: &Token)
        requires { HasRoom self.old }
        ensures { self.new ≡ tallied version self.old token.now }
    {
        self.count(token);
        self.is_compared = token.compares(version);
    }
}
