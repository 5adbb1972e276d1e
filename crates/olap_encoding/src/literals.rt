// Literals of variables.
ghost use Rattle.std.specs.Prelude.{◌≡◌};
ghost use Rattle.olap_encoding.specs.Literals.{plain};

use olap_pool::Lit;

/// The literal that is always true.
pub const YES: Lit = Lit {
    variable: 0,
    positive: true,
};

/// The literal that never is.
pub const NO: Lit = Lit {
    variable: 0,
    positive: false,
};

/// The literal that a variable is true.
pub fn plain(variable: u32) -> Lit
    ensures { result ≡ plain variable }
{
    Lit {
        variable,
        positive: true,
    }
}
