// Truth values of which some are unknown, and their connectives.
ghost use Rattle.std.specs.Prelude.{◌&&◌, ◌||◌, ◌≡◌, ◌∷◌, ◌++◌, List, [], not};
ghost use Rattle.olap_ast.specs.ThreeValues.{IsCount, ValuesAgree, iff, implies, value_of, value_of_both, value_of_counts, value_of_one, xor};

/// What is known of a truth.
#[derive(Clone, Copy, PartialEq, Eq)]
pub enum Truth3 {
    /// It is false.
    No,
    /// It is true.
    Yes,
    /// It may be either.
    Unknown,
}

/// The value of a table, whose rows are those of the first argument and whose columns are those of the second, in the
/// order `No`, `Yes`, `Unknown`.
macro_rules! table {
    ($first:expr, $second:expr;
     $nn:ident $ny:ident $nu:ident, $yn:ident $yy:ident $yu:ident, $un:ident $uy:ident $uu:ident) => {
        match ($first, $second) {
            (Truth3::No, Truth3::No) => Truth3::$nn,
            (Truth3::No, Truth3::Yes) => Truth3::$ny,
            (Truth3::No, Truth3::Unknown) => Truth3::$nu,
            (Truth3::Yes, Truth3::No) => Truth3::$yn,
            (Truth3::Yes, Truth3::Yes) => Truth3::$yy,
            (Truth3::Yes, Truth3::Unknown) => Truth3::$yu,
            (Truth3::Unknown, Truth3::No) => Truth3::$un,
            (Truth3::Unknown, Truth3::Yes) => Truth3::$uy,
            (Truth3::Unknown, Truth3::Unknown) => Truth3::$uu,
        }
    };
}

impl Truth3 {
    /// Whether it is false.
    pub fn not(self) -> Truth3
        ensures { result ≡ value_of not self }
    {
        match self {
            Truth3::No => Truth3::Yes,
            Truth3::Yes => Truth3::No,
            Truth3::Unknown => Truth3::Unknown,
        }
    }

    /// Whether both are true.
    pub fn and(self, o: Truth3) -> Truth3
        ensures { result ≡ value_of_both ◌&&◌ self o }
    {
        table!(self, o; No No No, No Yes Unknown, No Unknown Unknown)
    }

    /// Whether one of them is true.
    pub fn or(self, o: Truth3) -> Truth3
        ensures { result ≡ value_of_both ◌||◌ self o }
    {
        table!(self, o; No Yes Unknown, Yes Yes Yes, Unknown Yes Unknown)
    }

    /// Whether the second is true if the first is.
    pub fn implies(self, o: Truth3) -> Truth3
        ensures { result ≡ value_of_both implies self o }
    {
        table!(self, o; Yes Yes Yes, No Yes Unknown, Unknown Yes Unknown)
    }

    /// Whether both are true, or neither is.
    pub fn iff(self, o: Truth3) -> Truth3
        ensures { result ≡ value_of_both iff self o }
    {
        table!(self, o; Yes No Unknown, No Yes Unknown, Unknown Unknown Unknown)
    }

    /// Whether exactly one of the two is true.
    pub fn xor(self, o: Truth3) -> Truth3
        ensures { result ≡ value_of_both xor self o }
    {
        table!(self, o; No Yes Unknown, Yes No Unknown, Unknown Unknown Unknown)
    }
}

/// How many of the values so far are true, and how many are unknown. A number stands still at its last value.
#[derive(Clone, Copy, PartialEq, Eq)]
pub struct OneCount {
    /// How many are true.
    pub yes: u32,
    /// How many are unknown.
    pub unknown: u32,
}

impl OneCount {
    /// Of no values.
    pub fn new() -> OneCount
        ensures { IsCount [] result.yes result.unknown }
    {
        OneCount { yes: 0, unknown: 0 }
    }

    /// Counts one more value.
    pub fn add(&mut self, t: Truth3)
        ensures { (xs : List Truth3) → IsCount xs self.old.yes self.old.unknown
            → IsCount (xs ++ t ∷ []) self.new.yes self.new.unknown }
    {
        match t {
            Truth3::No => {}
            Truth3::Yes => self.yes = self.yes.saturating_add(1),
            Truth3::Unknown => self.unknown = self.unknown.saturating_add(1),
        }
    }

    /// Whether exactly one of the values is true.
    #[tactic(auto, using(crate::proofs::ThreeValueLemmas::counts_are))]
    pub fn result(&self) -> Truth3
        ensures numbers { result ≡ value_of_counts self.now.yes self.now.unknown }
        ensures list { (xs : List Truth3) → IsCount xs self.now.yes self.now.unknown
            → result ≡ value_of_one xs }
    {
        match (self.yes, self.unknown) {
            (0, 0) => Truth3::No,
            (1, 0) => Truth3::Yes,
            (0 | 1, _) => Truth3::Unknown,
            _ => Truth3::No,
        }
    }
}

/// Each value is the one on which all agree that the unknowns may turn out to be, and `Unknown` if they don't.
pub fn values_agree()
    ensures { ValuesAgree }
{}
