// The two kinds of file, their limits and a program's counts (document 01, "The two kinds of file").
ghost use Rattle.std.specs.Prelude.{◌≡◌};
ghost use Rattle.kinds.specs.Limits.{atom_limit, rule_limit, occurrence_limit, empty_counts, within};

#[derive(Clone, Copy, PartialEq, Eq)]
pub enum Kind {
    Plain,
    Preference,
}

#[derive(Clone, Copy)]
pub struct Plain;

#[derive(Clone, Copy)]
pub struct Preference;

// A verdict or the lister.
#[derive(Clone, Copy)]
pub struct Walk;

// The class words that are no class.
#[derive(Clone, Copy)]
pub struct ClassWord;

impl Plain {
    pub const ATOMS: usize = 1100;

    pub const RULES: usize = 4200;

    pub const OCCURRENCES: usize = 24000;

    // The largest stores, which are a plain program's.
    pub const WORDS: usize = 4 + 3 * Plain::RULES + Plain::OCCURRENCES;

    pub const BYTES: usize = Plain::ATOMS * (1 + Kind::LONGEST_NAME);

    // The longest index of rules: a count for each atom, and its rules.
    pub const INDEX: usize = Plain::ATOMS + Plain::OCCURRENCES;
}

impl Preference {
    pub const ATOMS: usize = 256;

    pub const RULES: usize = 1024;

    pub const OCCURRENCES: usize = 8192;

    pub const CLASSES: usize = 16;

    // Brackets of a condition, one in another.
    pub const BRACKETS: usize = 32;
}

impl Walk {
    pub const ATOMS: usize = 60;

    pub const BUDGET: u64 = 1099511627776;
}

impl ClassWord {
    pub const VARYING: u16 = 17;

    pub const FIXED: u16 = 18;
}

impl Kind {
    // Bytes of a text, of a house name, and of what the two programs read and write.
    pub const TEXT: usize = 917504;

    pub const NAME: usize = 24;

    // A generated name has two bytes more than the house name in it.
    pub const LONGEST_NAME: usize = Kind::NAME + 2;

    pub const STREAM: usize = 65536;

    pub fn atoms(self) -> usize
        ensures { result ≡ atom_limit self }
    {
        match self {
            Kind::Plain => Plain::ATOMS,
            Kind::Preference => Preference::ATOMS,
        }
    }

    pub fn rules(self) -> usize
        ensures { result ≡ rule_limit self }
    {
        match self {
            Kind::Plain => Plain::RULES,
            Kind::Preference => Preference::RULES,
        }
    }

    pub fn occurrences(self) -> usize
        ensures { result ≡ occurrence_limit self }
    {
        match self {
            Kind::Plain => Plain::OCCURRENCES,
            Kind::Preference => Preference::OCCURRENCES,
        }
    }
}

#[derive(Clone, Copy)]
pub struct Counts {
    pub atoms: usize,
    pub rules: usize,
    pub occurrences: usize,
}

impl Counts {
    // The counts of the empty program.
    pub fn empty() -> Self
        ensures { result ≡ empty_counts }
    {
        Self {
            atoms: 0,
            rules: 0,
            occurrences: 0,
        }
    }

    // Whether no count passes its limit.
    pub fn within(self, kind: Kind) -> bool
        ensures { result ≡ within kind self }
    {
        self.atoms <= kind.atoms()
            && self.rules <= kind.rules()
            && self.occurrences <= kind.occurrences()
    }
}
