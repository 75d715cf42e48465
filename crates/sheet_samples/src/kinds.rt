// The kinds of sheets, in the order in which the program prints them.
ghost use Rattle.std.specs.Prelude.{◌≡◌, ◌≢◌, ◌↔◌};
ghost use Rattle.sheet_samples.specs.declared.kinds.Kind.TheVariants.{Empty, EmptyBelow, OtherLevel, Broken};

pub const KINDS: usize = 34;

#[derive(Clone, Copy, PartialEq, Eq)]
pub enum Kind {
    Good,
    TenDigits,
    Missing,
    Shared,
    Three,
    Inside,
    LeftOut,
    Two,
    Behind,
    Unknown,
    Depth,
    Above,
    HighTo,
    HighRate,
    ElevenDigits,
    NoDigits,
    OverWord,
    Return,
    Blank,
    Sign,
    Comma,
    Feed,
    NoFeed,
    Cut,
    Changed,
    Empty,
    EmptyBelow,
    OtherLevel,
    Broken,
    Full,
    FullFault,
    Overfull,
    OverfullCut,
    FullByte,
    Further,
}

impl Kind {
    // The kind of a line. A line behind them has good sheets, on trees of the sizes of the fullest kinds.
    pub fn at(line: usize) -> Kind
        ensures empty { (result ≡ Empty) ↔ (line ≡ 25) }
        ensures empty_below { (result ≡ EmptyBelow) ↔ (line ≡ 26) }
        ensures other_level { (result ≡ OtherLevel) ↔ (line ≡ 27) }
        ensures broken { (result ≡ Broken) ↔ (line ≡ 28) }
    {
        match line {
            25 => Kind::Empty,
            26 => Kind::EmptyBelow,
            27 => Kind::OtherLevel,
            28 => Kind::Broken,
            _ if line < 14 => Kind::of_lines(line),
            _ => Kind::of_text(line),
        }
    }

    // The kinds of which the lines are good or spoilt.
    fn of_lines(line: usize) -> Kind
        ensures { (result ≢ Empty) × (result ≢ EmptyBelow) × (result ≢ OtherLevel) × (result ≢ Broken) }
    {
        match line {
            0 => Kind::Good,
            1 => Kind::TenDigits,
            2 => Kind::Missing,
            3 => Kind::Shared,
            4 => Kind::Three,
            5 => Kind::Inside,
            6 => Kind::LeftOut,
            7 => Kind::Two,
            8 => Kind::Behind,
            9 => Kind::Unknown,
            10 => Kind::Depth,
            11 => Kind::Above,
            12 => Kind::HighTo,
            _ => Kind::HighRate,
        }
    }

    // The kinds of which the text is spoilt, and those about the most lines.
    fn of_text(line: usize) -> Kind
        ensures { (result ≢ Empty) × (result ≢ EmptyBelow) × (result ≢ OtherLevel) × (result ≢ Broken) }
    {
        match line {
            14 => Kind::ElevenDigits,
            15 => Kind::NoDigits,
            16 => Kind::OverWord,
            17 => Kind::Return,
            18 => Kind::Blank,
            19 => Kind::Sign,
            20 => Kind::Comma,
            21 => Kind::Feed,
            22 => Kind::NoFeed,
            23 => Kind::Cut,
            24 => Kind::Changed,
            29 => Kind::Full,
            30 => Kind::FullFault,
            31 => Kind::Overfull,
            32 => Kind::OverfullCut,
            33 => Kind::FullByte,
            _ => Kind::Further,
        }
    }

    // Whether the kind is tried on trees of up to 512 entries: those about the most lines, and what is behind them.
    pub(crate) fn is_full(self) -> bool {
        self == Kind::Further || self.total().is_some()
    }

    // The number of lines that a sheet of the kind has, where it is stated: about the most.
    pub(crate) fn total(self) -> Option<usize> {
        match self {
            Kind::Full | Kind::FullByte => Some(4096),
            Kind::FullFault => Some(4095),
            Kind::Overfull | Kind::OverfullCut => Some(4097),
            _ => None,
        }
    }
}
