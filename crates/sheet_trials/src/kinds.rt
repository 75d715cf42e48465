// What is tried of each kind of sheets: how many, and the number that they are made for.
use sheet_samples::kinds::Kind;

// The number that every sheet of a kind has, where it is made for one.
pub(crate) fn number_of(kind: Kind) -> Option<usize> {
    match kind {
        Kind::Good | Kind::TenDigits | Kind::Full => Some(0),
        Kind::Missing | Kind::LeftOut | Kind::Empty | Kind::EmptyBelow => Some(14),
        Kind::Shared | Kind::Three | Kind::Inside => Some(15),
        Kind::Two | Kind::Cut | Kind::Changed | Kind::OtherLevel | Kind::FullFault => None,
        Kind::Broken => Some(9),
        _ => Some(13),
    }
}

// How many sheets of a kind are tried: few of those about the most lines.
pub(crate) fn count_of(kind: Kind) -> usize {
    match kind {
        Kind::Full | Kind::FullFault | Kind::Overfull | Kind::OverfullCut => 4,
        Kind::FullByte | Kind::Further => 4,
        _ => 80,
    }
}
