// Words by what they take and leave.
ghost use Rattle.std.specs.Prelude.{◌≡◌};
ghost use Rattle.reference_eval.specs.Shapes.{shape_of};

use word_table::Word;

/// What a word works on.
#[derive(Clone, Copy, Debug, PartialEq, Eq)]
pub(crate) enum Shape {
    /// One cell becomes one.
    Unary,
    /// Two cells become one.
    Binary,
    /// Three cells become one.
    Ternary,
    /// A cell is added.
    Adds,
    /// One cell is copied or dropped.
    ShufflesOne,
    /// Two cells are copied, moved or dropped.
    ShufflesTwo,
    /// Three cells are moved.
    ShufflesThree,
    /// Four cells are copied or moved.
    ShufflesFour,
    /// One cell becomes a double.
    Extend,
    /// Two cells become a double.
    Product,
    /// A quotient of two cells.
    Quotient,
    /// A quotient of a double, or of a product, and a cell.
    LongQuotient,
    /// Accesses to data space and the console, with no cell taken.
    TakesNone,
    /// Accesses, with one cell taken.
    TakesOne,
    /// Accesses, with two cells taken.
    TakesTwo,
    /// Accesses, with three cells taken.
    TakesThree,
    /// Accesses, with four cells taken.
    TakesFour,
    /// Return entries, and `EXECUTE`.
    Frame,
    /// The run ends, or is led out of the source.
    Ends,
    /// Words that stand in no item.
    NoCode,
}

/// The shape of a word.
pub(crate) fn shape_of_word(word: Word) -> Shape
    ensures { result ≡ shape_of word }
{
    match word {
        Word::Negate
        | Word::OnePlus
        | Word::OneMinus
        | Word::TwoStar
        | Word::TwoSlash
        | Word::Abs
        | Word::Invert
        | Word::ZeroEqual
        | Word::ZeroLess
        | Word::ZeroGreater
        | Word::Cells
        | Word::CellPlus
        | Word::Chars
        | Word::CharPlus
        | Word::Aligned => Shape::Unary,
        Word::Plus
        | Word::Minus
        | Word::And
        | Word::Or
        | Word::Xor
        | Word::LShift
        | Word::RShift
        | Word::Equal
        | Word::NotEqual
        | Word::Less
        | Word::Greater
        | Word::ULess
        | Word::Max
        | Word::Min
        | Word::Star => Shape::Binary,
        Word::Within => Shape::Ternary,
        Word::Depth | Word::Blank | Word::Base => Shape::Adds,
        Word::Dup | Word::DropTop | Word::QDup => Shape::ShufflesOne,
        Word::Swap | Word::Over | Word::TwoDup | Word::TwoDrop | Word::Nip | Word::Tuck =>
            Shape::ShufflesTwo,
        Word::Rot => Shape::ShufflesThree,
        Word::TwoSwap | Word::TwoOver => Shape::ShufflesFour,
        Word::SToD => Shape::Extend,
        Word::UMStar | Word::MStar => Shape::Product,
        Word::SlashMod | Word::Slash | Word::Mod => Shape::Quotient,
        Word::UMSlashMod
        | Word::SMSlashRem
        | Word::FMSlashMod
        | Word::StarSlashMod
        | Word::StarSlash => Shape::LongQuotient,
        Word::Here
        | Word::Key
        | Word::Decimal
        | Word::Hex
        | Word::Align
        | Word::Cr
        | Word::Space
        | Word::LessSharp => Shape::TakesNone,
        Word::Fetch
        | Word::CFetch
        | Word::TwoFetch
        | Word::Count
        | Word::Comma
        | Word::CComma
        | Word::Allot
        | Word::Emit
        | Word::Spaces
        | Word::Hold
        | Word::Sign
        | Word::Dot
        | Word::UDot => Shape::TakesOne,
        Word::Store
        | Word::CStore
        | Word::PlusStore
        | Word::TypeOut
        | Word::Accept
        | Word::Sharp
        | Word::SharpS
        | Word::SharpGreater => Shape::TakesTwo,
        Word::TwoStore | Word::Fill | Word::Move => Shape::TakesThree,
        Word::ToNumber => Shape::TakesFour,
        Word::ToR
        | Word::RFrom
        | Word::RFetch
        | Word::Index
        | Word::OuterIndex
        | Word::Unloop
        | Word::Execute => Shape::Frame,
        Word::AbortRun | Word::Quit | Word::Go => Shape::Ends,
        _ => Shape::NoCode,
    }
}
