// Words by their names.
ghost use Rattle.std.specs.Prelude.{◌≡◌, false, IsNone, IfSome, IsTrue, ◌↔◌};
ghost use Rattle.std.specs.Str.{str_to_ascii_lowercase};
ghost use Rattle.word_table.specs.declared.word.Word.{Word};
ghost use Rattle.word_table.specs.Names.{name_of, word_named, word_in, first_named, is_go, is_named, EachIsFound, SourcesLackGo};

use crate::table::row;
use crate::word::{Vocabulary, Word};

// The words of a source.
const WORDS: [Word; 138] = [
    Word::Dup,
    Word::DropTop,
    Word::Swap,
    Word::Over,
    Word::Rot,
    Word::TwoDup,
    Word::TwoDrop,
    Word::Nip,
    Word::Tuck,
    Word::Plus,
    Word::Minus,
    Word::Negate,
    Word::OnePlus,
    Word::OneMinus,
    Word::TwoStar,
    Word::And,
    Word::Or,
    Word::Xor,
    Word::Invert,
    Word::LShift,
    Word::RShift,
    Word::Equal,
    Word::Less,
    Word::Greater,
    Word::ULess,
    Word::ZeroEqual,
    Word::ZeroLess,
    Word::SToD,
    Word::ZeroGreater,
    Word::NotEqual,
    Word::Within,
    Word::Cells,
    Word::CellPlus,
    Word::Chars,
    Word::CharPlus,
    Word::Aligned,
    Word::Fetch,
    Word::Store,
    Word::Emit,
    Word::Key,
    Word::Blank,
    Word::Cr,
    Word::Space,
    Word::Base,
    Word::Here,
    Word::Decimal,
    Word::Depth,
    Word::Hex,
    Word::AbortRun,
    Word::Quit,
    Word::ToR,
    Word::RFrom,
    Word::RFetch,
    Word::Index,
    Word::OuterIndex,
    Word::Unloop,
    Word::QDup,
    Word::TwoSwap,
    Word::TwoOver,
    Word::Abs,
    Word::Max,
    Word::Min,
    Word::TwoSlash,
    Word::CFetch,
    Word::CStore,
    Word::PlusStore,
    Word::TwoFetch,
    Word::TwoStore,
    Word::Count,
    Word::Comma,
    Word::CComma,
    Word::Allot,
    Word::Align,
    Word::UMStar,
    Word::MStar,
    Word::Star,
    Word::UMSlashMod,
    Word::SMSlashRem,
    Word::FMSlashMod,
    Word::SlashMod,
    Word::Slash,
    Word::Mod,
    Word::StarSlashMod,
    Word::StarSlash,
    Word::LessSharp,
    Word::Hold,
    Word::Sign,
    Word::Sharp,
    Word::SharpS,
    Word::SharpGreater,
    Word::Dot,
    Word::UDot,
    Word::TypeOut,
    Word::Spaces,
    Word::Fill,
    Word::Move,
    Word::Accept,
    Word::ToNumber,
    Word::Execute,
    Word::SQuote,
    Word::DotQuote,
    Word::AbortQuote,
    Word::If,
    Word::While,
    Word::Until,
    Word::Else,
    Word::Repeat,
    Word::Then,
    Word::Begin,
    Word::Do,
    Word::Loop,
    Word::PlusLoop,
    Word::QDo,
    Word::Again,
    Word::Case,
    Word::Of,
    Word::EndOf,
    Word::EndCase,
    Word::Leave,
    Word::Exit,
    Word::Semicolon,
    Word::Recurse,
    Word::BracketTick,
    Word::BracketChar,
    Word::Literal,
    Word::LeftBracket,
    Word::RightBracket,
    Word::Paren,
    Word::Backslash,
    Word::Colon,
    Word::Tick,
    Word::Char,
    Word::Constant,
    Word::Variable,
    Word::Create,
    Word::Does,
    Word::ToBody,
    Word::CodeCells,
];

/// The word of this name in a source, letters in either case. It is None exactly where no word but `GO` has the name.
pub fn word_of(name: &str) -> Option<Word>
    ensures value { result ≡ word_named name.now }
    ensures some { IfSome result (λ word. IsTrue (is_named name.now word)) }
    ensures none { IsNone result ↔ ((word : Word) → is_go word ≡ false → ¬ IsTrue (is_named name.now word)) }
{
    first_of(name, &WORDS)
}

/// The word of this name in a vocabulary, letters in either case.
pub fn word_in(vocabulary: Vocabulary, name: &str) -> Option<Word>
    ensures { result ≡ word_in vocabulary name.now }
{
    match vocabulary {
        Vocabulary::Source => first_of(name, &WORDS),
        Vocabulary::Kernel => {
            if has_name(Word::Go, name) {
                Some(Word::Go)
            } else {
                first_of(name, &WORDS)
            }
        }
    }
}

/// The first of these words that has the name.
fn first_of(name: &str, words: &[Word]) -> Option<Word>
    ensures { result ≡ first_named (str_to_ascii_lowercase name.now) words.now }
{
    for word in words {
        if has_name(*word, name) {
            return Some(*word);
        }
    }
    None
}

#[tactic(auto, using(crate::proofs::WordNames::same_test))]
fn has_name(word: Word, name: &str) -> bool
    ensures { result ≡ is_named name.now word }
{
    name.eq_ignore_ascii_case(name_text(word))
}

/// In a kernel each word is the one of its own name, and in a source none is `GO`.
pub fn each_is_found()
    ensures found { EachIsFound }
    ensures sources { SourcesLackGo }
{}

/// The name of a word, letters in upper case.
fn name_text(word: Word) -> &'static str
    ensures { result.now ≡ name_of word }
{
    row(word).name
}
