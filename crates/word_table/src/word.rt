// Words, their classes, and what the table says of each.

/// A word of the source: the 124 words of the Core word set of ANS Forth (X3.215-1994) that a source text may
/// use, 13 words of its Core extension word set, `CODE-CELLS`, a word of this compiler, and `GO`, a word of kernels alone.
/// `DropTop` is `DROP`, `AbortRun` is `ABORT`, and `Index` and `OuterIndex` are `I` and `J`.
#[derive(Clone, Copy, Debug, PartialEq, Eq)]
pub enum Word {
    // The data stack (`DUP DROP SWAP OVER ROT 2DUP 2DROP`).
    Dup,
    DropTop,
    Swap,
    Over,
    Rot,
    TwoDup,
    TwoDrop,
    // `NIP` and `TUCK` of the Core extension.
    Nip,
    Tuck,
    // Arithmetic, logic and comparison on one cell or two.
    Plus,
    Minus,
    Negate,
    OnePlus,
    OneMinus,
    TwoStar,
    And,
    Or,
    Xor,
    Invert,
    LShift,
    RShift,
    Equal,
    Less,
    Greater,
    ULess,
    ZeroEqual,
    ZeroLess,
    SToD,
    // `0>`, `<>` and `WITHIN` of the Core extension.
    ZeroGreater,
    NotEqual,
    Within,
    // Addresses, which are byte addresses with cells of two bytes.
    Cells,
    CellPlus,
    Chars,
    CharPlus,
    Aligned,
    Fetch,
    Store,
    // Input and output of characters.
    Emit,
    Key,
    Blank,
    Cr,
    Space,
    // `BASE`, `HERE`, `DECIMAL` and `DEPTH`.
    Base,
    Here,
    Decimal,
    Depth,
    // `HEX` of the Core extension.
    Hex,
    // `ABORT` and `QUIT`, which end a run.
    AbortRun,
    Quit,
    // Words on the return stack and its loop parameters.
    ToR,
    RFrom,
    RFetch,
    Index,
    OuterIndex,
    Unloop,
    // More of the data stack and of arithmetic, as library words.
    QDup,
    TwoSwap,
    TwoOver,
    Abs,
    Max,
    Min,
    TwoSlash,
    // Bytes, pairs of cells and the growth of data space.
    CFetch,
    CStore,
    PlusStore,
    TwoFetch,
    TwoStore,
    Count,
    Comma,
    CComma,
    Allot,
    Align,
    // Products and quotients; those that do not say how they round are floored.
    UMStar,
    MStar,
    Star,
    UMSlashMod,
    SMSlashRem,
    FMSlashMod,
    SlashMod,
    Slash,
    Mod,
    StarSlashMod,
    StarSlash,
    // Pictured numeric output and number display.
    LessSharp,
    Hold,
    Sign,
    Sharp,
    SharpS,
    SharpGreater,
    Dot,
    UDot,
    // Words over a run of bytes; `TypeOut` is `TYPE`.
    TypeOut,
    Spaces,
    Fill,
    Move,
    Accept,
    ToNumber,
    // `EXECUTE`.
    Execute,
    // `GO`, which only the text of an interactive Forth's kernel may use: it calls the code at a byte address.
    Go,
    // The string words `S"`, `."` and `ABORT"`.
    SQuote,
    DotQuote,
    AbortQuote,
    // Structures, and what ends, leaves or calls a definition.
    If,
    While,
    Until,
    Else,
    Repeat,
    Then,
    Begin,
    Do,
    Loop,
    PlusLoop,
    // `?DO`, `AGAIN`, and `CASE` with its `OF`, `ENDOF` and `ENDCASE`, of the Core extension.
    QDo,
    Again,
    Case,
    Of,
    EndOf,
    EndCase,
    Leave,
    Exit,
    Semicolon,
    Recurse,
    // Literals and the brackets.
    BracketTick,
    BracketChar,
    Literal,
    LeftBracket,
    RightBracket,
    // Comments: `(` of the Core word set and `\` of its extension.
    Paren,
    Backslash,
    // Words that act while the source is read: defining words, `'`, `CHAR`, `DOES>` and `>BODY`.
    Colon,
    Tick,
    Char,
    Constant,
    Variable,
    Create,
    Does,
    ToBody,
    // `CODE-CELLS`: how many cells of memory are for code, below data space.
    CodeCells,
}

/// Which words a text may use.
#[derive(Clone, Copy, Debug, PartialEq, Eq)]
pub enum Vocabulary {
    /// Those of every source.
    Source,
    /// Those, and `GO`: the words of the text of an interactive Forth's kernel.
    Kernel,
}

/// How a word is compiled.
#[derive(Clone, Copy, Debug, PartialEq, Eq)]
pub enum Class {
    /// Its plain cells stand in the code.
    Inline,
    /// It is a call of a definition of the library.
    Library,
    /// It opens, parts, closes or leaves a structure, stands for a number or a text, or works on the return stack.
    Structure,
    /// It acts while the source is read.
    Host,
}

/// What the table says of a word: its depth effect, its price and its weight. Depths are in cells, prices in instructions of
/// the machine, weights in cells of code. A number that means nothing for a word is 0.
#[derive(Clone, Copy, Debug, PartialEq, Eq)]
pub struct WordEntry {
    pub class: Class,
    /// The data cells that it needs.
    pub need: u8,
    /// The data cells that it reaches above its start.
    pub peak: u8,
    /// The return cells that it reaches above its start.
    pub back: u8,
    /// The least and the greatest change of the data cells. It is None for a word that never returns, and for `EXECUTE`, whose
    /// change is that of its token.
    pub exit: Option<(i8, i8)>,
    /// The most instructions of one step, where it counts nothing.
    pub base: u32,
    /// The instructions for each of what the word counts: a byte, a space or a digit.
    pub per: u32,
    pub weight: u16,
}
