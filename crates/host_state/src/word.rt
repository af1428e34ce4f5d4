// The plain host words.

/// A plain host word: it reads no name. `DropTop` is `DROP`.
#[derive(Clone, Copy, Debug, PartialEq, Eq)]
pub enum HostWord {
    Dup,
    DropTop,
    Swap,
    Over,
    Rot,
    Plus,
    Minus,
    Star,
    And,
    Or,
    Xor,
    LShift,
    RShift,
    Negate,
    OnePlus,
    OneMinus,
    TwoStar,
    TwoSlash,
    Invert,
    Cells,
    CellPlus,
    Chars,
    CharPlus,
    Aligned,
    Fetch,
    Store,
    CFetch,
    CStore,
    PlusStore,
    Here,
    Comma,
    CComma,
    Allot,
    Align,
    Base,
    Decimal,
    Hex,
    Blank,
    ToBody,
}

/// An item of the host part of a defining word.
#[derive(Clone, Copy, Debug, PartialEq, Eq)]
pub enum HostItem {
    Number(u16),
    Word(HostWord),
}
