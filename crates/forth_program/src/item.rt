// Items of Forth source, and lists of them.
ghost use Rattle.std.specs.Prelude.{◌≡◌, [], ◌∷◌, ◌++◌, length, IfErr, OnOk, OnErr};
ghost use Rattle.forth_program.specs.ItemTrees.{items_of, arms_of};

use std::alloc::{AllocError, Global};
use word_table::Word;

/// A definition of a program, by its place among the bodies, from 0.
#[derive(Clone, Copy, Debug, PartialEq, Eq)]
pub struct DefId(pub u16);

/// Which string word of ANS Forth a text belongs to.
#[derive(Clone, Copy, Debug, PartialEq, Eq)]
pub enum TextKind {
    /// `."`: the text is printed.
    Print,
    /// `S"`: its address and length are left.
    Address,
    /// `ABORT"`: where a flag is not 0 it is printed and the run ends.
    Abort,
}

/// An item of a body. What one item contains is a tree.
#[derive(Drop)]
#[cycle(tree)]
pub enum Item {
    /// A number, a constant or a created address, as a cell.
    Literal(u16),
    /// A word of the table.
    Word(Word),
    /// A call of a definition.
    Call(DefId),
    /// A child of a defining word: the part after `DOES>`, and the byte address of the child's data.
    Child(DefId, u16),
    /// A string word with the byte address and the length in bytes of its text.
    Text(TextKind, u16, u16),
    /// `IF` with its true and its false branch; the second is empty where there is no `ELSE`.
    If(Items, Items),
    /// `BEGIN` .. `UNTIL`.
    Until(Items),
    /// `BEGIN` test `WHILE` body `REPEAT`.
    While(Items, Items),
    /// `BEGIN` .. `AGAIN`.
    Again(Items),
    /// `DO` .. `LOOP`, and with true `DO` .. `+LOOP`.
    Do(Items, bool),
    /// The same with `?DO`.
    QDo(Items, bool),
    /// `CASE` with its arms, and the items between the last `ENDOF` and `ENDCASE`.
    Case(Arms, Items),
    /// `LEAVE`.
    Leave,
    /// `EXIT`.
    Exit,
}

/// A list of items, in the order of the source.
#[derive(Drop)]
#[cycle(tree)]
pub struct Items {
    list: Vec<Item>,
}

/// The arms of a `CASE`, in the order of the source: the items before `OF`, and those between `OF` and `ENDOF`.
#[derive(Drop)]
#[cycle(tree)]
pub struct Arms {
    list: Vec<(Items, Items)>,
}

impl Items {
    /// The empty list. It takes no memory before the first `push`.
    pub fn new(alloc: Global) -> Items
        ensures { items_of result ≡ [] }
    {
        Items {
            list: Vec::new(alloc),
        }
    }

    /// Puts an item at the end. Where there is no memory for it, nothing changes and the item is handed back.
    pub fn push(&mut self, item: Item) -> Result<(), (AllocError, Item)>
        ensures ok { OnOk result (items_of self.new ≡ items_of self.old ++ item ∷ []) }
        ensures err { OnErr result (items_of self.new ≡ items_of self.old) }
        ensures handed_back { IfErr result (λ e. e.1 ≡ item) }
    {
        match self.list.push(item) {
            Ok(()) => Ok(()),
            Err(refused) => Err((AllocError, refused.value)),
        }
    }

    /// The items, the first of the source first.
    pub fn list(&self) -> &[Item]
        ensures { result.now ≡ items_of self.now }
    {
        self.list.as_slice()
    }
}

impl Arms {
    /// No arms. It takes no memory before the first `push`.
    pub fn new(alloc: Global) -> Arms
        ensures { arms_of result ≡ [] }
    {
        Arms {
            list: Vec::new(alloc),
        }
    }

    /// Puts an arm at the end. Where there is no memory for it, nothing changes and the items are handed back.
    pub fn push(&mut self, tests: Items, body: Items) -> Result<(), (AllocError, (Items, Items))>
        ensures ok { OnOk result (arms_of self.new ≡ arms_of self.old ++ (tests, body) ∷ []) }
        ensures err { OnErr result (arms_of self.new ≡ arms_of self.old) }
        ensures handed_back { IfErr result (λ e. e.1 ≡ (tests, body)) }
    {
        match self.list.push((tests, body)) {
            Ok(()) => Ok(()),
            Err(arm) => Err((AllocError, arm.value)),
        }
    }

    /// The arms, the first of the source first.
    pub fn list(&self) -> &[(Items, Items)]
        ensures { result.now ≡ arms_of self.now }
    {
        self.list.as_slice()
    }
}
