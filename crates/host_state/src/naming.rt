// What words do that read a name.
ghost use Rattle.std.specs.Prelude.{◌≡◌};
ghost use Rattle.host_state.specs.Naming.{created, variable, item_done, host_part, defined_by, bytes_laid, string_laid};
ghost use Rattle.host_state.specs.Answers.{Answers};

use crate::refusal::HostError;
use crate::state::HostState;
use crate::word::HostItem;

impl HostState {
    /// CREATE: the address of the name is HERE, aligned.
    pub(crate) fn create(&mut self) -> Result<u16, HostError>
        ensures { Answers (λ x. x) self.new result (created self.old) }
    {
        self.align()?;
        self.here()
    }

    /// VARIABLE: one cell more, which is 0.
    pub(crate) fn variable(&mut self) -> Result<u16, HostError>
        ensures { Answers (λ x. x) self.new result (variable self.old) }
    {
        let address = self.create()?;
        self.store(address, 0)?;
        self.grow_here(2)?;
        Ok(address)
    }

    pub(crate) fn item(&mut self, item: HostItem) -> Result<(), HostError>
        ensures { Answers (λ _. tt) self.new result (item_done item self.old) }
    {
        match item {
            HostItem::Number(x) => self.push(x),
            HostItem::Word(word) => self.word(word),
        }
    }

    /// The host part of a defining word.
    fn host_part(&mut self, items: &[HostItem]) -> Result<(), HostError>
        ensures { Answers (λ _. tt) self.new result (host_part items.now self.old) }
    {
        let mut rest = items;
        while let Some((item, tail)) = rest.split_first() {
            match self.item(*item) {
                Ok(()) => {}
                Err(error) => return Err(error),
            }
            rest = tail;
        }
        Ok(())
    }

    /// A defining word: the address of the name, and then its host part.
    pub(crate) fn define_by(&mut self, items: &[HostItem]) -> Result<u16, HostError>
        ensures { Answers (λ x. x) self.new result (defined_by items.now self.old) }
    {
        let address = self.create()?;
        self.host_part(items)?;
        Ok(address)
    }

    fn lay_bytes(&mut self, bytes: &[u8]) -> Result<(), HostError>
        ensures { Answers (λ _. tt) self.new result (bytes_laid bytes.now self.old) }
    {
        let mut rest = bytes;
        while let Some((byte, tail)) = rest.split_first() {
            match self.comma_byte(u16::from(*byte)) {
                Ok(()) => {}
                Err(error) => return Err(error),
            }
            rest = tail;
        }
        Ok(())
    }

    /// The bytes of a string at HERE, and where they begin.
    pub(crate) fn lay_string(&mut self, text: &str) -> Result<u16, HostError>
        ensures { Answers (λ x. x) self.new result (string_laid text.now self.old) }
    {
        let address = self.here()?;
        self.lay_bytes(text.as_bytes())?;
        Ok(address)
    }
}
