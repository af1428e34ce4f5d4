// Host words, and what words that read a name do, with HERE looked at behind each.
ghost use Rattle.std.specs.Prelude.{◌≡◌, ◌+◌, ◌≤◌, length, true, IfOk, OnOk};
ghost use Rattle.host_state.specs.HostMemory.{is_here_within, checked};
ghost use Rattle.host_state.specs.Naming.{created, variable, item_done, defined_by, string_laid};
ghost use Rattle.host_state.specs.Answers.{Answers};

use crate::refusal::HostError;
use crate::state::HostState;
use crate::word::HostItem;

impl HostState {
    /// A number is put on the stack, or a plain host word is done.
    pub fn act(&mut self, item: HostItem) -> Result<(), HostError>
        ensures value { Answers (λ _. tt) self.new result (checked (item_done item self.old)) }
        ensures settled { OnOk result (is_here_within self.new.space ≡ true) }
    {
        self.item(item)?;
        self.check_here()
    }

    /// The bytes of a string are laid down at HERE. Gives where they begin.
    pub fn text(&mut self, text: &str) -> Result<u16, HostError>
        ensures value { Answers (λ x. x) self.new result (checked (string_laid text.now self.old)) }
        ensures room { IfOk result (λ address. is_here_within self.old.space ≡ true → address + length text.now ≤ 16384) }
        ensures settled { OnOk result (is_here_within self.new.space ≡ true) }
    {
        let address = self.lay_string(text)?;
        self.check_here()?;
        Ok(address)
    }

    /// The address of a created name.
    pub fn new_address(&mut self) -> Result<u16, HostError>
        ensures value { Answers (λ x. x) self.new result (checked (created self.old)) }
        ensures settled { OnOk result (is_here_within self.new.space ≡ true) }
    {
        let address = self.create()?;
        self.check_here()?;
        Ok(address)
    }

    /// The address of a variable.
    pub fn new_variable(&mut self) -> Result<u16, HostError>
        ensures value { Answers (λ x. x) self.new result (checked (variable self.old)) }
        ensures settled { OnOk result (is_here_within self.new.space ≡ true) }
    {
        let address = self.variable()?;
        self.check_here()?;
        Ok(address)
    }

    /// The address of a child, with the host part of its defining word done.
    pub fn new_child(&mut self, items: &[HostItem]) -> Result<u16, HostError>
        ensures value { Answers (λ x. x) self.new result (checked (defined_by items.now self.old)) }
        ensures settled { OnOk result (is_here_within self.new.space ≡ true) }
    {
        let address = self.define_by(items)?;
        self.check_here()?;
        Ok(address)
    }
}
