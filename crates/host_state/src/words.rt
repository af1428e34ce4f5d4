// What each plain host word does.
ghost use Rattle.std.specs.Prelude.{◌≡◌};
ghost use Rattle.host_state.specs.HostWords.{word_done};
ghost use Rattle.host_state.specs.Answers.{Answers};

use crate::refusal::{HostError, HostRefusal, refused};
use crate::state::{HostState, even};
use crate::word::HostWord;
use cell_math::{add, negate};

impl HostState {
    fn dup(&mut self) -> Result<(), HostError>
        ensures { Answers (λ _. tt) self.new result (word_done HostWord.Dup self.old) }
    {
        let x = self.pop()?;
        self.push(x)?;
        self.push(x)
    }

    fn drop_top(&mut self) -> Result<(), HostError>
        ensures { Answers (λ _. tt) self.new result (word_done HostWord.DropTop self.old) }
    {
        self.pop()?;
        Ok(())
    }

    fn swap(&mut self) -> Result<(), HostError>
        ensures { Answers (λ _. tt) self.new result (word_done HostWord.Swap self.old) }
    {
        let y = self.pop()?;
        let x = self.pop()?;
        self.push(y)?;
        self.push(x)
    }

    fn over(&mut self) -> Result<(), HostError>
        ensures { Answers (λ _. tt) self.new result (word_done HostWord.Over self.old) }
    {
        let y = self.pop()?;
        let x = self.pop()?;
        self.push(x)?;
        self.push(y)?;
        self.push(x)
    }

    fn rot(&mut self) -> Result<(), HostError>
        ensures { Answers (λ _. tt) self.new result (word_done HostWord.Rot self.old) }
    {
        let z = self.pop()?;
        let y = self.pop()?;
        let x = self.pop()?;
        self.push(y)?;
        self.push(z)?;
        self.push(x)
    }

    fn plus(&mut self) -> Result<(), HostError>
        ensures { Answers (λ _. tt) self.new result (word_done HostWord.Plus self.old) }
    {
        let y = self.pop()?;
        let x = self.pop()?;
        self.push(add(x, y))
    }

    fn minus(&mut self) -> Result<(), HostError>
        ensures { Answers (λ _. tt) self.new result (word_done HostWord.Minus self.old) }
    {
        let y = self.pop()?;
        let x = self.pop()?;
        self.push(x.wrapping_sub(y))
    }

    fn star(&mut self) -> Result<(), HostError>
        ensures { Answers (λ _. tt) self.new result (word_done HostWord.Star self.old) }
    {
        let y = self.pop()?;
        let x = self.pop()?;
        self.push(x.wrapping_mul(y))
    }

    fn and(&mut self) -> Result<(), HostError>
        ensures { Answers (λ _. tt) self.new result (word_done HostWord.And self.old) }
    {
        let y = self.pop()?;
        let x = self.pop()?;
        self.push(x & y)
    }

    fn or(&mut self) -> Result<(), HostError>
        ensures { Answers (λ _. tt) self.new result (word_done HostWord.Or self.old) }
    {
        let y = self.pop()?;
        let x = self.pop()?;
        self.push(x | y)
    }

    fn xor(&mut self) -> Result<(), HostError>
        ensures { Answers (λ _. tt) self.new result (word_done HostWord.Xor self.old) }
    {
        let y = self.pop()?;
        let x = self.pop()?;
        self.push(x ^ y)
    }

    fn lshift(&mut self) -> Result<(), HostError>
        ensures { Answers (λ _. tt) self.new result (word_done HostWord.LShift self.old) }
    {
        let y = self.pop()?;
        let x = self.pop()?;
        self.push(x << (y % 16))
    }

    fn rshift(&mut self) -> Result<(), HostError>
        ensures { Answers (λ _. tt) self.new result (word_done HostWord.RShift self.old) }
    {
        let y = self.pop()?;
        let x = self.pop()?;
        self.push(x >> (y % 16))
    }

    fn negate(&mut self) -> Result<(), HostError>
        ensures { Answers (λ _. tt) self.new result (word_done HostWord.Negate self.old) }
    {
        let x = self.pop()?;
        self.push(negate(x))
    }

    fn one_plus(&mut self) -> Result<(), HostError>
        ensures { Answers (λ _. tt) self.new result (word_done HostWord.OnePlus self.old) }
    {
        let x = self.pop()?;
        self.push(add(x, 1))
    }

    fn one_minus(&mut self) -> Result<(), HostError>
        ensures { Answers (λ _. tt) self.new result (word_done HostWord.OneMinus self.old) }
    {
        let x = self.pop()?;
        self.push(add(x, 65535))
    }

    fn two_star(&mut self) -> Result<(), HostError>
        ensures { Answers (λ _. tt) self.new result (word_done HostWord.TwoStar self.old) }
    {
        let x = self.pop()?;
        self.push(x.wrapping_mul(2))
    }

    fn two_slash(&mut self) -> Result<(), HostError>
        ensures { Answers (λ _. tt) self.new result (word_done HostWord.TwoSlash self.old) }
    {
        let x = self.pop()?;
        self.push(x / 2 + x / 32768 * 32768)
    }

    fn invert(&mut self) -> Result<(), HostError>
        ensures { Answers (λ _. tt) self.new result (word_done HostWord.Invert self.old) }
    {
        let x = self.pop()?;
        self.push(65535 - x)
    }

    fn cells(&mut self) -> Result<(), HostError>
        ensures { Answers (λ _. tt) self.new result (word_done HostWord.Cells self.old) }
    {
        let x = self.pop()?;
        self.push(x.wrapping_mul(2))
    }

    fn cell_plus(&mut self) -> Result<(), HostError>
        ensures { Answers (λ _. tt) self.new result (word_done HostWord.CellPlus self.old) }
    {
        let x = self.pop()?;
        self.push(add(x, 2))
    }

    fn chars(&mut self) -> Result<(), HostError>
        ensures { Answers (λ _. tt) self.new result (word_done HostWord.Chars self.old) }
    {
        let x = self.pop()?;
        self.push(x)
    }

    fn char_plus(&mut self) -> Result<(), HostError>
        ensures { Answers (λ _. tt) self.new result (word_done HostWord.CharPlus self.old) }
    {
        let x = self.pop()?;
        self.push(add(x, 1))
    }

    fn aligned(&mut self) -> Result<(), HostError>
        ensures { Answers (λ _. tt) self.new result (word_done HostWord.Aligned self.old) }
    {
        let x = self.pop()?;
        self.push(even(add(x, 1)))
    }

    fn fetch_word(&mut self) -> Result<(), HostError>
        ensures { Answers (λ _. tt) self.new result (word_done HostWord.Fetch self.old) }
    {
        let address = self.pop()?;
        let x = self.fetch(address)?;
        self.push(x)
    }

    fn store_word(&mut self) -> Result<(), HostError>
        ensures { Answers (λ _. tt) self.new result (word_done HostWord.Store self.old) }
    {
        let address = self.pop()?;
        let x = self.pop()?;
        self.store(address, x)
    }

    fn c_fetch(&mut self) -> Result<(), HostError>
        ensures { Answers (λ _. tt) self.new result (word_done HostWord.CFetch self.old) }
    {
        let address = self.pop()?;
        let c = self.fetch_byte(address)?;
        self.push(c)
    }

    fn c_store(&mut self) -> Result<(), HostError>
        ensures { Answers (λ _. tt) self.new result (word_done HostWord.CStore self.old) }
    {
        let address = self.pop()?;
        let c = self.pop()?;
        self.store_byte(address, c)
    }

    fn plus_store(&mut self) -> Result<(), HostError>
        ensures { Answers (λ _. tt) self.new result (word_done HostWord.PlusStore self.old) }
    {
        let address = self.pop()?;
        let n = self.pop()?;
        let x = self.fetch(address)?;
        self.store(address, add(x, n))
    }

    fn here_word(&mut self) -> Result<(), HostError>
        ensures { Answers (λ _. tt) self.new result (word_done HostWord.Here self.old) }
    {
        let here = self.here()?;
        self.push(here)
    }

    fn comma_word(&mut self) -> Result<(), HostError>
        ensures { Answers (λ _. tt) self.new result (word_done HostWord.Comma self.old) }
    {
        let x = self.pop()?;
        self.comma(x)
    }

    fn c_comma(&mut self) -> Result<(), HostError>
        ensures { Answers (λ _. tt) self.new result (word_done HostWord.CComma self.old) }
    {
        let c = self.pop()?;
        self.comma_byte(c)
    }

    fn allot(&mut self) -> Result<(), HostError>
        ensures { Answers (λ _. tt) self.new result (word_done HostWord.Allot self.old) }
    {
        let n = self.pop()?;
        self.grow_here(n)
    }

    fn to_body(&mut self) -> Result<(), HostError>
        ensures { Answers (λ _. tt) self.new result (word_done HostWord.ToBody self.old) }
    {
        let token = self.pop()?;
        match self.body_of(token) {
            Some(address) => self.push(address),
            None => refused(HostRefusal::NeedsName),
        }
    }

    /// One plain host word.
    pub fn word(&mut self, word: HostWord) -> Result<(), HostError>
        ensures { Answers (λ _. tt) self.new result (word_done word self.old) }
    {
        match word {
            HostWord::Dup => self.dup(),
            HostWord::DropTop => self.drop_top(),
            HostWord::Swap => self.swap(),
            HostWord::Over => self.over(),
            HostWord::Rot => self.rot(),
            HostWord::Plus => self.plus(),
            HostWord::Minus => self.minus(),
            HostWord::Star => self.star(),
            HostWord::And => self.and(),
            HostWord::Or => self.or(),
            HostWord::Xor => self.xor(),
            HostWord::LShift => self.lshift(),
            HostWord::RShift => self.rshift(),
            HostWord::Negate => self.negate(),
            HostWord::OnePlus => self.one_plus(),
            HostWord::OneMinus => self.one_minus(),
            HostWord::TwoStar => self.two_star(),
            HostWord::TwoSlash => self.two_slash(),
            HostWord::Invert => self.invert(),
            HostWord::Cells => self.cells(),
            HostWord::CellPlus => self.cell_plus(),
            HostWord::Chars => self.chars(),
            HostWord::CharPlus => self.char_plus(),
            HostWord::Aligned => self.aligned(),
            HostWord::Fetch => self.fetch_word(),
            HostWord::Store => self.store_word(),
            HostWord::CFetch => self.c_fetch(),
            HostWord::CStore => self.c_store(),
            HostWord::PlusStore => self.plus_store(),
            HostWord::Here => self.here_word(),
            HostWord::Comma => self.comma_word(),
            HostWord::CComma => self.c_comma(),
            HostWord::Allot => self.allot(),
            HostWord::Align => self.align(),
            HostWord::Base => self.push(self.data_start()),
            HostWord::Decimal => self.store(self.data_start(), 10),
            HostWord::Hex => self.store(self.data_start(), 16),
            HostWord::Blank => self.push(32),
            HostWord::ToBody => self.to_body(),
        }
    }
}
