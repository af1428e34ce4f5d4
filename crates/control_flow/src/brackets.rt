// Host words in brackets.
ghost use Rattle.std.specs.Prelude.{◌≡◌, ℕ, ◌<◌, ◌≤◌, length, OnOk};
ghost use Rattle.control_flow.specs.Brackets.{acted_at, quoted_at, bracket_at};
ghost use Rattle.control_flow.specs.Answers.{parser_state, IsReadyParser, FailsAs, AnswersAs};

use crate::host_sense::HostSense;
use crate::parser::Parser;
use crate::refusal::{SourceCause, SourceError, SourceRefusal, host_cause};
use host_state::{HostError, HostItem};

impl<'a> Parser<'a> {
    /// A number or a host word acts at once.
    pub(crate) fn act(&mut self, item: HostItem) -> Result<(), SourceError>
        requires { IsReadyParser self.old }
        ensures gives { AnswersAs (λ _. parser_state self.new) result (acted_at item (parser_state self.old)) }
        ensures same { length self.new.reader.rest ≡ length self.old.reader.rest }
        ensures ready { OnOk result (IsReadyParser self.new) }
        ensures entries { self.new.dictionary.pairs ≡ self.old.dictionary.pairs }
    {
        match self.host.act(item) {
            Ok(()) => Ok(()),
            Err(HostError::Refused(cause)) => self.refuse(host_cause(cause)),
            Err(HostError::OutOfMemory) => Err(SourceError::OutOfMemory),
        }
    }

    /// A string word reads its text before it is refused.
    pub(crate) fn quoted(&mut self, cause: SourceCause) -> SourceError
        requires { IsReadyParser self.old }
        ensures gives { FailsAs result (quoted_at {A = Unit {0}} cause (parser_state self.old)) }
        ensures entries { self.new.dictionary.pairs ≡ self.old.dictionary.pairs }
    {
        match self.quotation() {
            Ok(_) => SourceError::Refused(SourceRefusal {
                token: self.reader.count(),
                cause,
            }),
            Err(error) => error,
        }
    }

    /// From behind a `[` to behind its `]`.
    pub(crate) fn bracket(&mut self) -> Result<(), SourceError>
        requires { IsReadyParser self.old }
        ensures gives { (n : ℕ) → length self.old.reader.rest < n → AnswersAs (λ _. parser_state self.new) result (bracket_at n (parser_state self.old)) }
        ensures shorter { OnOk result (length self.new.reader.rest ≤ length self.old.reader.rest) }
        ensures ready { OnOk result (IsReadyParser self.new) }
        ensures entries { self.new.dictionary.pairs ≡ self.old.dictionary.pairs }
    {
        'tokens: loop {
            let sense = match self.host_token() {
                Ok(sense) => sense,
                Err(error) => return Err(error),
            };
            match sense {
                HostSense::Acts(item) => match self.act(item) {
                    Ok(()) => {}
                    Err(error) => return Err(error),
                },
                HostSense::Closes => return Ok(()),
                HostSense::Ends => return self.refuse(SourceCause::NotInDefinition),
                HostSense::Does => return self.refuse(SourceCause::NotInDefinition),
                HostSense::Quoted => return Err(self.quoted(SourceCause::NotInDefinition)),
                HostSense::OutOfRange => {
                    return self.refuse(SourceCause::NumberRange);
                }
                HostSense::Unknown => {
                    return self.refuse(SourceCause::UnknownWord);
                }
                HostSense::Forbidden => return self.refuse(SourceCause::NotInDefinition),
            }
        }
    }
}
