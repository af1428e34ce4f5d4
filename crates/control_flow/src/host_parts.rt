// Host parts of defining words.
ghost use Rattle.std.specs.Prelude.{◌≡◌, ℕ, ◌<◌, ◌≤◌, length, OnOk};
ghost use Rattle.control_flow.specs.HostParts.{is_to_body, may_be_part, host_part_at};
ghost use Rattle.control_flow.specs.Answers.{parser_state, IsReadyParser, AnswersAs};

use crate::host_sense::HostSense;
use crate::parser::Parser;
use crate::refusal::{SourceCause, SourceError};
use host_state::{HostItem, HostWord};
use std::alloc::Global;

/// A host part, and whether `DOES>` ends it.
#[derive(Drop)]
pub(crate) struct HostPart {
    pub(crate) items: Vec<HostItem>,
    pub(crate) does: bool,
}

fn is_to_body(word: HostWord) -> bool
    ensures { result ≡ is_to_body word }
{
    match word {
        HostWord::ToBody => true,
        _ => false,
    }
}

/// Whether it may stand in a host part.
fn may_be_part(item: HostItem) -> bool
    ensures { result ≡ may_be_part item }
{
    match item {
        HostItem::Number(_) => true,
        HostItem::Word(word) => !is_to_body(word),
    }
}

impl<'a> Parser<'a> {
    /// From behind a `CREATE` to behind the `DOES>` or the `;`.
    pub(crate) fn host_part(&mut self, alloc: Global) -> Result<HostPart, SourceError>
        requires { IsReadyParser self.old }
        ensures gives { (n : ℕ) → length self.old.reader.rest < n → AnswersAs (λ part. record { items = part.items.items; does = part.does; at = parser_state self.new }) result (host_part_at n (parser_state self.old)) }
        ensures shorter { OnOk result (length self.new.reader.rest ≤ length self.old.reader.rest) }
        ensures ready { OnOk result (IsReadyParser self.new) }
        ensures entries { self.new.dictionary.pairs ≡ self.old.dictionary.pairs }
    {
        let mut items = Vec::new(alloc);
        'tokens: loop {
            let sense = match self.host_token() {
                Ok(sense) => sense,
                Err(error) => return Err(error),
            };
            match sense {
                HostSense::Acts(item) => {
                    if !may_be_part(item) {
                        return self.refuse(SourceCause::NotInDefinition);
                    }
                    match items.push(item) {
                        Ok(()) => {}
                        Err(_) => return Err(SourceError::OutOfMemory),
                    }
                }
                HostSense::Ends => return Ok(HostPart { items, does: false }),
                HostSense::Does => return Ok(HostPart { items, does: true }),
                HostSense::Closes => return self.refuse(SourceCause::NotInDefinition),
                HostSense::Quoted => return Err(self.quoted(SourceCause::NotInDefinition)),
                HostSense::OutOfRange => {
                    return self.refuse(SourceCause::NumberRange);
                }
                HostSense::Unknown => {
                    return self.refuse(SourceCause::UnknownWord);
                }
                HostSense::Forbidden => return self.refuse(SourceCause::NotInDefinition),
            }
        }
    }
}
