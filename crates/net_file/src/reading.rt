// A whole net file.
ghost use Rattle.std.specs.Prelude.{◌≡◌, ◌<◌, true, length, IfOk, IfErr};
ghost use Rattle.std.specs.List.{list_all};
ghost use Rattle.net_file.specs.Net.{is_file_name, IsNetText};
ghost use Rattle.net_file.specs.FirstBad.{IsNetRefusal};
ghost use Rattle.net_file.specs.Reading.{net_told, GivesNet};

use crate::error::NetError;
use crate::laws::{refuses_first_bad_line, tells_net};
use crate::nets::{Net, NetReader};
use j1_assembler::next_line;
use std::alloc::{AllocError, Global};

// The net of a text, or its first bad line.
fn net_or_refusal(alloc: Global, text: &[u8]) -> Result<Net, NetError>
    requires { length text.now < 4294967295 }
    ensures { GivesNet result (net_told text.now) }
{
    let mut reader = NetReader::new(alloc);
    let mut number: u32 = 1;
    let mut rest = text;
    while let Some((line, behind)) = next_line(rest) {
        match reader.line(alloc, line) {
            Ok(true) => {}
            Ok(false) => return Err(NetError::BadLine(number)),
            Err(AllocError) => return Err(NetError::OutOfMemory),
        }
        number += 1;
        rest = behind;
    }
    match reader.net() {
        Some(net) => Ok(net),
        None => Err(NetError::BadLine(number)),
    }
}

/// The net of a text.
///
/// It is refused exactly where it is no net file, with its first bad line, counted from 1: net files begin with the lines before it,
/// and none goes on with it. A text that ends early is refused at the line behind its last.
#[tactic(auto, using(crate::proofs::Judged::net_is, crate::proofs::Judged::refusal_is, crate::proofs::Judged::names_are))]
pub fn read_net(alloc: Global, text: &[u8]) -> Result<Net, NetError>
    requires { length text.now < 4294967295 }
    ensures net { IfOk result (λ net. IsNetText text.now net) }
    ensures names { IfOk result (λ net. list_all is_file_name net.cores ≡ true) }
    ensures refused { IfErr result (λ error. IsNetRefusal text.now error) }
{
    tells_net();
    refuses_first_bad_line();
    net_or_refusal(alloc, text)
}
