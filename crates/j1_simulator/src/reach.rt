// The accesses of an instruction.
ghost use Rattle.std.specs.Prelude.{◌≡◌, true, false, length, OnErr};
ghost use Rattle.j1_simulator.specs.Step.{accesses};
ghost use Rattle.j1_simulator.specs.RoundMachine.{round_storage};
ghost use Rattle.j1_simulator.specs.MachineState.{reach_of, reached_with};

use crate::effects::{Output, Pause};
use crate::ends::End;
use console_ports::{Access, Fence, access};

// A fetch.
#[inline(always)]
fn fetch(
    memory: &[u16],
    fence: Fence,
    key: Option<u8>,
    address: u16,
) -> Result<(u16, Output), Pause>
    requires { length memory.now ≡ 0x2000 }
    ensures { reach_of result memory.now ≡ reached_with key memory.now (accesses round_storage fence.data_start true false memory.now address 0) }
{
    match access(address, fence, false) {
        Access::Data(i) => Ok((memory[i], Output::Silent)),
        Access::Key => match key {
            Some(byte) => Ok((u16::from(byte), Output::Silent)),
            None => Err(Pause::Wants),
        },
        Access::Outside(outside) => Err(Pause::Stops(End::Outside(outside))),
        _ => unreachable!(),
    }
}

// A store.
#[inline(always)]
fn store(memory: &mut [u16], fence: Fence, address: u16, value: u16) -> Result<(u16, Output), Pause>
    requires { length memory.old ≡ 0x2000 }
    ensures reach { reach_of result memory.new ≡ accesses round_storage fence.data_start false true memory.old address value }
    ensures err { OnErr result (memory.new ≡ memory.old) }
{
    match access(address, fence, true) {
        Access::Data(i) => {
            memory[i] = value;
            Ok((address, Output::Silent))
        }
        Access::Print => Ok((address, Output::Prints((value % 256) as u8))),
        Access::Halt => Ok((address, Output::Halts((value % 256) as u8))),
        Access::Outside(outside) => Err(Pause::Stops(End::Outside(outside))),
        Access::Key => unreachable!(),
    }
}

// A fetch and a store at one address.
#[inline(always)]
fn exchange(
    memory: &mut [u16],
    fence: Fence,
    address: u16,
    value: u16,
) -> Result<(u16, Output), Pause>
    requires { length memory.old ≡ 0x2000 }
    ensures reach { reach_of result memory.new ≡ accesses round_storage fence.data_start true true memory.old address value }
    ensures err { OnErr result (memory.new ≡ memory.old) }
{
    match access(address, fence, true) {
        Access::Data(i) => {
            let old = memory[i];
            memory[i] = value;
            Ok((old, Output::Silent))
        }
        Access::Print | Access::Halt => Err(Pause::Stops(End::Outside(address / 2 * 2))),
        Access::Outside(outside) => Err(Pause::Stops(End::Outside(outside))),
        Access::Key => unreachable!(),
    }
}

/// The accesses of an instruction, where T and N are these and the next byte of the input is `key`.
#[inline(always)]
pub fn reach(
    memory: &mut Vec<u16>,
    fence: Fence,
    key: Option<u8>,
    fetches: bool,
    stores: bool,
    t: u16,
    n: u16,
) -> Result<(u16, Output), Pause>
    requires { length memory.old.items ≡ 0x2000 }
    ensures reach { reach_of result memory.new.items ≡ reached_with key memory.old.items (accesses round_storage fence.data_start fetches stores memory.old.items t n) }
    ensures len { length memory.new.items ≡ 0x2000 }
    ensures err { OnErr result (memory.new.items ≡ memory.old.items) }
{
    match (fetches, stores) {
        (false, false) => Ok((t, Output::Silent)),
        (true, false) => fetch(memory, fence, key, t),
        (false, true) => store(memory, fence, t, n),
        (true, true) => exchange(memory, fence, t, n),
    }
}
