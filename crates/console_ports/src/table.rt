// The table of addresses.
ghost use Rattle.std.specs.Prelude.{◌≡◌};
ghost use Rattle.console_ports.specs.Ports.{access_at};

use crate::ports::{Access, Fence};

/// What a fetch or a store at a byte address reaches. Bit 0 of the address is ignored.
#[inline(always)]
pub fn access(addr: u16, fence: Fence, is_store: bool) -> Access
    ensures { result ≡ access_at fence.data_start is_store addr }
{
    let even = addr / 2 * 2;
    if addr < 0x4000 && fence.data_start <= even {
        Access::Data(usize::from(addr / 2))
    } else if even == 0x4000 && is_store {
        Access::Print
    } else if even == 0x4002 && !is_store {
        Access::Key
    } else if even == 0x4004 && is_store {
        Access::Halt
    } else {
        Access::Outside(even)
    }
}
