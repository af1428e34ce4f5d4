// The machine code around a typed word.
ghost use Rattle.target_forth.specs.MachineCode.{KernelHasMachineCode};

use control_flow::{programs_are_sources, texts_end_in_sources};

/// The kernel's data space begins with the machine code of `typed_code` at its places, and with no user's cells. So the laws of `typed_code`
/// hold of it.
pub fn kernel_has_machine_code()
    ensures { KernelHasMachineCode }
{
    texts_end_in_sources();
    programs_are_sources();
}
