// What the kernel's text says.
ghost use Rattle.std.specs.Prelude.{◌≡◌};
ghost use Rattle.word_table.specs.declared.word.Vocabulary.TheVariants.{Kernel};
ghost use Rattle.library_laws.specs.Bodies.{whole_library};
ghost use Rattle.code_layout.specs.Built.{IsBuilt};
ghost use Rattle.control_flow.specs.ParseResult.{Fine};
ghost use Rattle.control_flow.specs.SourceText.{program_in};
ghost use Rattle.depth_certifier.specs.Certificate.{IsValid};
ghost use Rattle.kernel_definitions.specs.Bodies.{HasDefiningWords};
ghost use Rattle.kernel_interpreter.specs.Bodies.{IsInterpreter};
ghost use Rattle.kernel_lines.specs.Bodies.{HasLines};
ghost use Rattle.kernel_words.specs.Bodies.{IsKernel};
ghost use Rattle.target_forth.specs.Behind.{KernelAgrees, KernelAgreesOnChip, KernelKeepsTight};
ghost use Rattle.target_forth.specs.Certificate.{kernel_certificate};
ghost use Rattle.target_forth.specs.Kernel.{kernel_program};
ghost use Rattle.target_forth.specs.Replies.{Replies};

use crate::text::KERNEL_TEXT;
use chip_laws::{certified_chips_return, certified_images_return};
use control_flow::programs_are_sources;
use depth_certifier::checks_are_exact;
use forth_library::library_means;

/// By the grammar of kernels the text gives a program, which is never refused and can be laid out. It has the definitions that read the source, look
/// for names and numbers, and lay cells and headers at their places: so these do in it what the laws of `kernel_words` say. So it has those of a
/// line, which do what the laws of `kernel_lines` say, those that compile a typed definition, as `kernel_definitions` says, and those that do the words
/// of a line outside definitions, as `kernel_interpreter` says.
pub fn kernel_is_read()
    ensures read { program_in Kernel KERNEL_TEXT.now ≡ Fine kernel_program }
    ensures words { IsKernel kernel_program }
    ensures lines { HasLines kernel_program }
    ensures defining { HasDefiningWords kernel_program }
    ensures interpreter { IsInterpreter kernel_program }
    ensures built { IsBuilt whole_library kernel_program }
{}

/// That program has this certificate. So each of its runs, as far as it is not led out by GO, keeps within both stacks of the chip; and where GO
/// calls typed code, no data cell of the kernel's own is left below the address.
pub fn kernel_is_certified()
    ensures { IsValid kernel_program kernel_certificate }
{
    checks_are_exact();
}

/// The kernel's image does what its text says, both ways and within stated steps, on every input, up to each `GO` and behind each that comes
/// back, whatever the code that it called has made of data space and of the input: on the open machine, and on the chip where that code keeps
/// the places of the kernel's live cells. There the kernel has at most 25 data cells and 22 return cells, and no stack wraps.
pub fn kernel_agrees()
    ensures open { KernelAgrees }
    ensures chip { KernelAgreesOnChip }
    ensures tight { KernelKeepsTight }
{
    kernel_is_certified();
    library_means();
    programs_are_sources();
    certified_images_return();
    certified_chips_return();
}

/// In a small data space that has the kernel's texts, the definition REPLY prints ` ok` where no word failed, and keeps the user cells. Behind an
/// unknown word it prints that word and ` ?`, and behind one that lacks cells ` stack ?`, and no user cells are left.
pub fn kernel_replies()
    ensures { Replies kernel_program }
{}
