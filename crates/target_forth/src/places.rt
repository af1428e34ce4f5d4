// Where the kernel keeps what it works on.
ghost use Rattle.std.specs.Prelude.{◌≡◌};
ghost use Rattle.kernel_words.specs.Bodies.{IsKernel};
ghost use Rattle.kernel_words.specs.Laws.{CellsAreLaid, HeadersAreMade, ListIsLonger, NamesAreFound, NumbersAreRead, WordsAreKept};
ghost use Rattle.target_forth.specs.Kernel.{kernel_program};
ghost use Rattle.target_forth.specs.Places.{places_of_kernel, StandApart, HasNames};

use control_flow::texts_end_in_sources;
use kernel_words::kernel_words_keep_their_laws;

/// Byte addresses in the kernel's data space: of the line that was typed last, a buffer of 80 bytes; of the word read last as a counted string, a
/// buffer of 82 bytes; and of one cell each, the number of bytes of the source, the place reached in it, and the newest header.
#[derive(Clone, Copy, Debug, PartialEq, Eq)]
pub struct KernelPlaces {
    pub line: u16,
    pub length: u16,
    pub to_in: u16,
    pub latest: u16,
    pub word: u16,
}

/// Where the kernel keeps its line, its word and its headers. Over these places its definitions `K-WORD`, `K-NUMBER`, `K-FIND`, `K-CELL` and
/// `K-HEADER` do what the laws of `kernel_words` say of each program that has them, as that of the kernel's text has. The places lie below the
/// first HERE, from which on typed definitions lie.
pub fn kernel_places() -> KernelPlaces
    ensures places { result ≡ places_of_kernel }
    ensures apart { StandApart result }
    ensures names { HasNames kernel_program }
    ensures kernel { IsKernel kernel_program }
    // The word of the line, its number, the header of its name, a cell more, and a header more, with the list of headers behind it.
    ensures word { WordsAreKept }
    ensures number { NumbersAreRead }
    ensures find { NamesAreFound }
    ensures cell { CellsAreLaid }
    ensures header { HeadersAreMade }
    ensures list { ListIsLonger }
{
    texts_end_in_sources();
    kernel_words_keep_their_laws();
    KernelPlaces {
        line: 8320,
        length: 8400,
        to_in: 8402,
        latest: 8404,
        word: 8406,
    }
}
