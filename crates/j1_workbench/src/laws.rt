// What holds of the programs that are compiled.
ghost use Rattle.j1_workbench.specs.Completeness.{AnswersAreComplete};
ghost use Rattle.j1_workbench.specs.Headline.{TextsAreBuilt, CertifiedTextsAgree};

use chip_laws::{certified_chips_agree, certified_chips_keep_tight};
use code_layout::last_calls_are_jumps;
use control_flow::{programs_are_sources, texts_are_judged};
use depth_certifier::rounds_judge;
use forth_library::{library_means, sources_are_built};
use image_file::{bytes_have_one_first_bad, files_are_images, refused_is_no_file};
use j1_assembler::{assembles_by_grammar, refuses_first_bad};
use net_file::{refuses_first_bad_line, tells_net};

/// The program of each text can be laid out.
pub fn texts_are_built()
    ensures { TextsAreBuilt }
{
    programs_are_sources();
    sources_are_built();
}

/// The program of each text that has a certificate does on the chip what its source means, on every input.
pub fn certified_texts_agree()
    ensures { CertifiedTextsAgree }
{
    texts_are_built();
    programs_are_sources();
    library_means();
    certified_chips_agree();
    certified_chips_keep_tight();
    last_calls_are_jumps();
}

/// Each file has its one answer, want of memory aside: where the folder tells it, and no read and no write failed, `run` and `exec`
/// answer by the run of the image, `build`, `list`, `asm` and `certify` answer Done, `net` answers by the run of its cores, or the call gives the one refusal that the
/// file has.
pub fn answers_are_complete()
    ensures { AnswersAreComplete }
{
    texts_are_judged();
    programs_are_sources();
    rounds_judge();
    files_are_images();
    refused_is_no_file();
    bytes_have_one_first_bad();
    assembles_by_grammar();
    refuses_first_bad();
    tells_net();
    refuses_first_bad_line();
}
