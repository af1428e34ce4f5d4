// What holds of each made source.
ghost use Rattle.made_sources.specs.Laws.{MadeSourcesAreRead, MadeProgramsAreCertified, MadeProgramsHaltWell};

use depth_certifier::rounds_judge;
use forth_reader::readings_are_splittings;

/// Each made source of at most 200 definitions is read: its program has a definition for each of its lines.
pub fn made_sources_are_read()
    ensures { MadeSourcesAreRead }
{
    readings_are_splittings();
}

/// The program of each has a stack certificate.
pub fn made_programs_are_certified()
    ensures { MadeProgramsAreCertified }
{
    rounds_judge();
}

/// Its run halts with 0 on every input, takes no input, and costs at most 10,000,000 instructions.
pub fn made_programs_halt_well()
    ensures { MadeProgramsHaltWell }
{}
