// What the chip does on the image of a certified program.
ghost use Rattle.chip_laws.specs.Certified.{CertifiedChipsAgree, CertifiedChipsKeepTight};
ghost use Rattle.chip_laws.specs.Returning.{CertifiedImagesReturn, CertifiedChipsReturn, CertifiedChipsReturnTight};

use code_layout::{chips_agree, chips_return, images_return};
use depth_certifier::{certified_runs_fit, certified_runs_fit_behind_go};
use forth_program::sources_stay;

/// On the chip a built program without `GO` and with a valid certificate prints what its source means, both ways and within stated steps, ends
/// alike, and wraps no stack.
pub fn certified_chips_agree()
    ensures { CertifiedChipsAgree }
{
    chips_agree();
    certified_runs_fit();
    sources_stay();
}

/// Along the run the data counter is at most the greater of the peak of MAIN and, where MAIN has an exit, its high end plus 2, and
/// the return counter at most the back of MAIN plus 1.
pub fn certified_chips_keep_tight()
    ensures { CertifiedChipsKeepTight }
{
    chips_agree();
    certified_runs_fit();
    sources_stay();
}

/// A built program with `GO` and with a valid certificate does on the open machine what its source means, both ways and within stated
/// steps, also behind each `GO` that comes back, whatever the code that it called has made of data space and of the input.
pub fn certified_images_return()
    ensures { CertifiedImagesReturn }
{
    images_return();
    certified_runs_fit_behind_go();
}

/// On the chip too, where that code keeps the places of the live cells: their rings hold what the stacks without end hold, and neither
/// wraps. Along the run the counters are within what the certificate says of MAIN.
pub fn certified_chips_return()
    ensures agree { CertifiedChipsReturn }
    ensures tight { CertifiedChipsReturnTight }
{
    chips_return();
    certified_runs_fit();
    certified_runs_fit_behind_go();
}
