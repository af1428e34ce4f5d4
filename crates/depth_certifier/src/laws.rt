// What certificates say of runs, and how the least one is found.
ghost use Rattle.depth_certifier.specs.Soundness.{CertifiedRunsFit, CertifiedRunsFitBehindGo};
ghost use Rattle.depth_certifier.specs.Rounds.{RoundsEnd, RoundsFindTheLeast, RefusedHaveNone, OneRefusal, OneLeast};
ghost use Rattle.depth_certifier.specs.Checking.{ChecksAreExact};

use forth_program::only_go_leaves;

/// No run of a program with a valid certificate lacks cells or return entries, and each of its word steps takes at most as many
/// cells of both stacks as the effect of MAIN says, which the chip has.
pub fn certified_runs_fit()
    ensures { CertifiedRunsFit }
{}

/// So it is where each `GO` comes back behind it, with whatever data space and input.
pub fn certified_runs_fit_behind_go()
    ensures { CertifiedRunsFitBehindGo }
{
    only_go_leaves();
}

/// The rounds of each program settle or refuse. Where they settle is the least certificate, and there is one. Where they refuse
/// there is no certificate, and there is one refusal.
pub fn rounds_judge()
    ensures end { RoundsEnd }
    ensures least { RoundsFindTheLeast }
    ensures none { RefusedHaveNone }
    ensures one_refusal { OneRefusal }
    ensures one_least { OneLeast }
{}

/// The check of a certificate by one walk over each body is exact.
pub fn checks_are_exact()
    ensures { ChecksAreExact }
{}
