// What an array keeps under every schedule.
ghost use Rattle.core_array.specs.Laws.{AnySchedules, KeepsMailboxes, RunsCompose};

/// For any two schedules, what was sent by each link under one begins what was sent under the other, or the other way round.
/// The same holds for what each core printed.
pub fn schedules_agree()
    ensures { AnySchedules }
{}

/// Under every schedule, what was sent by a link is what was taken from it and then what waits in its mailbox, which is at most
/// 64 cells.
pub fn mailboxes_hold()
    ensures { KeepsMailboxes }
{}

/// One schedule after another is one long schedule, so what is said of one call of `run` holds for many.
pub fn runs_compose()
    ensures { RunsCompose }
{}
