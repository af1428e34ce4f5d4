// `forth`: the interactive Forth.
ghost use Rattle.std.specs.Prelude.{◌≡◌};
ghost use Rattle.j1_workbench.specs.Surroundings.{stream, surroundings, FolderState};
ghost use Rattle.j1_workbench.specs.Serving.{session_steps, session_status, Serves};

use crate::driving::status_of;
use crate::status::Status;
use j1_simulator::{End, Finish, runs_only_grow};
use outside_io::{Sink, Source};
use std::alloc::Global;
use target_forth::{SessionError, session};

/// How many instructions a session may make: so many, or 1,000,000,000 where no number is given.
#[tactic(auto, unfolding(crate::specs::Serving::session_steps))]
pub fn session_steps(steps: Option<u32>) -> u64
    ensures { result ≡ session_steps steps }
{
    match steps {
        None => 1_000_000_000,
        Some(steps) => u64::from(steps),
    }
}

// The status of a session. Where its input has ended it is done.
fn session_status(session: Result<Finish, SessionError>) -> Status
    ensures { result ≡ session_status session }
{
    match session {
        Ok(Finish::Ended(End::InputEnded)) => Status::Done,
        Ok(Finish::Ended(end)) => status_of(end),
        Ok(Finish::StepsUsed) => Status::StepsUsed,
        Err(SessionError::Read) => Status::ReadFault,
        Err(SessionError::Write) => Status::WriteFault,
        Err(SessionError::OutOfMemory) => Status::OutOfMemory,
    }
}

/// A session with the interactive Forth on the console and out, for at most `steps` instructions.
pub fn serve<C: Source, O: Sink>(alloc: Global, steps: u64, console: &mut C, out: &mut O) -> Status
    ensures { let console_before = stream (C.left console.old) (C.calls console.old) (C.faults console.old) in
        let console_after = stream (C.left console.new) (C.calls console.new) (C.faults console.new) in
        let out_before = stream (O.held out.old) (O.calls out.old) (O.faults out.old) in
        let out_after = stream (O.held out.new) (O.calls out.new) (O.faults out.new) in
        (folder : FolderState) → Serves steps (surroundings folder console_before out_before) (surroundings folder console_after out_after) result }
{
    runs_only_grow();
    session_status(session(alloc, steps, console, out))
}
