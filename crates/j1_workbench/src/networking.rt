// `net`: the cores of a net file are run, and what each printed is written to out.
ghost use Rattle.std.specs.Prelude.{◌≡◌, ◌++◌, true, List, length, map, string_bytes, Some, MatchResult, IfOk};
ghost use Rattle.std.specs.List.{list_all};
ghost use Rattle.j1_table.specs.Image.{Content};
ghost use Rattle.net_file.specs.Net.{is_file_name, IsSound};
ghost use Rattle.j1_workbench.specs.Notes.{named};
ghost use Rattle.j1_workbench.specs.Statuses.{status_of};
ghost use Rattle.j1_workbench.specs.Surroundings.{Stream, folder, stream, surroundings, IsOnlyRead};
ghost use Rattle.j1_workbench.specs.Files.{IsRefusedFile};
ghost use Rattle.j1_workbench.specs.Networking.{IsBadNet, IsNetFile, CompileEach, core_named, RefusesCores, is_done, first_status, net_status, net_output, WritesThen, Nets};

use crate::answer::{Answer, Subject, answered};
use crate::compiling::compiled_source;
use crate::driving::status_of;
use crate::files::read_file;
use crate::source::MOST_SOURCE;
use crate::status::Status;
use core_array::Array;
use j1_simulator::End;
use j1_table::Image;
use net_file::{Net, NetError, core_lines, read_net, run_net};
use outside_io::{Failed, Folder, Sink};
use std::alloc::{AllocError, Global};

// The net in a file, or why the command ends before it begins.
#[tactic(auto, using(crate::proofs::NetCommand::net_unread, crate::proofs::NetCommand::net_bad, crate::proofs::NetCommand::net_read))]
fn net_in<F: Folder>(alloc: Global, file: &str, files: &mut F) -> Result<Net, Status>
    ensures read { let before = folder (F.files files.old) (F.calls files.old) (F.read_faults files.old) (F.write_faults files.old) (F.absences files.old) in
        let after = folder (F.files files.new) (F.calls files.new) (F.read_faults files.new) (F.write_faults files.new) (F.absences files.new) in
        IsOnlyRead 1 before after }
    ensures found { let before = folder (F.files files.old) (F.calls files.old) (F.read_faults files.old) (F.write_faults files.old) (F.absences files.old) in
        let after = folder (F.files files.new) (F.calls files.new) (F.read_faults files.new) (F.write_faults files.new) (F.absences files.new) in
        MatchResult result (λ net. IsNetFile file.now before net) (λ status. IsRefusedFile 65536 IsBadNet file.now before after status) }
{
    let text = match read_file(alloc, file, MOST_SOURCE, files) {
        Ok(text) => text,
        Err(status) => return Err(status),
    };
    match read_net(alloc, text.as_slice()) {
        Ok(net) => Ok(net),
        Err(NetError::BadLine(line)) => Err(Status::BadNet(line)),
        Err(NetError::OutOfMemory) => Err(Status::OutOfMemory),
    }
}

// An answer on the source of a core: its note names a file that is missing or too large.
fn core_refused(source: &str, answer: Answer) -> Answer
    requires { is_file_name source.now ≡ true }
    ensures status { result.status ≡ answer.status }
    ensures name { named result.name ≡ core_named source.now answer.status (named answer.name) }
{
    match answer.status {
        Status::Missing => Answer {
            status: Status::Missing,
            name: Subject::new(source),
        },
        Status::TooLarge => Answer {
            status: Status::TooLarge,
            name: Subject::new(source),
        },
        _ => answer,
    }
}

// Appends the images of source files, or tells why the first is refused that has none.
fn add_images<F: Folder>(
    alloc: Global,
    sources: &[String],
    files: &mut F,
    images: &mut Vec<Image>,
) -> Result<(), Answer>
    requires { list_all is_file_name (map string_bytes sources.now) ≡ true }
    ensures read { let before = folder (F.files files.old) (F.calls files.old) (F.read_faults files.old) (F.write_faults files.old) (F.absences files.old) in
        let after = folder (F.files files.new) (F.calls files.new) (F.read_faults files.new) (F.write_faults files.new) (F.absences files.new) in
        IsOnlyRead (length sources.now) before after }
    ensures found { let before = folder (F.files files.old) (F.calls files.old) (F.read_faults files.old) (F.write_faults files.old) (F.absences files.old) in
        let after = folder (F.files files.new) (F.calls files.new) (F.read_faults files.new) (F.write_faults files.new) (F.absences files.new) in
        MatchResult result
        (λ done. (more : List Content) × (images.new.items ≡ images.old.items ++ more) × CompileEach (map string_bytes sources.now) before more)
        (λ answer. RefusesCores 0 (map string_bytes sources.now) before after answer.status (named answer.name)) }
{
    match sources {
        [] => Ok(()),
        [source, rest @ ..] => {
            let image = match compiled_source(alloc, source.as_str(), files) {
                Ok(image) => image,
                Err(answer) => return Err(core_refused(source.as_str(), answer)),
            };
            if images.push(image).is_err() {
                return Err(answered(Status::OutOfMemory));
            }
            add_images(alloc, rest, files, images)
        }
    }
}

// The status of a core that may have ended.
fn end_status(end: Option<End>) -> Status
    ensures { result ≡ status_of end }
{
    match end {
        None => Status::StepsUsed,
        Some(end) => status_of(end),
    }
}

fn is_done(status: Status) -> bool
    ensures { result ≡ is_done status }
{
    match status {
        Status::Done => true,
        _ => false,
    }
}

// The status of the first core that has not ended as Halted(0).
fn first_status(array: &Array, cores: u8) -> Status
    requires { cores ≡ length array.now.cores }
    ensures { result ≡ first_status array.now.cores }
{
    for core in 0..cores {
        let status = end_status(array.end(core));
        if !is_done(status) {
            return status;
        }
    }
    Status::Done
}

// The lines of the cores of a net, and their status.
fn run_cores(alloc: Global, net: &Net, images: &[Image]) -> Result<(Vec<u8>, Status), AllocError>
    requires sound { IsSound net.now }
    requires images { length images.now ≡ length net.now.cores }
    ensures lines { IfOk result (λ ran. ran.0.items ≡ net_output net.now images.now) }
    ensures status { IfOk result (λ ran. ran.1 ≡ net_status net.now images.now) }
{
    let array = run_net(alloc, net, images)?;
    let cores = net.cores().len() as u8;
    let lines = core_lines(alloc, &array, cores)?;
    Ok((lines, first_status(&array, cores)))
}

// Writes the lines of the cores. The answer is their status.
fn write_lines<O: Sink>(lines: &[u8], ran: Status, out: &mut O) -> Status
    ensures { WritesThen (stream (O.held out.old) (O.calls out.old) (O.faults out.old)) (stream (O.held out.new) (O.calls out.new) (O.faults out.new)) lines.now ran result }
{
    match out.write(lines) {
        Ok(()) => ran,
        Err(Failed) => Status::WriteFault,
    }
}

/// Runs the cores of a net file on its schedule, and writes a line for each of them to out. The answer is the status of the first core
/// that has not ended as Halted(0).
pub fn net<F: Folder, O: Sink>(alloc: Global, file: &str, files: &mut F, out: &mut O) -> Answer
    ensures { (console : Stream) →
        let before = surroundings (folder (F.files files.old) (F.calls files.old) (F.read_faults files.old) (F.write_faults files.old) (F.absences files.old))
        console (stream (O.held out.old) (O.calls out.old) (O.faults out.old)) in
        let after = surroundings (folder (F.files files.new) (F.calls files.new) (F.read_faults files.new) (F.write_faults files.new) (F.absences files.new))
        console (stream (O.held out.new) (O.calls out.new) (O.faults out.new)) in
        Nets file.now before after result.status (named result.name) }
{
    let net = match net_in(alloc, file, files) {
        Ok(net) => net,
        Err(status) => return answered(status),
    };
    let mut images = Vec::new(alloc);
    match add_images(alloc, net.cores(), files, &mut images) {
        Ok(()) => {}
        Err(answer) => return answer,
    }
    match run_cores(alloc, &net, images.as_slice()) {
        Ok((lines, ran)) => answered(write_lines(lines.as_slice(), ran, out)),
        Err(AllocError) => answered(Status::OutOfMemory),
    }
}
