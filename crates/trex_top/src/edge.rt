// The program's edge: the words and the streams of a process around the top call, and its exit status.

ghost use Rattle.std.specs.Prelude.{◌≡◌};
ghost use Rattle.std.specs.Process.{exit_status};
ghost use Rattle.trex_top.specs.Exit.{IsExitNumber, exit_number};

use crate::command::trex_main;
use crate::saying::tell;
use crate::status::Status;
use std::env;
use std::io::{BufReader, ErrorKind, Read, Write};
use std::process::ExitCode;
use std::rt::Env;
use std::thread::Threads;
use trex_crew::Open;
use trex_io::{Sink, StdSink, StdSource, write_all};
use trex_report::Line;

/// The most threads that the cores of a run work in.
const WORKERS: usize = 8;

/// How many bytes of standard input are read at once.
const READ_AHEAD: usize = 65_536;

/// The exit status of the program.
fn ended(status: Status) -> ExitCode
    ensures { exit_status result ≡ exit_number status }
{
    ExitCode::from(status as u8)
}

/// The end where memory runs out before the command is known.
fn out_of_memory<N: Sink>(notes: &mut N) -> ExitCode
    ensures { exit_status result ≡ exit_number Status.Memory }
{
    tell(notes, Line::OutOfMemory);
    ended(Status::Memory)
}

/// Runs the program on the process's command words and on these streams. The word before them, the program's name, is passed over.
pub fn run_program<
    R: Env + AllocGlobal + Threads + Sync,
    I: Read + Drop,
    O: Write + Drop,
    E: Write + Drop,
>(rt: &R, stdin: I, stdout: O, stderr: E) -> ExitCode
    ensures { IsExitNumber (exit_status result) }
{
    let mut notes = StdSink::new(stderr);
    let mut words = Vec::new(rt.alloc());
    match env::args(rt) {
        Ok(all) => {
            for word in all.skip(1) {
                if words.push(word).is_err() {
                    return out_of_memory(&mut notes);
                }
            }
        }
        Err(e) => {
            if e.kind() == ErrorKind::OutOfMemory {
                return out_of_memory(&mut notes);
            }
            let _ = write_all(&mut notes, b"usage: NotText\n");
            return ended(Status::Usage);
        }
    }
    let Ok(stdin) = BufReader::with_capacity(rt.alloc(), READ_AHEAD, stdin) else {
        return out_of_memory(&mut notes);
    };
    let mut input = StdSource::new(stdin);
    let mut out = StdSink::new(stdout);
    let mut gates = [Open; WORKERS];
    let status = trex_main(
        rt,
        rt.alloc(),
        &words,
        &mut input,
        &mut out,
        &mut notes,
        &mut gates,
    );
    ended(status)
}
