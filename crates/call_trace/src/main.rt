//! The program: replays a schedule over a cloud in memory, and writes behind each reply the service calls that its line made.
#![tactic(auto)]

mod command;
mod trace;

use command::form_of;
use db_io::std_sink::StdSink;
use db_io::std_source::StdSource;
use memory_cloud::memory::MemoryCloud;
use schedule_run::arguments::arguments;
use schedule_run::status::Status;
use std::io;
use std::process::ExitCode;
use trace::trace_replay;
use traced_cloud::noting::NotingCloud;

fn main(rt: HostRuntime) -> ExitCode {
    let words = match arguments(&rt) {
        Ok(words) => words,
        Err(fault) => return ExitCode::from(Status::from(fault).code()),
    };
    let Some(form) = form_of(words.as_slice()) else {
        return ExitCode::from(Status::BadWords.code());
    };
    let mut source = StdSource::new(rt.reader());
    let mut sink = StdSink::new(io::writer(&rt));
    let mut cloud = NotingCloud::over(rt.alloc(), MemoryCloud::new(rt.alloc()));
    ExitCode::from(trace_replay(rt.alloc(), form, &mut source, &mut sink, &mut cloud).code())
}
