//! The program: replays a schedule or generates one over a cloud in memory; and over a folder runs a shell, settles, dumps and loads.
#![tactic(auto)]

mod seconds;

use cloud_trait::cloud::Bench;
use cloud_trait::fault::CloudFault;
use command_words::place::{Place, place_of};
use db_io::std_sink::StdSink;
use db_io::std_source::StdSource;
use folder_cloud::FolderCloud;
use memory_cloud::memory::MemoryCloud;
use schedule_run::arguments::arguments;
use schedule_run::run::run;
use schedule_run::status::Status;
use seconds::Seconds;
use std::io;
use std::process::ExitCode;

/// The exit status of a run whose folder could not be opened, or holds no store where one must stand.
const NO_FOLDER: u8 = 8;

fn main(rt: HostRuntime) -> ExitCode {
    let words = match arguments(&rt) {
        Ok(words) => words,
        Err(fault) => return ExitCode::from(Status::from(fault).code()),
    };
    ExitCode::from(match place_of(rt.alloc(), words.as_slice()) {
        Ok(place) => run_at(&rt, words.as_slice(), place),
        Err(fault) => Status::from(fault).code(),
    })
}

/// The exit status of a run of the words at their place.
fn run_at(rt: &HostRuntime, words: &[String], place: Place) -> u8 {
    let clock = Seconds::of(rt);
    match place {
        Place::InMemory => run_over(rt, words, &mut MemoryCloud::new(rt.alloc())),
        Place::Made { dir } => run_in(rt, words, FolderCloud::open(rt, dir.as_str(), clock)),
        Place::Standing { dir } => {
            run_in(
                rt,
                words,
                FolderCloud::open_standing(rt, dir.as_str(), clock),
            )
        }
        Place::MadeAtFirstCall { dir } => {
            run_in(
                rt,
                words,
                FolderCloud::open_at_first_call(rt, dir.as_str(), clock),
            )
        }
    }
}

/// The exit status of a run of the words over a folder, or of the fault that it was not opened for.
fn run_in<C: Bench + Drop>(
    rt: &HostRuntime,
    words: &[String],
    opened: Result<C, CloudFault>,
) -> u8 {
    match opened {
        Ok(mut cloud) => run_over(rt, words, &mut cloud),
        Err(CloudFault::Failed) => NO_FOLDER,
        Err(CloudFault::Memory) => Status::Memory.code(),
    }
}

/// The exit status of a run of the words over a cloud.
fn run_over<C: Bench>(rt: &HostRuntime, words: &[String], cloud: &mut C) -> u8 {
    let mut source = StdSource::new(rt.reader());
    let mut sink = StdSink::new(io::writer(rt));
    run(rt.alloc(), words, &mut source, &mut sink, cloud).code()
}
