//! `amdl`: the words of the command line, the real files and standard output, and the exit status.
#![tactic(auto)]

mod status;

use outside::{HostFiles, HostSink};
use status::status_of_call;
use std::env;
use std::process::ExitCode;

fn main(rt: HostRuntime) -> ExitCode {
    let mut files = HostFiles::new(&rt);
    let mut out = HostSink::new(&rt);
    ExitCode::from(status_of_call(rt.alloc(), env::args(&rt), &mut files, &mut out))
}
