//! The program `xbsash`: the files of the current folder, the clock and the standard streams, handed to the service's shell.
//!
//! It takes no words. The files of a site are opened, and made where they aren't there, whatever the words say; the site is held
//! as long as the process runs. The process ends with the exit status of the shell, or with one of its own where the shell can't
//! begin. Where it can't begin or is cut short, a line on standard error says what was in its way.
#![tactic(auto)]

use host_disk::{StdSink, StdSource};
use host_folder::{StartFault, cut_of, moment_of, open_folder, open_site, start_status, words_of};
use site_disk::Era;
use site_model::exit_status;
use std::alloc::Global;
use std::fs::File;
use std::process::ExitCode;
use std::rt::{Clock, Env, Files};
use xbsa_shell::xbsa_shell;

fn run<R>(rt: &R, alloc: Global) -> Result<u8, StartFault>
where
    R: AllocGlobal + Clock + Env + Eprint + Files<File = File> + Input + Print,
{
    let words = words_of(rt)?;
    let mut era = Era::first();
    let folder = open_folder(rt)?;
    let mut site = open_site(rt, alloc, &era, &folder)?;
    let mut script = StdSource::new(rt);
    let mut out = StdSink::new(rt);
    let status = xbsa_shell(
        alloc,
        &words,
        &mut site.store,
        &mut era,
        &mut script,
        &mut out,
        moment_of(rt),
    );
    if let Some(cut) = cut_of(&status, site, script.last_error(), out.last_error()) {
        let _ = eprintln!(rt; "xbsash: {cut}");
    }
    Ok(exit_status(&status))
}

fn main(rt: HostRuntime) -> ExitCode {
    match run(&rt, rt.alloc()) {
        Ok(status) => ExitCode::from(status),
        Err(fault) => {
            let _ = eprintln!(rt; "xbsash: {fault}");
            ExitCode::from(start_status(&fault))
        }
    }
}
