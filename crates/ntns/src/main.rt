//! The program `ntns`: it reads its arguments for a task, does it over the standard streams or the file
//! that the arguments name, and ends with the status of how that ended.
#![tactic(auto)]

use ob_shell::{refuse, serve, starve, unreadable};
use std::io::{BufReader, ErrorKind};
use std::process::ExitCode;
use std::{env, fs};

fn main(rt: HostRuntime) -> ExitCode {
    let alloc = rt.alloc();
    let mut writer = rt.stdout();
    let mut errors = rt.stderr();
    let Ok(mut reader) = BufReader::new(alloc, rt.stdin()) else {
        let (end, _told) = starve(&mut errors);
        return ExitCode::from(end.status());
    };
    let (end, _told) = match env::args(&rt) {
        Ok(arguments) => match arguments.collect::<Vec<String>>(alloc) {
            Ok(arguments) => serve(
                &rt,
                alloc,
                arguments.as_slice(),
                |path| fs::open(&rt, path),
                &mut reader,
                &mut writer,
                &mut errors,
            ),
            Err(_) => starve(&mut errors),
        },
        Err(fault) if fault.kind() == ErrorKind::OutOfMemory => starve(&mut errors),
        Err(_) => refuse(alloc, &unreadable(alloc), &mut writer, &mut errors),
    };
    ExitCode::from(end.status())
}
