//! Compiles and runs an assembly text of the first form: `exec F @all 0 TURNS`.
#![tactic(auto)]

use mn_outside::{Name, NoMemory, RealFiles, RealSink};
use run_top::aot_main;
use std::process::ExitCode;
use std::rt::Runtime;
use std::{env, io};

// The words after the program's name. Where one of them isn't text there are none.
fn words<R: Runtime + AllocGlobal>(rt: &R) -> Result<Vec<Name>, NoMemory> {
    let mut words = Vec::new(rt.alloc());
    let args = match env::args(rt) {
        Ok(args) => args,
        Err(error) => {
            if error.kind() == io::ErrorKind::OutOfMemory {
                return Err(NoMemory);
            }
            return Ok(words);
        }
    };
    for word in args.skip(1) {
        if words.push(Name::of(word)).is_err() {
            return Err(NoMemory);
        }
    }
    Ok(words)
}

fn main(rt: HostRuntime) -> ExitCode {
    let alloc = rt.alloc();
    match words(&rt) {
        Ok(words) => {
            let mut files = RealFiles::new(&rt);
            let mut out = RealSink::new(&rt);
            let outcome = aot_main(alloc, words.as_slice(), &mut files, &mut out);
            ExitCode::from(outcome.status)
        }
        Err(NoMemory) => ExitCode::from(10),
    }
}
