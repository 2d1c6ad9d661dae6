// The files that the arguments name, one after the other.
use super::said::fail;
use super::{Player, Stop};
use std::env::{Env, FillError};
use std::fs::{Files, OpenOptions};
use std::io;

// Bytes of a name, at most: more than a path may have.
const NAME: usize = 4096;

// The system's numbers for an argument that is not there, a name that is too long, and bytes that are no text.
const EINVAL: i32 = 22;

const ENAMETOOLONG: i32 = 36;

const EILSEQ: i32 = 84;

// Why an argument could not be copied, in the system's words.
fn why_not_copied(error: FillError) -> io::Error {
    match error {
        FillError::TooLong => io::Error::from_raw_os_error(ENAMETOOLONG),
        FillError::NotPresent => io::Error::from_raw_os_error(EINVAL),
    }
}

// A name that is no text is said by its bytes, as they are.
fn fail_of_name(rt: &HostRuntime, name: &[u8]) -> Stop {
    let _ = rt.stderr().write_all(name);
    fail(rt, "", io::Error::from_raw_os_error(EILSEQ))
}

// Whether the program was given so many arguments, its own name not counted.
fn has_argument(rt: &HostRuntime, i: usize) -> bool {
    !matches!(rt.arg(i, &mut []), Err(FillError::NotPresent))
}

impl Player {
    // Plays standard input.
    fn play_input(&mut self, rt: &HostRuntime) -> Result<(), Stop> {
        self.play_file(rt, &mut rt.stdin(), "standard input")
    }

    // Plays the file of a name; one that cannot be opened is named, and ends the run.
    fn play_named(&mut self, rt: &HostRuntime, name: &str) -> Result<(), Stop> {
        if name == "-" {
            return self.play_input(rt);
        }
        let mut file = rt
            .open_file(OpenOptions::new().read(true), name)
            .map_err(|error| fail(rt, name, error))?;
        self.play_file(rt, &mut file, name)
    }

    // Plays the file that an argument names.
    fn play_argument(&mut self, rt: &HostRuntime, i: usize) -> Result<(), Stop> {
        let mut name = [0u8; NAME];
        let n = rt
            .arg(i, &mut name)
            .map_err(|error| fail(rt, "argument", why_not_copied(error)))?;
        let name = &name[..n];
        match str::from_utf8(name) {
            Ok(text) => self.play_named(rt, text),
            Err(_) => Err(fail_of_name(rt, name)),
        }
    }

    // Plays the files that the arguments name, each after the end of the one before; with no argument, standard input. The system hands
    // arguments out by number, and a proved loop has to end: this one counts up to a number of arguments that no program has.
    pub(crate) fn play_arguments(&mut self, rt: &HostRuntime) -> Result<(), Stop> {
        if !has_argument(rt, 1) {
            return self.play_input(rt);
        }
        for i in 1..usize::MAX {
            if !has_argument(rt, i) {
                break;
            }
            self.play_argument(rt, i)?;
        }
        Ok(())
    }
}
