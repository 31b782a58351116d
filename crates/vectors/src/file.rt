// Files of cases, named by the arguments.
ghost use Rattle.std.specs.Prelude.{◌≤◌, length, IfSome};
ghost use Rattle.std.specs.Counts.{IsPrefixLen};

use crate::complaint::say;
use std::env::FillError;
use std::rt::{Env, Files};
use std::{fs, str};

// A file that is open for reading, with the length of its name, which is at the start of a buffer.
#[derive(Drop)]
pub struct Opened<F> {
    pub file: F,
    pub name: usize,
}

// The room for a file's name.
#[derive(Drop)]
pub struct Name;

impl Name {
    // The system opens no file with a longer name.
    pub const BYTES: usize = 4096;
}

// Whether the program has so many arguments.
pub fn has_argument<R: Env>(rt: &R, number: usize) -> bool {
    !matches!(rt.arg(number, &mut []), Err(FillError::NotPresent))
}

// Opens the file that the argument `number` names. Its name goes to the start of `path`. Where none is opened, standard error says why.
// The runtime, a stream and a number are passed one by one: they have unlike owners, and meet in this call alone.
pub fn open_argument<R: Env + Files, E: Print>(
    rt: &R,
    err: &E,
    number: usize,
    path: &mut [u8],
) -> Option<Opened<R::File>>
    ensures { IfSome result (λ opened. IsPrefixLen opened.name path.new) }
{
    match rt.arg(number, path) {
        Ok(name) => open_named(rt, err, path, name),
        Err(FillError::NotPresent) => {
            say(err, b"the file of cases", "no argument names it");
            None
        }
        Err(FillError::TooLong) => {
            say(err, b"the file of cases", "its name is too long");
            None
        }
    }
}

// Opens the file whose name has `name` bytes at the start of `path`.
fn open_named<R: Files, E: Print>(
    rt: &R,
    err: &E,
    path: &[u8],
    name: usize,
) -> Option<Opened<R::File>>
    requires { name ≤ length path.now }
    ensures { IfSome result (λ opened. IsPrefixLen opened.name path.now) }
{
    let Ok(text) = str::from_utf8(&path[..name]) else {
        say(err, &path[..name], "the name is not UTF-8");
        return None;
    };
    match fs::open(rt, text) {
        Ok(file) => Some(Opened { file, name }),
        Err(error) => {
            say(err, &path[..name], error);
            None
        }
    }
}
