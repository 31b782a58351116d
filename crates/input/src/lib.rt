// Reading into a buffer, with an input that ends told apart from a read that fails.
//
// A contract cannot speak of what an operating system call read: those here say how much of a buffer was filled and which of its bytes
// stay. What follows from a read's result is left to functions on numbers, which equal their definitions.
#![tactic(auto)]

ghost use Rattle.std.specs.Prelude.{◌≡◌, ◌+◌, ◌≤◌, length, take, IfOk};
ghost use Rattle.input.specs.Filled.{Fits};
ghost use Rattle.input.specs.Reached.{reached_by, Goes};

use std::io::{Error, Read};

// How a buffer was filled.
// No Option: `None` would have to mean a full buffer, which reads as if nothing was there.
#[derive(Clone, Copy)]
pub enum Filled {
    Full,
    // The input ended after this many bytes.
    Ended(usize),
}

// What a read behind `done` bytes has led to: the number of bytes that are there now, or none at the input's end. `room` bounds the sum.
#[tactic(auto, using(crate::proofs::ReadBranches::reached_by_branches))]
fn reached_by(read: Result<usize, Error>, done: usize, room: usize) -> Result<Option<usize>, Error>
    requires { IfOk read (λ more. done + more ≤ room) }
    ensures { result ≡ reached_by read done }
{
    let more = read?;
    if more == 0 {
        return Ok(None);
    }
    Ok(Some(done + more))
}

// Reads once, to the part of the buffer behind the first `done` bytes, which stay.
#[tactic(auto, using(crate::proofs::ReadBranches::goes, crate::proofs::ReadBranches::front_kept))]
fn read_behind<R: Read>(reader: &mut R, buf: &mut [u8], done: usize) -> Result<Option<usize>, Error>
    requires { done ≤ length buf.old }
    ensures kept { take done buf.new ≡ take done buf.old }
    ensures goes { Goes result done (length buf.new) }
{
    let read = reader.read(&mut buf[done..]);
    reached_by(read, done, buf.len())
}

// Reads until the buffer is full, the input ends or a read fails. A pipe may hand over its bytes in several reads.
// No `for`: each read says how far it came. No `read_exact` either: it does not say how many bytes came before the input's end.
#[tactic(auto, using(crate::proofs::ReadBranches::fill_branches))]
pub fn fill<R: Read>(reader: &mut R, buf: &mut [u8]) -> Result<Filled, Error>
    ensures { Fits result buf.new }
{
    let mut done = 0;
    while done < buf.len() {
        match read_behind(reader, buf, done)? {
            Some(end) => {
                done = end;
            }
            None => {
                return Ok(Filled::Ended(done));
            }
        }
    }
    Ok(Filled::Full)
}
