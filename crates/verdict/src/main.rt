// The program `verdict`: reads an image from standard input and writes the nine fields of its verdict to standard output.
#![tactic(auto)]

mod line;

use line::answer;

// The buffer for the input.
#[derive(Drop)]
struct Space;

impl Space {
    // The buffer is longer than the program's limit, so an input that fills it is too long whatever follows.
    const BYTES: usize = 65536;
}

fn main(rt: HostRuntime) {
    let mut space = [0u8; Space::BYTES];
    match answer(&mut rt.stdin(), &mut space) {
        Ok(text) => {
            let n = text.len;
            let line = text.bytes;
            // The line is written in one call.
            if let Err(error) = rt.write_all(&line[..n]) {
                let _ = eprintln!(rt; "standard output: {error}");
            }
        }
        // A read failed, so there is no verdict.
        Err(error) => {
            let _ = eprintln!(rt; "standard input: {error}");
        }
    }
}
