// Runs the formula reader over the cases of the file that the first argument names, and writes one line: how many readings there are of
// each kind, and how many differ from the stored ones. A fault of the file is reported on standard error, and then no line is written.
#![tactic(auto)]

mod answer;
mod judge;
mod line;

use judge::judge_all;
use line::Line;
use std::io::Read;
use vectors::complaint::passed;
use vectors::file::{Name, Opened, open_argument};

// Streams, name and file are passed one by one: they have unlike owners, and meet in this call alone.
fn judge_file<W: Print, E: Print, F: Read>(out: &W, err: &E, path: &[u8], file: &mut F) {
    if let Some(tally) = passed(err, path, judge_all(file)) {
        // Where standard output takes no more, there is nothing left to tell.
        let _ = out.println(Line { tally });
    }
}

fn main(rt: HostRuntime) {
    let err = rt.stderr();
    let mut path = [0u8; Name::BYTES];
    if let Some(Opened { mut file, name }) = open_argument(&rt, &err, 1, &mut path) {
        judge_file(&rt, &err, &path[..name], &mut file);
    }
}
