// Makes the calls of the files that the arguments name, and writes a line for each file: how many answers there are of each code, and how
// many differ from the stored ones. A fault of a file is reported on standard error, and then there is no line for it.
#![tactic(auto)]

mod bills;
mod handover_replays;
mod handovers;
mod judge;
mod kind;
mod replays;
mod trims;
mod verdicts;

use judge::judge_all;
use kind::kind_of;
use std::io::Read;
use std::rt::{Env, Files};
use vectors::complaint::{passed, say};
use vectors::file::{Name, Opened, has_argument, open_argument};

// Streams, name and file are passed one by one: they have unlike owners, and meet in this call alone.
fn judge_file<W: Print, E: Print, F: Read>(out: &W, err: &E, path: &[u8], file: &mut F) {
    if let Some(tally) = passed(err, path, judge_all(file, kind_of(path))) {
        say(out, path, tally);
    }
}

fn judge_argument<R: Env + Files + Print, E: Print>(rt: &R, err: &E, number: usize) {
    let mut path = [0u8; Name::BYTES];
    if let Some(Opened { mut file, name }) = open_argument(rt, err, number, &mut path) {
        judge_file(rt, err, &path[..name], &mut file);
    }
}

fn main(rt: HostRuntime) {
    let err = rt.stderr();
    // The first argument is asked for even where there is none, so that this is reported.
    judge_argument(&rt, &err, 1);
    for number in 2..usize::MAX {
        if !has_argument(&rt, number) {
            break;
        }
        judge_argument(&rt, &err, number);
    }
}
