// Stored replays: image, trace, given registers and entries as the body, lengths and answer as the tail.
ghost use Rattle.replay_spec.specs.Promise.{Written};
ghost use Rattle.vectors.specs.Parts.{first_in, second_in, third_in};
ghost use Rattle.vectors_calls.specs.Judge.{Replayed};

use limits::read::rest;
use replay::entry::replay_trace;
use vectors::call_answer::{Room, blank_numbers, blank_table, lent_at, same_answer};
use vectors::counters::{Counters, with_case};
use vectors::parts::{part_in, part_on};

// Makes the stored call.
#[tactic(auto, using(crate::proofs::Replayed::call_stored, limits::proofs::BranchTests::tests))]
fn replay_stored(body: &[u8], bytes: &[u8], table: &mut [u8], answer: &mut [usize]) -> u16
    ensures { Written (first_in bytes.now body.now) (second_in bytes.now body.now)
        (third_in bytes.now body.now) table.old answer.old result
        table.new answer.new }
{
    replay_trace(
        part_in(body, bytes, 0),
        part_in(body, bytes, 1),
        part_in(body, bytes, 2),
        table,
        answer,
    )
}

// The counters with one replay more, by its code, and whether it is the stored one.
// Counters and both parts of a case are passed one by one: a struct of them would be made and taken apart for each case.
#[tactic(auto, using(crate::proofs::Replayed::with_replay_branches))]
pub fn with_replay(counters: Counters, body: &[u8], bytes: &[u8]) -> Counters
    ensures { Replayed body.now bytes.now counters result }
{
    let mut table = blank_table();
    let mut numbers = blank_numbers();
    let n = lent_at(bytes, 12, Room::BYTES);
    let m = lent_at(bytes, 16, Room::NUMBERS);
    let code = replay_stored(body, bytes, &mut table[..n], &mut numbers[..m]);
    let same = same_answer(
        code,
        &table,
        &numbers,
        rest(bytes, 20),
        part_on(body, bytes, 3),
    );
    with_case(counters, usize::from(code), same)
}
