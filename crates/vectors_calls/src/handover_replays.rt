// Stored replays across a handover: images, handover table, traces, given registers and entries as the body, lengths and answer as the
// tail.
ghost use Rattle.handover_replay.specs.Promise.{Written};
ghost use Rattle.vectors.specs.Parts.{first_in, second_in, third_in, fourth_in, fifth_in, sixth_in};
ghost use Rattle.vectors_calls.specs.Judge.{ReplayedAcross};

use handover_replay::entry::replay_handover;
use limits::read::rest;
use vectors::call_answer::{Room, blank_numbers, blank_table, lent_at, same_answer};
use vectors::counters::{Counters, with_case};
use vectors::parts::{part_in, part_on};

// Makes the stored call.
#[tactic(auto, using(crate::proofs::ReplayedAcross::call_stored, limits::proofs::BranchTests::tests))]
fn across_stored(body: &[u8], bytes: &[u8], table: &mut [u8], answer: &mut [usize]) -> u16
    ensures { Written (first_in bytes.now body.now) (second_in bytes.now body.now)
        (third_in bytes.now body.now) (fourth_in bytes.now body.now)
        (fifth_in bytes.now body.now) (sixth_in bytes.now body.now)
        table.old answer.old result table.new answer.new }
{
    replay_handover(
        part_in(body, bytes, 0),
        part_in(body, bytes, 1),
        part_in(body, bytes, 2),
        part_in(body, bytes, 3),
        part_in(body, bytes, 4),
        part_in(body, bytes, 5),
        table,
        answer,
    )
}

// The counters with one replay more, by its code, and whether it is the stored one.
// It stays apart from `with_replay`: one function for both would take either call as a closure, with its promise as a clause.
// Counters and both parts of a case are passed one by one: a struct of them would be made and taken apart for each case.
#[tactic(auto, using(crate::proofs::ReplayedAcross::with_across_branches))]
pub fn with_across(counters: Counters, body: &[u8], bytes: &[u8]) -> Counters
    ensures { ReplayedAcross body.now bytes.now counters result }
{
    let mut table = blank_table();
    let mut numbers = blank_numbers();
    let n = lent_at(bytes, 24, Room::BYTES);
    let m = lent_at(bytes, 28, Room::NUMBERS);
    let code = across_stored(body, bytes, &mut table[..n], &mut numbers[..m]);
    let same = same_answer(
        code,
        &table,
        &numbers,
        rest(bytes, 32),
        part_on(body, bytes, 6),
    );
    with_case(counters, usize::from(code), same)
}
