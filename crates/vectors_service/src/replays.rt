// Turns whose body has several parts: a handover, a replay, a replay across a handover.
ghost use Rattle.service_spec.specs.Promise.{HandoverServed, ReplayServed, AcrossServed};
ghost use Rattle.vectors.specs.Parts.{first_in, second_in, third_in, fourth_in, fifth_in, sixth_on};
ghost use Rattle.vectors.specs.Turn.{caller_at, lengths_at};
ghost use Rattle.vectors_service.specs.Judge.{HandedOver, Replayed, ReplayedAcross};

use service::entry::{serve_handover, serve_replay, serve_replay_handover};
use vectors::counters::{Counters, with_case};
use vectors::parts::{part_in, part_on};
use vectors::turn::{TurnKind, bytes_at, caller_at, lengths_at, numbers_at};
use vectors::turn_room::{blank_bytes, blank_wide};
use vectors::turn_same::{same_replay, same_service};

// Makes the stored call for a handover.
// What a turn is given is passed one by one: a struct of it would be made and taken apart for each turn.
#[tactic(auto, using(crate::proofs::FileCounted::handover_called, limits::proofs::BranchTests::tests))]
fn handover_stored(service: &[u32], body: &[u8], bytes: &[u8]) -> u16
    ensures { HandoverServed service.now (caller_at bytes.now)
        (first_in (lengths_at bytes.now) body.now)
        (second_in (lengths_at bytes.now) body.now) (third_in (lengths_at bytes.now) body.now) result }
{
    let n = lengths_at(bytes);
    serve_handover(
        service,
        caller_at(bytes),
        part_in(body, n, 0),
        part_in(body, n, 1),
        part_in(body, n, 2),
    )
}

// The counters with one handover more, and whether it leaves what is stored.
#[tactic(auto, using(crate::proofs::FileCounted::handover_counted, limits::proofs::BranchTests::tests))]
pub fn with_handover(counters: Counters, service: &[u32], body: &[u8], bytes: &[u8]) -> Counters
    ensures { HandedOver service.now body.now bytes.now counters result }
{
    let code = handover_stored(service, body, bytes);
    let same = same_service(code, service, bytes);
    with_case(counters, usize::from(TurnKind::Handover), same)
}

// Makes the stored call for a replay.
#[tactic(auto, using(crate::proofs::FileCounted::replay_called, limits::proofs::BranchTests::tests))]
fn replay_stored(
    service: &[u32],
    body: &[u8],
    bytes: &[u8],
    table: &mut [u8],
    answer: &mut [usize],
) -> u16
    ensures { ReplayServed service.now (caller_at bytes.now)
        (first_in (lengths_at bytes.now) body.now)
        (second_in (lengths_at bytes.now) body.now) (third_in (lengths_at bytes.now) body.now)
        table.old answer.old result table.new answer.new }
{
    let n = lengths_at(bytes);
    serve_replay(
        service,
        caller_at(bytes),
        part_in(body, n, 0),
        part_in(body, n, 1),
        part_in(body, n, 2),
        table,
        answer,
    )
}

// The counters with one replay more, and whether it leaves what is stored.
#[tactic(auto, using(crate::proofs::FileCounted::lending, crate::proofs::FileCounted::replay_counted, limits::proofs::BranchTests::tests))]
pub fn with_replay(counters: Counters, service: &[u32], body: &[u8], bytes: &[u8]) -> Counters
    ensures { Replayed service.now body.now bytes.now counters result }
{
    let mut table = blank_bytes();
    let mut room = blank_wide();
    let n = bytes_at(bytes);
    let m = numbers_at(bytes);
    let code = replay_stored(service, body, bytes, &mut table[..n], &mut room[..m]);
    let same = same_replay(code, service, &table, &room, bytes);
    with_case(counters, usize::from(TurnKind::Replay), same)
}

// Makes the stored call for a replay across a handover.
#[tactic(auto, using(crate::proofs::FileCounted::across_called, limits::proofs::BranchTests::tests))]
fn across_stored(
    service: &[u32],
    body: &[u8],
    bytes: &[u8],
    table: &mut [u8],
    answer: &mut [usize],
) -> u16
    ensures { AcrossServed service.now (caller_at bytes.now)
        (first_in (lengths_at bytes.now) body.now)
        (second_in (lengths_at bytes.now) body.now) (third_in (lengths_at bytes.now) body.now)
        (fourth_in (lengths_at bytes.now) body.now) (fifth_in (lengths_at bytes.now) body.now)
        (sixth_on (lengths_at bytes.now) body.now)
        table.old answer.old result table.new answer.new }
{
    let n = lengths_at(bytes);
    serve_replay_handover(
        service,
        caller_at(bytes),
        part_in(body, n, 0),
        part_in(body, n, 1),
        part_in(body, n, 2),
        part_in(body, n, 3),
        part_in(body, n, 4),
        part_on(body, n, 5),
        table,
        answer,
    )
}

// The counters with one replay across a handover more, and whether it leaves what is stored.
// It stays apart from `with_replay`: one function for both would take either call as a closure, with its promise as a clause.
#[tactic(auto, using(crate::proofs::FileCounted::lending, crate::proofs::FileCounted::across_counted, limits::proofs::BranchTests::tests))]
pub fn with_across(counters: Counters, service: &[u32], body: &[u8], bytes: &[u8]) -> Counters
    ensures { ReplayedAcross service.now body.now bytes.now counters result }
{
    let mut table = blank_bytes();
    let mut room = blank_wide();
    let n = bytes_at(bytes);
    let m = numbers_at(bytes);
    let code = across_stored(service, body, bytes, &mut table[..n], &mut room[..m]);
    let same = same_replay(code, service, &table, &room, bytes);
    with_case(counters, usize::from(TurnKind::ReplayAcross), same)
}
