// The turns of a file, each on the service that the one before has left. The body of a case has what the call reads, the tail all else.
ghost use Rattle.std.specs.Prelude.{◌≡◌, IfOk, IfErr};
ghost use Rattle.service_spec.specs.Promise.{BillServed};
ghost use Rattle.vectors.specs.CasesCounted.{FromCases};
ghost use Rattle.vectors.specs.Turn.{caller_at, tariff_at};
ghost use Rattle.vectors_service.specs.Judge.{number_set, Opened, Changed, Checked, Trimmed, Billed, Counted};

use crate::replays::{with_across, with_handover, with_replay};
use limits::Limits;
use service::entry::{serve_bill, serve_check, serve_trim};
use service::open::open_service;
use service_spec::rights::Service;
use std::io::Read;
use vectors::case::read_case;
use vectors::counters::{Counters, Most, no_case, with_case};
use vectors::end::{Fault, Stop};
use vectors::space::space_for_body;
use vectors::turn::{
    Stored, TurnKind, UnknownTurn, bytes_at, caller_at, numbers_at, service_at, set_at, tariff_at,
    turn_kind_at,
};
use vectors::turn_room::{blank_bytes, blank_numbers};
use vectors::turn_same::{same_bill, same_service, same_trimmed, same_verdict};

// Sets the number of a caller, as the host of a service may.
#[tactic(auto, using(limits::proofs::BranchTests::tests), unfolding(crate::specs::Judge::number_set))]
fn set_number(service: &mut [u32], caller: usize, number: u32)
    ensures { service.new ≡ number_set service.old caller number }
{
    if Service::CALLERS < caller {
        return;
    }
    let at = Service::BILLED + caller;
    if service.len() <= at {
        return;
    }
    service[at] = number;
}

// The counters with one opening more, and whether it leaves what is stored.
// What a turn is given is passed one by one: a struct of it would be made and taken apart for each turn.
#[tactic(auto, using(crate::proofs::FileCounted::opened_counted, limits::proofs::BranchTests::tests))]
fn with_opened(counters: Counters, service: &mut [u32], rights: &[u8], bytes: &[u8]) -> Counters
    ensures { Opened service.old rights.now bytes.now counters service.new result }
{
    let code = open_service(rights, service);
    let same = same_service(code, service, bytes);
    with_case(counters, usize::from(TurnKind::Open), same)
}

// The counters with one number set by the host more, and whether that leaves what is stored.
#[tactic(auto, using(crate::proofs::FileCounted::changed_counted, limits::proofs::BranchTests::tests))]
fn with_set(counters: Counters, service: &mut [u32], bytes: &[u8]) -> Counters
    ensures { Changed service.old bytes.now counters service.new result }
{
    set_number(service, caller_at(bytes), set_at(bytes));
    let same = same_service(0, service, bytes);
    with_case(counters, usize::from(TurnKind::Set), same)
}

// The counters with one check more, and whether it leaves what is stored.
#[tactic(auto, using(crate::proofs::FileCounted::lending, crate::proofs::FileCounted::checked_counted, limits::proofs::BranchTests::tests))]
fn with_checked(counters: Counters, service: &[u32], image: &[u8], bytes: &[u8]) -> Counters
    ensures { Checked service.now image.now bytes.now counters result }
{
    let mut room = blank_bytes();
    let n = bytes_at(bytes);
    let code = serve_check(service, caller_at(bytes), image, &mut room[..n]);
    let same = same_verdict(code, service, &room, bytes);
    with_case(counters, usize::from(TurnKind::Check), same)
}

// The counters with one trimming more, and whether it leaves what is stored.
#[tactic(auto, using(crate::proofs::FileCounted::lending, crate::proofs::FileCounted::trimmed_counted, limits::proofs::BranchTests::tests))]
fn with_trimmed(counters: Counters, service: &[u32], image: &[u8], bytes: &[u8]) -> Counters
    ensures { Trimmed service.now image.now bytes.now counters result }
{
    let mut room = blank_bytes();
    let n = bytes_at(bytes);
    // No image has this length, so that a `written` which the call leaves as it was differs.
    let mut written = Limits::IMAGE_BYTES + 1;
    let code = serve_trim(
        service,
        caller_at(bytes),
        image,
        &mut room[..n],
        &mut written,
    );
    let same = same_trimmed(code, service, written, &room, bytes);
    with_case(counters, usize::from(TurnKind::Trim), same)
}

// Makes the stored call for a bill.
fn bill_stored(service: &mut [u32], image: &[u8], bytes: &[u8], answer: &mut [u32]) -> u16
    ensures { BillServed service.old (caller_at bytes.now) image.now (tariff_at bytes.now)
        answer.old service.new result answer.new }
{
    let f = tariff_at(bytes);
    let caller = caller_at(bytes);
    serve_bill(
        service,
        caller,
        image,
        f.start,
        f.step,
        f.taken,
        f.interference,
        f.least,
        answer,
    )
}

// The counters with one bill more, and whether it leaves what is stored.
#[tactic(auto, using(crate::proofs::FileCounted::lending, crate::proofs::FileCounted::billed_counted, limits::proofs::BranchTests::tests))]
fn with_billed(counters: Counters, service: &mut [u32], image: &[u8], bytes: &[u8]) -> Counters
    ensures { Billed service.old image.now bytes.now counters service.new result }
{
    let mut room = blank_numbers();
    let n = numbers_at(bytes);
    let code = bill_stored(service, image, bytes, &mut room[..n]);
    let same = same_bill(code, service, &room, bytes);
    with_case(counters, usize::from(TurnKind::Bill), same)
}

// The counters with one turn more, by what is done, and whether it leaves what is stored.
#[tactic(auto, using(crate::proofs::FileCounted::with_turn_branches))]
fn with_turn(counters: Counters, service: &mut [u32], body: &[u8], bytes: &[u8]) -> Counters
    ensures { Counted service.old body.now bytes.now counters service.new result }
{
    match turn_kind_at(bytes) {
        Ok(TurnKind::Open) => with_opened(counters, service, body, bytes),
        Ok(TurnKind::Set) => with_set(counters, service, bytes),
        Ok(TurnKind::Check) => with_checked(counters, service, body, bytes),
        Ok(TurnKind::Trim) => with_trimmed(counters, service, body, bytes),
        Ok(TurnKind::Bill) => with_billed(counters, service, body, bytes),
        Ok(TurnKind::Handover) => with_handover(counters, service, body, bytes),
        Ok(TurnKind::Replay) => with_replay(counters, service, body, bytes),
        Ok(TurnKind::ReplayAcross) => with_across(counters, service, body, bytes),
        Err(_) => with_case(counters, UnknownTurn::NUMBER, false),
    }
}

// Judges the turns of a file, each with the front of the service that it passes; before the first one no caller has a right.
pub fn judge_all<R: Read>(reader: &mut R) -> Result<Counters, Stop>
    ensures judged { IfOk result FromCases }
    ensures stopped { IfErr result (λ stop. FromCases stop.tally) }
{
    let mut space = space_for_body();
    let mut stored = [0u8; Stored::BYTES];
    let mut service = [0u32; Service::NUMBERS];
    let mut tally = no_case();
    // One case more than is judged shows that there are too many.
    for _ in 0..=Most::CASES {
        match read_case(reader, &mut space, &mut stored) {
            Ok(Some(n)) => {
                let lent = service_at(&stored);
                tally = with_turn(tally, &mut service[..lent], &space[..n], &stored);
            }
            Ok(None) => return Ok(tally),
            Err(fault) => return Err(Stop { fault, tally }),
        }
    }
    Err(Stop {
        fault: Fault::Many,
        tally,
    })
}
