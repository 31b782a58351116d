// The entry points, for C and Rust. Each returns 35 for a caller that is not 1 to 8 and 36 for one without the right, before every other
// check; then the service and every buffer stay, and the rest of the answer is 0.
ghost use Rattle.bill_spec.specs.Output.{tariff_of};
ghost use Rattle.service_spec.specs.Promise.{CheckServed, TrimServed, BillServed, HandoverServed, ReplayServed, AcrossServed};

use crate::caller_bill::bill_caller;
use crate::refused::{clear_bill, clear_replay};
use bill_spec::tariff::Tariff;
use checker::entry::check_image;
use handover::entry::check_handover;
use handover_replay::entry::replay_handover;
use replay::entry::replay_trace;
use service_spec::rights::{Right, admitted};
use trim::entry::trim_image;

// Calls `check_image` for a caller with the right to check.
// The parameters of the functions here are those of the C interface, `include/hidokpalu.h`.
#[tactic(auto, using(service_spec::proofs::ReplyBranches::entry_serving, limits::proofs::BranchTests::tests))]
#[unsafe(no_mangle)]
pub extern "C" fn serve_check<'a, 'b, 'c>(
    service: &'a [u32],
    caller: usize,
    image: &'b [u8],
    out: &'c mut [u8],
) -> u16
    ensures { CheckServed service.now caller image.now out.old result out.new }
{
    match admitted(service, caller, Right::Check) {
        Ok(()) => check_image(image, out),
        Err(denied) => denied.code(),
    }
}

// Calls `trim_image` for a caller with the right to check; `written` is 0 if the caller is refused.
#[tactic(auto, using(service_spec::proofs::ReplyBranches::entry_serving, limits::proofs::BranchTests::tests))]
#[unsafe(no_mangle)]
pub extern "C" fn serve_trim<'a, 'b, 'c, 'd>(
    service: &'a [u32],
    caller: usize,
    image: &'b [u8],
    out: &'c mut [u8],
    written: &'d mut usize,
) -> u16
    ensures { TrimServed service.now caller image.now out.old result written.new
        out.new }
{
    match admitted(service, caller, Right::Check) {
        Ok(()) => trim_image(image, out, written),
        Err(denied) => {
            *written = 0;
            denied.code()
        }
    }
}

// Calls `check_handover` for a caller with the right to check.
#[tactic(auto, using(service_spec::proofs::ReplyBranches::entry_serving, limits::proofs::BranchTests::tests))]
#[unsafe(no_mangle)]
pub extern "C" fn serve_handover<'a, 'b, 'c, 'd>(
    service: &'a [u32],
    caller: usize,
    old: &'b [u8],
    new: &'c [u8],
    table: &'d [u8],
) -> u16
    ensures { HandoverServed service.now caller old.now new.now table.now result }
{
    match admitted(service, caller, Right::Check) {
        Ok(()) => check_handover(old, new, table),
        Err(denied) => denied.code(),
    }
}

// Bills an image for a caller with the right to bill, by the caller's own number: 31 if that is at its end. A bill without an error raises
// it by one, and nothing else in the service changes.
#[tactic(auto, using(service_spec::proofs::ReplyBranches::bill_refused, limits::proofs::BranchTests::tests))]
#[unsafe(no_mangle)]
pub extern "C" fn serve_bill<'a, 'b, 'c>(
    service: &'a mut [u32],
    caller: usize,
    image: &'b [u8],
    start: u16,
    step: u16,
    taken: u16,
    interference: u16,
    least: u16,
    answer: &'c mut [u32],
) -> u16
    ensures { BillServed service.old caller image.now (tariff_of start step taken interference least)
        answer.old service.new result answer.new }
{
    match admitted(service, caller, Right::Bill) {
        Ok(()) => {
            let tariff = Tariff {
                start,
                step,
                taken,
                interference,
                least,
            };
            bill_caller(service, caller, image, tariff, answer)
        }
        Err(denied) => {
            clear_bill(answer);
            denied.code()
        }
    }
}

// Calls `replay_trace` for a caller with the right to replay; the numbers in `answer` are 0 if the caller is refused.
#[tactic(auto, using(service_spec::proofs::ReplyBranches::entry_replaying, limits::proofs::BranchTests::tests))]
#[unsafe(no_mangle)]
pub extern "C" fn serve_replay<'a, 'b, 'c, 'd, 'e, 'f>(
    service: &'a [u32],
    caller: usize,
    image: &'b [u8],
    trace: &'c [u8],
    given: &'d [u8],
    table: &'e mut [u8],
    answer: &'f mut [usize],
) -> u16
    ensures { ReplayServed service.now caller image.now trace.now given.now
        table.old answer.old result table.new answer.new }
{
    match admitted(service, caller, Right::Replay) {
        Ok(()) => replay_trace(image, trace, given, table, answer),
        Err(denied) => {
            clear_replay(answer);
            denied.code()
        }
    }
}

// Calls `replay_handover` for a caller with the right to replay; the numbers in `answer` are 0 if the caller is refused.
#[tactic(auto, using(service_spec::proofs::ReplyBranches::entry_replaying, limits::proofs::BranchTests::tests))]
#[unsafe(no_mangle)]
pub extern "C" fn serve_replay_handover<'a, 'b, 'c, 'd, 'e, 'f, 'g, 'h, 'i>(
    service: &'a [u32],
    caller: usize,
    old: &'b [u8],
    new: &'c [u8],
    points: &'d [u8],
    first: &'e [u8],
    second: &'f [u8],
    given: &'g [u8],
    table: &'h mut [u8],
    answer: &'i mut [usize],
) -> u16
    ensures { AcrossServed service.now caller old.now new.now points.now
        first.now second.now given.now table.old answer.old result
        table.new answer.new }
{
    match admitted(service, caller, Right::Replay) {
        Ok(()) => { replay_handover(old, new, points, first, second, given, table, answer) }
        Err(denied) => {
            clear_replay(answer);
            denied.code()
        }
    }
}
