// The verdict on an image: the first fault of its bytes, or the first obligation that is not met, or the first failing claim, or accepted.
#![tactic(auto, using(crate::proofs::JudgeBranches::judging, limits::proofs::BranchTests::tests))]

ghost use Rattle.std.specs.Prelude.{◌≡◌, ◌<◌};
ghost use Rattle.checker_spec.specs.ImageVerdict.{verdict, verdict_within};
ghost use Rattle.checker.specs.VerdictFound.{points_of, denied_at, claims_verdict, sound_verdict};
ghost use Rattle.rules_justified.specs.Marks.{as_marks};

use image::decode::decode_image;
use image_access::claim::{Claimed, claim_of, claim_place};
use image_frames::fault::Fault;
use image_header::sizes::Sizes;
use image_index::indexed::Indexed;
use image_index::lent::with_index;
use obligations::all_obligations::judge_obligations;
use obligations::claims::first_denied;
use rules_justified::justify::judge_lines;
use verdict_record::obligation::Place;
use verdict_record::verdict::Verdict;

// The place of a claim in a verdict: claims have class 0.
#[tactic(auto, unfolding(crate::specs::VerdictFound::points_of))]
fn points_of(claim: Claimed) -> Place
    ensures { result ≡ points_of claim }
{
    Place {
        class: 0,
        thread: usize::from(claim.thread),
        point: usize::from(claim.point),
        other_thread: usize::from(claim.other),
        other_point: usize::from(claim.other_point),
    }
}

// The verdict that claim `i` fails; `count` obligations are met.
fn deny(image: &Indexed, sizes: Sizes, i: usize, count: usize) -> Verdict
    requires { i < 65536 }
    ensures { result ≡ denied_at image.now sizes i count }
{
    let claim = claim_of(image, sizes, i);
    Verdict::Denied {
        record: claim_place(sizes, i),
        place: points_of(claim),
        line: claim.line,
        count,
    }
}

// The verdict by the claims, once all obligations, `count` of them, are met.
fn judge_claims(image: &Indexed, sizes: Sizes, marks: &[bool], count: usize) -> Verdict
    ensures { result ≡ claims_verdict image.now sizes (as_marks marks.now) count }
{
    match first_denied(image, sizes, marks) {
        Some(i) => deny(image, sizes, i, count),
        None => Verdict::Accepted { count },
    }
}

// The verdict on a well-formed image, by its obligations and claims.
pub fn judge_sound(image: &Indexed, sizes: Sizes) -> Verdict
    ensures { result ≡ sound_verdict image.now sizes }
{
    let marks = judge_lines(image, sizes);
    match judge_obligations(image, sizes, &marks.on) {
        Ok(count) => judge_claims(image, sizes, &marks.on, count),
        Err(failure) => Verdict::Failed {
            what: failure.what,
            code: failure.unmet.code(),
            line: failure.line,
            count: failure.count,
        },
    }
}

// The verdict on the image: its first fault, or what its obligations and claims give.
fn judge_indexed(image: &Indexed) -> Verdict
    ensures { result ≡ verdict image.now }
{
    match decode_image(image) {
        Ok(sizes) => judge_sound(image, sizes),
        Err(refusal) => Verdict::Refused {
            fault: refusal.fault,
            record: refusal.record,
        },
    }
}

// The verdict on the image.
pub fn judge(image: &[u8]) -> Verdict
    ensures { result ≡ verdict image.now }
{
    with_index(image, |image| judge_indexed(image))
}

// The verdict for a caller that takes images of at most `most` bytes; a longer one is refused with code 2.
pub fn judge_within(image: &[u8], most: usize) -> Verdict
    ensures { result ≡ verdict_within most image.now }
{
    if most < image.len() {
        return Verdict::Refused {
            fault: Fault::Size,
            record: 0,
        };
    }
    judge(image)
}
