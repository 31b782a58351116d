// Whether a handover between accepted images is permitted.
ghost use Rattle.std.specs.Prelude.{◌≡◌, Ok};
ghost use Rattle.image_frames.specs.Records.{bodies};
ghost use Rattle.image.specs.Decode.{decoded};
ghost use Rattle.image_meaning.specs.Image.{image_of};
ghost use Rattle.rules_justified.specs.Justify.{marks_to};
ghost use Rattle.handover_spec.specs.Code.{code_between, code_of};
ghost use Rattle.handover_spec.specs.LinesFound.{threads_serve};
ghost use Rattle.handover_spec.specs.Refusal.{code_told};

use handover_spec::lines::lines_serve;
use handover_spec::refusal::Refusal;
use handover_spec::same_bytes::same_bytes;
use handover_spec::table::table_fits;
use image_access::totals::Counted;
use image_header::sizes::Sizes;
use image_index::indexed::Indexed;
use rules_justified::justify::judge_lines;

// `Counted` is made of images that no one has decoded, too, so that these are decoded stands in the clauses.
// Whether every line that the table names serves, in images with equally many threads.
#[tactic(auto, using(handover_spec::proofs::Decided::marks_found, limits::proofs::BranchTests::tests))]
fn all_serve(old: &Counted, new: &Indexed, new_sizes: Sizes, table: &[u8]) -> bool
    requires { ((decoded old.now.image.now ≡ Ok old.now.sizes) × (decoded new.now ≡ Ok new_sizes))
        × (old.now.sizes.threads ≡ new_sizes.threads) }
    ensures { result ≡ threads_serve old.now.image.now old.now.sizes new.now new_sizes
        (marks_to new.now new_sizes new_sizes.lines)
        table.now old.now.sizes.threads }
{
    let records = Counted::new(new, new_sizes);
    let marks = judge_lines(new, new_sizes);
    lines_serve(old, &records, &marks.on, table)
}

// Whether the handover is permitted, for two images that are alike: a table out of range comes before any line that does not serve.
#[tactic(auto, using(handover_spec::proofs::Decided::between, limits::proofs::BranchTests::tests))]
fn code_between(
    old: &Indexed,
    old_sizes: Sizes,
    new: &Indexed,
    new_sizes: Sizes,
    table: &[u8],
) -> Result<(), Refusal>
    requires { ((decoded old.now ≡ Ok old_sizes) × (decoded new.now ≡ Ok new_sizes))
        × (old_sizes.threads ≡ new_sizes.threads) }
    ensures { code_told result ≡ code_between (image_of old_sizes (bodies old.now)) (image_of new_sizes (bodies new.now))
        table.now }
{
    let records = Counted::new(old, old_sizes);
    if !table_fits(&records, new, new_sizes, table) {
        return Err(Refusal::OutOfRange);
    }
    if !all_serve(&records, new, new_sizes, table) {
        return Err(Refusal::Unserved);
    }
    Ok(())
}

// Whether the handover is permitted, for two accepted images. They are alike if the bodies of their headers are equal: these have threads,
// words, registers, range, start values, owners and start marks, and nothing else.
#[tactic(auto, using(handover_spec::proofs::Decided::headers, limits::proofs::BranchTests::tests))]
pub fn handover_code(
    old: &Indexed,
    old_sizes: Sizes,
    new: &Indexed,
    new_sizes: Sizes,
    table: &[u8],
) -> Result<(), Refusal>
    requires { (decoded old.now ≡ Ok old_sizes) × (decoded new.now ≡ Ok new_sizes) }
    ensures { code_told result ≡ code_of old.now old_sizes new.now new_sizes table.now }
{
    let header = old.body_of(0);
    let other = new.body_of(0);
    if !same_bytes(header, other) {
        return Err(Refusal::Unlike);
    }
    code_between(old, old_sizes, new, new_sizes, table)
}
