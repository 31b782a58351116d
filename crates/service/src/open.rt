// The opening of a service.
ghost use Rattle.std.specs.Prelude.{◌≡◌};
ghost use Rattle.service_spec.specs.Opening.{opening_code, service_for};

use service_spec::opened::{opened_numbers, write_service};
use service_spec::rights::Service;
use verdict_record::output::Output;

// Opens a service: the rights of callers 1 to 8, a byte for each, modulo 8, and a number of 0 for each. A `service` of fewer than sixteen
// numbers stays as it was, and 1 is returned; else 0 is returned, and the numbers behind the sixteenth stay.
#[tactic(auto, using(service_spec::proofs::OpeningBranches::open_service_branches, limits::proofs::BranchTests::tests))]
#[unsafe(no_mangle)]
pub extern "C" fn open_service<'a, 'b>(rights: &'a [u8], service: &'b mut [u32]) -> u16
    ensures { (result ≡ opening_code service.old)
        × (service.new ≡ service_for rights.now service.old) }
{
    if service.len() < Service::NUMBERS {
        return Output::SHORT;
    }
    write_service(opened_numbers(rights), service);
    0
}
