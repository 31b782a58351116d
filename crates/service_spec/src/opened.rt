// The numbers of a service when it is opened.
ghost use Rattle.std.specs.Prelude.{◌≡◌, ◌++◌, ◌≤◌, ◌%◌, length, get_or, drop};
ghost use Rattle.service_spec.specs.Opening.{places, opened};

use crate::rights::Service;
use limits::read::u8_at;

// The rights of the caller at index `at`, from 0, modulo 8; a byte that is missing gives no right.
fn given_at(rights: &[u8], at: usize) -> u32
    ensures { result ≡ get_or rights.now at 0 % 8 }
{
    (u8_at(rights, at) % Service::RIGHTS) as u32
}

// The rights of callers 1 to 8, then the number of billed images of each, which is 0.
#[tactic(auto, using(crate::proofs::OpeningBranches::sixteen, limits::proofs::BranchTests::tests))]
pub fn opened_numbers(rights: &[u8]) -> [u32; Service::NUMBERS]
    ensures { result ≡ opened rights.now }
{
    [
        given_at(rights, 0),
        given_at(rights, 1),
        given_at(rights, 2),
        given_at(rights, 3),
        given_at(rights, 4),
        given_at(rights, 5),
        given_at(rights, 6),
        given_at(rights, 7),
        0,
        0,
        0,
        0,
        0,
        0,
        0,
        0,
    ]
}

// Writes the sixteen numbers to the front of `service`; the numbers behind stay.
pub fn write_service(numbers: [u32; Service::NUMBERS], service: &mut [u32])
    requires { places ≤ length service.old }
    ensures { service.new ≡ numbers ++ drop places service.old }
{
    service[..Service::NUMBERS].copy_from_slice(&numbers);
}
