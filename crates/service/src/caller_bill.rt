// The bill for a caller of the service.
ghost use Rattle.std.specs.Prelude.{◌≡◌};
ghost use Rattle.service_spec.specs.declared.rights.Right.TheVariants.{Bill};
ghost use Rattle.service_spec.specs.Account.{admission};
ghost use Rattle.service_spec.specs.Promise.{BillServed};

use bill::into::bill_into;
use bill_spec::tariff::Tariff;
use service_spec::rights::Service;
use verdict_record::output::Output;

// Bills by the caller's own number, which a bill without an error raises by one; 1 if the service is too short to have that number.
pub fn bill_caller<'a, 'b, 'c>(
    service: &'a mut [u32],
    caller: usize,
    image: &'b [u8],
    tariff: Tariff,
    answer: &'c mut [u32],
) -> u16
    requires { admission Bill service.old caller ≡ 0 }
    ensures { BillServed service.old caller image.now tariff answer.old service.new result
        answer.new }
{
    let at = Service::BILLED + caller;
    if service.len() <= at {
        return Output::SHORT;
    }
    let billed = service[at];
    let code = bill_into(image, tariff, billed, answer);
    if code != 0 {
        return code;
    }
    service[at] = billed + 1;
    0
}
