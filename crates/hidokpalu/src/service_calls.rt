// The calls of a service, each as the crate `service` has it.
ghost use Rattle.std.specs.Prelude.{◌≡◌};
ghost use Rattle.bill_spec.specs.Output.{tariff_of};
ghost use Rattle.service_spec.specs.Opening.{opening_code, service_for};
ghost use Rattle.service_spec.specs.Promise.{CheckServed, TrimServed, BillServed, HandoverServed, ReplayServed, AcrossServed};

// Opens a service.
// The parameters of the functions here are those of the C interface, `include/hidokpalu.h`.
#[unsafe(no_mangle)]
pub extern "C" fn open_service<'a, 'b>(rights: &'a [u8], service: &'b mut [u32]) -> u16
    ensures { (result ≡ opening_code service.old)
        × (service.new ≡ service_for rights.now service.old) }
{
    service::open::open_service(rights, service)
}

// Serves `check_image`.
#[unsafe(no_mangle)]
pub extern "C" fn serve_check<'a, 'b, 'c>(
    service: &'a [u32],
    caller: usize,
    image: &'b [u8],
    out: &'c mut [u8],
) -> u16
    ensures { CheckServed service.now caller image.now out.old result out.new }
{
    service::entry::serve_check(service, caller, image, out)
}

// Serves `trim_image`.
#[unsafe(no_mangle)]
pub extern "C" fn serve_trim<'a, 'b, 'c, 'd>(
    service: &'a [u32],
    caller: usize,
    image: &'b [u8],
    out: &'c mut [u8],
    written: &'d mut usize,
) -> u16
    ensures { TrimServed service.now caller image.now out.old result written.new
        out.new }
{
    service::entry::serve_trim(service, caller, image, out, written)
}

// Serves `check_handover`.
#[unsafe(no_mangle)]
pub extern "C" fn serve_handover<'a, 'b, 'c, 'd>(
    service: &'a [u32],
    caller: usize,
    old: &'b [u8],
    new: &'c [u8],
    table: &'d [u8],
) -> u16
    ensures { HandoverServed service.now caller old.now new.now table.now result }
{
    service::entry::serve_handover(service, caller, old, new, table)
}

// Bills an image to a caller.
#[unsafe(no_mangle)]
pub extern "C" fn serve_bill<'a, 'b, 'c>(
    service: &'a mut [u32],
    caller: usize,
    image: &'b [u8],
    start: u16,
    step: u16,
    taken: u16,
    interference: u16,
    least: u16,
    answer: &'c mut [u32],
) -> u16
    ensures { BillServed service.old caller image.now (tariff_of start step taken interference least)
        answer.old service.new result answer.new }
{
    service::entry::serve_bill(
        service,
        caller,
        image,
        start,
        step,
        taken,
        interference,
        least,
        answer,
    )
}

// Serves `replay_trace`.
#[unsafe(no_mangle)]
pub extern "C" fn serve_replay<'a, 'b, 'c, 'd, 'e, 'f>(
    service: &'a [u32],
    caller: usize,
    image: &'b [u8],
    trace: &'c [u8],
    given: &'d [u8],
    table: &'e mut [u8],
    answer: &'f mut [usize],
) -> u16
    ensures { ReplayServed service.now caller image.now trace.now given.now
        table.old answer.old result table.new answer.new }
{
    service::entry::serve_replay(service, caller, image, trace, given, table, answer)
}

// Serves `replay_handover`.
#[unsafe(no_mangle)]
pub extern "C" fn serve_replay_handover<'a, 'b, 'c, 'd, 'e, 'f, 'g, 'h, 'i>(
    service: &'a [u32],
    caller: usize,
    old: &'b [u8],
    new: &'c [u8],
    points: &'d [u8],
    first: &'e [u8],
    second: &'f [u8],
    given: &'g [u8],
    table: &'h mut [u8],
    answer: &'i mut [usize],
) -> u16
    ensures { AcrossServed service.now caller old.now new.now points.now
        first.now second.now given.now table.old answer.old result
        table.new answer.new }
{
    service::entry::serve_replay_handover(
        service, caller, old, new, points, first, second, given, table, answer,
    )
}
