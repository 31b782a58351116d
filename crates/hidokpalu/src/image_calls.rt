// The calls on images, each as its own crate has it.
ghost use Rattle.checker_spec.specs.Promise.{Promise as Verdict};
ghost use Rattle.trim.specs.Promise.{Promise as Trimmed};
ghost use Rattle.replay_spec.specs.Promise.{Written as Replayed};
ghost use Rattle.handover_spec.specs.Promise.{Promise as Permitted};
ghost use Rattle.handover_replay.specs.Promise.{Written as ReplayedAcross};

// Judges an image: `checker::entry::check_image`.
// The parameters of the functions here are those of the C interface, `include/hidokpalu.h`.
#[unsafe(no_mangle)]
pub extern "C" fn check_image(image: &[u8], out: &mut [u8]) -> u16
    ensures { Verdict image.now out.old result out.new }
{
    checker::entry::check_image(image, out)
}

// Trims an accepted image: `trim::entry::trim_image`.
#[unsafe(no_mangle)]
pub extern "C" fn trim_image<'a, 'b, 'c>(
    image: &'a [u8],
    out: &'b mut [u8],
    written: &'c mut usize,
) -> u16
    ensures { Trimmed image.now out.old result written.new out.new }
{
    trim::entry::trim_image(image, out, written)
}

// Replays a trace: `replay::entry::replay_trace`.
#[unsafe(no_mangle)]
pub extern "C" fn replay_trace<'a, 'b, 'c, 'd, 'e>(
    image: &'a [u8],
    trace: &'b [u8],
    given: &'c [u8],
    table: &'d mut [u8],
    answer: &'e mut [usize],
) -> u16
    ensures { Replayed image.now trace.now given.now table.old answer.old result
        table.new answer.new }
{
    replay::entry::replay_trace(image, trace, given, table, answer)
}

// Permits or refuses a handover: `handover::entry::check_handover`.
#[unsafe(no_mangle)]
pub extern "C" fn check_handover(old: &[u8], new: &[u8], table: &[u8]) -> u16
    ensures { Permitted old.now new.now table.now result }
{
    handover::entry::check_handover(old, new, table)
}

// Replays two traces across a handover: `handover_replay::entry::replay_handover`.
#[unsafe(no_mangle)]
pub extern "C" fn replay_handover<'a, 'b, 'c, 'd, 'e, 'f, 'g, 'h>(
    old: &'a [u8],
    new: &'b [u8],
    points: &'c [u8],
    first: &'d [u8],
    second: &'e [u8],
    given: &'f [u8],
    table: &'g mut [u8],
    answer: &'h mut [usize],
) -> u16
    ensures { ReplayedAcross old.now new.now points.now first.now second.now
        given.now table.old answer.old result table.new answer.new }
{
    handover_replay::entry::replay_handover(old, new, points, first, second, given, table, answer)
}
