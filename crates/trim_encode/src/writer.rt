// A writer of bytes to the front of a buffer: it knows where the next byte goes, and what is behind stays.
ghost use Rattle.std.specs.Prelude.{◌≡◌, [], ◌∷◌, map, ◌+◌, ◌≤◌, length};
ghost use Rattle.limits.specs.Numbers.{numbers};
ghost use Rattle.verdict_record.specs.Record.{two};
ghost use Rattle.trim_spec.specs.Encode.{number_bytes};
ghost use Rattle.trim_encode.specs.Renumbered.{renewed};
ghost use Rattle.trim_encode.specs.Writing.{overwritten, Puts, Room, Begun, Finished};

use crate::numbering::new_number;
use limits::read::number_at;

// Copies `body` to the buffer, from position `at` on. No `copy_from_slice`: it may become a call of memmove, and the archive for C is to
// need memcpy and memset alone.
#[tactic(auto, using(crate::proofs::Writes::copying, limits::proofs::BranchTests::tests))]
fn copy_to(body: &[u8], out: &mut [u8], at: usize)
    requires { at + length body.now ≤ length out.old }
    ensures { out.new ≡ overwritten out.old at body.now }
{
    for i in 0..body.len() {
        out[at + i] = body[i];
    }
}

// The buffer, and the position of the next byte.
#[derive(Drop)]
pub struct Writer<'a> {
    pub out: &'a mut [u8],
    pub at: usize,
}

impl<'a> Writer<'a> {
    // The bytes of a record's length and kind, which stand before its body.
    pub const FRAME: usize = 4;

    pub(crate) fn new(out: &'a mut [u8]) -> Writer<'a>
        ensures same { result.out.ghost_name ≡ out.entry.ghost_name }
        ensures at { result.at ≡ 0 }
        ensures bytes { result.out.now ≡ out.old }
    {
        Writer { out, at: 0 }
    }

    pub(crate) fn put_byte(&mut self, byte: u8)
        requires { Room self.old 1 }
        ensures { Puts self.old self.new (byte ∷ []) }
    {
        self.out[self.at] = byte;
        self.at += 1;
    }

    // Writes a 16-bit number, low byte first.
    pub(crate) fn put_u16(&mut self, number: usize)
        requires { Room self.old 2 }
        ensures { Puts self.old self.new (two number) }
    {
        self.put_byte((number % 256) as u8);
        self.put_byte((number / 256 % 256) as u8);
    }

    // Writes three bytes and a 16-bit number: an instruction, the front of a line or the end of a claim.
    pub(crate) fn put_five(&mut self, byte: u8, next_byte: u8, last_byte: u8, number: usize)
        requires { Room self.old 5 }
        ensures { Puts self.old self.new (byte ∷ next_byte ∷ last_byte ∷ two number) }
    {
        self.put_byte(byte);
        self.put_byte(next_byte);
        self.put_byte(last_byte);
        self.put_u16(number);
    }

    pub(crate) fn put_bytes(&mut self, body: &[u8])
        requires { Room self.old (length body.now) }
        ensures { Puts self.old self.new body.now }
    {
        copy_to(body, self.out, self.at);
        self.at += body.len();
    }

    // Writes the new numbers, by the table, of the first `n` 16-bit numbers in `body`.
    pub(crate) fn put_numbers(&mut self, table: &[usize], body: &[u8], n: usize)
        requires { Room self.old (length (number_bytes (map (renewed table.now) (numbers n body.now)))) }
        ensures { Puts self.old self.new (number_bytes (map (renewed table.now) (numbers n body.now))) }
    {
        for i in 0..n {
            self.put_u16(new_number(table, number_at(body, n, i)));
        }
    }

    // Leaves the place of a record's length and kind, and returns where it is.
    pub(crate) fn begin(&mut self) -> usize
        requires { Room self.old 4 }
        ensures { Begun self.old self.new × (result ≡ self.old.at) }
    {
        let start = self.at;
        self.at += Writer::FRAME;
        start
    }

    // Writes length and kind of the record that begins at `start`, whose body is written.
    pub(crate) fn finish(&mut self, start: usize, kind: usize)
        requires { (start + 4 ≤ self.old.at) × (self.old.at ≤ length self.old.out.now) }
        ensures { Finished self.old self.new start kind }
    {
        let end = self.at;
        self.at = start;
        self.put_u16(end - start - 2);
        self.put_u16(kind);
        self.at = end;
    }
}
