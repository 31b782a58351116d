// The record of a verdict: 22 bytes, kind 7.
ghost use Rattle.std.specs.Prelude.{◌≡◌};
ghost use Rattle.verdict_record.specs.Record.{record_bytes};

use crate::verdict::Fields;

// The numbers of its frame.
#[derive(Drop)]
pub struct VerdictRecord;

impl VerdictRecord {
    pub const SIZE: usize = 22;

    // The value of the length field, which counts all that follows it.
    pub const LENGTH: u8 = 20;

    pub const KIND: u8 = 7;
}

// The bytes of the record.
#[derive(Clone, Copy)]
pub struct Record {
    pub bytes: [u8; VerdictRecord::SIZE],
}

// The record with these nine numbers, 16 bits each, little-endian.
#[tactic(auto, unfolding(crate::specs::Record::record_bytes))]
pub fn record_of(fields: Fields) -> Record
    ensures { result.bytes ≡ record_bytes fields }
{
    Record {
        bytes: [
            VerdictRecord::LENGTH,
            0,
            VerdictRecord::KIND,
            0,
            (fields.code % 256) as u8,
            (fields.code / 256 % 256) as u8,
            (fields.record % 256) as u8,
            (fields.record / 256 % 256) as u8,
            (fields.class % 256) as u8,
            (fields.class / 256 % 256) as u8,
            (fields.thread % 256) as u8,
            (fields.thread / 256 % 256) as u8,
            (fields.point % 256) as u8,
            (fields.point / 256 % 256) as u8,
            (fields.other_thread % 256) as u8,
            (fields.other_thread / 256 % 256) as u8,
            (fields.other_point % 256) as u8,
            (fields.other_point / 256 % 256) as u8,
            (fields.line % 256) as u8,
            (fields.line / 256 % 256) as u8,
            (fields.count % 256) as u8,
            (fields.count / 256 % 256) as u8,
        ],
    }
}
