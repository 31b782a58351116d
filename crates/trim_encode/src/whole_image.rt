// The trimmed image, written record by record: its live formulas and lines, everything renumbered.
ghost use Rattle.std.specs.Prelude.{◌≡◌, ◌++◌, ◌+◌, ◌≤◌, ◌<◌, length, drop};
ghost use Rattle.trim_spec.specs.Encode.{encode};
ghost use Rattle.trim_encode.specs.Outcome.{body_in, record_in, records_in, live_in, list_in, whole_in, trimmed_in};
ghost use Rattle.trim_encode.specs.Writing.{Puts, Room};

use crate::claim_record::put_claim;
use crate::line_record::put_line;
use crate::marks::is_marked;
use crate::numbering::Renumbering;
use crate::thread_record::put_thread;
use crate::trimming::Trimming;
use crate::writer::Writer;
use image_bodies::point_counts::{count_obligations, point_counts_of};
use image_frames::kind::Kind;

impl Trimming<'_, '_, '_> {
    // Writes a renumbered body. A header or a formula names nothing and is copied; `put_list` is for outline and obligations.
    #[tactic(auto, unfolding(crate::specs::Records::renewed_body))]
    fn put_body(&self, kind: usize, body: &[u8], writer: &mut Writer)
        requires { Room writer.old (length (body_in self.now kind body.now)) }
        ensures { Puts writer.old writer.new (body_in self.now kind body.now) }
    {
        match kind {
            Kind::THREAD => put_thread(self.formulas.numbers, body, writer),
            Kind::LINE => put_line(self.formulas.numbers, self.lines.numbers, body, writer),
            Kind::CLAIM => put_claim(self.lines.numbers, body, writer),
            _ => writer.put_bytes(body),
        }
    }

    // Writes the record with index `place`, counted from 0, as one of kind `kind`.
    fn put_record(&self, kind: usize, place: usize, writer: &mut Writer)
        requires { Room writer.old (length (record_in self.now kind place)) }
        ensures { Puts writer.old writer.new (record_in self.now kind place) }
    {
        let body = self.image.indexed.body_of(place);
        let start = writer.begin();
        self.put_body(kind, body, writer);
        writer.finish(start, kind);
    }

    // Writes the record with index `place`, counted from 0, whose body is a list of `count` numbers.
    fn put_list(
        &self,
        renumbering: &Renumbering,
        kind: usize,
        place: usize,
        count: usize,
        writer: &mut Writer,
    )
        requires { Room writer.old (length (list_in self.now renumbering.now kind place count)) }
        ensures { Puts writer.old writer.new (list_in self.now renumbering.now kind place count) }
    {
        let body = self.image.indexed.body_of(place);
        let start = writer.begin();
        writer.put_numbers(renumbering.numbers, body, count);
        writer.finish(start, kind);
    }

    // Writes the records with indices `first` to `first + count - 1`.
    fn put_records(&self, kind: usize, first: usize, count: usize, writer: &mut Writer)
        requires { (first + count < 1000000) × Room writer.old (length (records_in self.now kind first count)) }
        ensures { Puts writer.old writer.new (records_in self.now kind first count) }
    {
        for i in 0..count {
            self.put_record(kind, first + i, writer);
        }
    }

    // Writes those of the records with indices `first` to `first + count - 1` that are marked, by their numbers 1 to `count`.
    fn put_live(&self, marks: &[bool], kind: usize, first: usize, count: usize, writer: &mut Writer)
        requires { (first + count < 1000000) × Room writer.old (length (live_in self.now marks.now kind first count)) }
        ensures { Puts writer.old writer.new (live_in self.now marks.now kind first count) }
    {
        for i in 0..count {
            if is_marked(marks, i + 1) {
                self.put_record(kind, first + i, writer);
            }
        }
    }

    // Writes the trimmed image to the front of `out`; the bytes behind it stay.
    pub(crate) fn write(&self, out: &mut [u8])
        requires { length (encode (trimmed_in self.now)) ≤ length out.old }
        ensures { out.new ≡ encode (trimmed_in self.now) ++ drop (length (encode (trimmed_in self.now))) out.old }
    {
        let mut writer = Writer::new(out);
        self.put_all(&mut writer);
    }

    // Writes all records in the order of their kinds.
    fn put_all(&self, writer: &mut Writer)
        requires { Room writer.old (length (whole_in self.now)) }
        ensures { Puts writer.old writer.new (whole_in self.now) }
    {
        let sizes = self.image.sizes;
        let formulas = usize::from(sizes.formulas);
        let threads = usize::from(sizes.threads);
        let lines = usize::from(sizes.lines);
        let claims = usize::from(sizes.claims);
        let points = point_counts_of(self.image.indexed, sizes).points;
        let obligations = count_obligations(self.image.indexed, sizes);
        self.put_record(Kind::HEADER, 0, writer);
        self.put_live(self.formulas.live, Kind::FORMULA, 1, formulas, writer);
        self.put_records(Kind::THREAD, formulas + 1, threads, writer);
        self.put_list(
            &self.formulas,
            Kind::OUTLINE,
            formulas + threads + 1,
            points,
            writer,
        );
        self.put_live(
            self.lines.live,
            Kind::LINE,
            formulas + threads + 2,
            lines,
            writer,
        );
        self.put_list(
            &self.lines,
            Kind::OBLIGATIONS,
            formulas + threads + 1 + lines + 1,
            obligations,
            writer,
        );
        self.put_records(
            Kind::CLAIM,
            formulas + threads + 1 + lines + 2,
            claims,
            writer,
        );
    }
}
