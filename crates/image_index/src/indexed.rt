// An image with its index: where a record starts, its body, and the instruction at a point of a thread's record.
ghost use Rattle.std.specs.Prelude.{◌≡◌, [], List, ℕ, ◌<◌, get_or, drop};
ghost use Rattle.image_frames.specs.Records.{bodies};
ghost use Rattle.image_header.specs.Thread.{last_point, begins, instructions, nothing};
ghost use Rattle.image_index.specs.IndexTable.{index_of, place_of};

use crate::table::IndexSize;
use crate::walk::body_at;
use image_header::instruction::{Instruction, NOTHING};
use image_header::thread::{begins_at, instruction_from, last_point};
use limits::Limits;
use limits::read::rest;
use std::marker::Model;

// The bytes of an image, and the table that `fill_index` made of them. In clauses it stands for the bytes. A body outlives the table.
#[derive(Drop)]
pub struct Indexed<'a, 'b> {
    bytes: &'a [u8],
    index: &'b [usize],
}

impl<'a, 'b> Model for Indexed<'a, 'b> {
    ghost Value = { List ℕ };

    ghost view = { λ image. image.bytes.now };

    ghost invariant = { λ image. image.index.now ≡ index_of image.bytes.now };
}

impl<'a, 'b> Indexed<'a, 'b> {
    pub fn new(bytes: &'a [u8], index: &'b [usize]) -> Indexed<'a, 'b>
        requires { index.now ≡ index_of bytes.now }
        ensures { result ≡ bytes.now }
    {
        Indexed { bytes, index }
    }

    pub fn bytes(&self) -> &'a [u8]
        ensures { result.now ≡ self.now }
    {
        self.bytes
    }

    // The position of the record that has `i` records before it; the image's end if there is none.
    #[tactic(auto, using(crate::proofs::LookUps::look_up_branches, limits::proofs::BranchTests::tests))]
    pub fn place_of(&self, i: usize) -> usize
        ensures { result ≡ place_of self.now i }
    {
        if i < self.index.len() - IndexSize::STARTS {
            self.bytes.len() - self.index[i]
        } else {
            self.bytes.len()
        }
    }

    // The body of the record that has `i` records before it; empty if there is none.
    #[tactic(auto, using(crate::proofs::LookUps::look_up_branches, limits::proofs::BranchTests::tests))]
    pub fn body_of(&self, i: usize) -> &'a [u8]
        ensures { result.now ≡ get_or (bodies self.now) i [] }
    {
        body_at(self.bytes, self.place_of(i))
    }

    // The position at which the instruction at `point` of record `i`, whose body is `body`, begins: from the table for a thread's record,
    // else by a walk.
    // The bounds stay clauses: the one caller has them from its own test, and a type with them would be made for this call alone.
    #[tactic(auto, using(crate::proofs::LookUps::begins_in_branches, limits::proofs::BranchTests::tests))]
    fn begins_in(&self, body: &[u8], i: usize, point: usize) -> usize
        requires { (body.now ≡ get_or (bodies self.now) i [])
            × ((point < last_point body.now) × (point < 256)) }
        ensures { result ≡ begins (drop 1 body.now) point }
    {
        let n = self.index.len() - IndexSize::STARTS;
        let first = self.index[n];
        if first <= i && i - first < Limits::THREADS && point < Limits::POINTS {
            return self.index[n + 1 + Limits::POINTS * (i - first) + point];
        }
        begins_at(rest(body, 1), point)
    }

    // The instruction at `point` of the record that has `i` records before it; NOTHING where there is none.
    #[tactic(auto, using(crate::proofs::LookUps::instruction_in_branches, limits::proofs::BranchTests::tests))]
    pub fn instruction_in(&self, i: usize, point: usize) -> Instruction
        ensures { result ≡ get_or (instructions (get_or (bodies self.now) i [])) point nothing }
    {
        let body = self.body_of(i);
        if last_point(body) <= point {
            return NOTHING;
        }
        instruction_from(body, point, self.begins_in(body, i, point))
    }
}
