// The side conditions of rules.
#![tactic(auto, using(crate::proofs::SideConditionBranches::side_conditions_branches))]

ghost use Rattle.std.specs.Prelude.{◌≡◌};
ghost use Rattle.rules_line.specs.Conclusion.{conclusion_at};
ghost use Rattle.rules_line.specs.SideConditions.{substitution_of, assigned_by, loaded_by, pair_of, implications_of, of_names, asked};

use crate::conclusion::{Conclusion, Premises, conclusion_at};
use crate::new_value::is_new_value;
use crate::side_tests::{
    hole_of, is_absent, is_preserved, is_start, is_substituted, is_with, number_in, one_name,
};
use formula_compare::replace::{Name, Replacing, Substitution};
use formula_match::bind::Bind;
use image_access::acting_instruction::Acting;
use image_header::header::{is_cleared, range_of};
use image_header::instruction::Instruction;
use image_index::indexed::Indexed;
use limits::Limits;
use rules_table::rule::Side;
use tables_rows::by_rows::{Implications, by_rows, by_table};
use tables_rows::entailment::Implication;

// The substitution that an instruction's assignments denote: one register, two at once, or the second half of a pair.
fn substitution_of(acting: Acting) -> Substitution
    ensures { result ≡ substitution_of acting }
{
    let by = Replacing::Formula(acting.formula, Limits::NESTING);
    let note = Replacing::Formula(acting.note, Limits::NESTING);
    match acting.whole {
        Instruction::ASSIGN => one_name(Name::Register(acting.register), by),
        Instruction::ASSIGN_TWO => Substitution {
            name: Name::Register(acting.register),
            by,
            second: Some((acting.noted, note)),
        },
        _ => one_name(Name::Register(acting.noted), note),
    }
}

// Rules 2 and 50: the formula in hole 0 is the one in hole 1 after that substitution.
fn is_assigned(image: &[u8], bind: Bind, acting: Acting) -> bool
    ensures { result ≡ assigned_by image.now bind acting }
{
    let substitution = substitution_of(acting);
    is_with(image, hole_of(bind, 0), hole_of(bind, 1), substitution)
}

// Rules 3, 4 and 47: the test in hole 3 is the one in hole 2 with the instruction's register replaced by its word.
fn is_loaded(image: &[u8], bind: Bind, acting: Acting) -> bool
    ensures { result ≡ loaded_by image.now bind acting }
{
    let substitution = one_name(
        Name::Register(acting.register),
        Replacing::Word(acting.word),
    );
    is_with(image, hole_of(bind, 3), hole_of(bind, 2), substitution)
}

// The sides of premise `j`.
fn pair_at(premises: &Premises, j: usize) -> Implication
    ensures { result ≡ pair_of (conclusion_at premises.now j) }
{
    let c = conclusion_at(premises, j);
    Implication {
        left: c.left,
        right: c.right,
    }
}

// The line and its premises as implications, the line first: the input of a truth table.
fn implications_of(conclusion: Conclusion, premises: &Premises) -> Implications
    ensures { result ≡ implications_of conclusion premises.now }
{
    let line = Implication {
        left: conclusion.left,
        right: conclusion.right,
    };
    Implications {
        count: usize::from(premises.count) + 1,
        pairs: [
            line,
            pair_at(premises, 0),
            pair_at(premises, 1),
            pair_at(premises, 2),
            pair_at(premises, 3),
        ],
    }
}

// Rules 21, 23, 24 and 30: the test in hole 2 implies the one in hole 3, by rows over the range in the header.
fn by_names(image: &Indexed, bind: Bind) -> bool
    ensures { result ≡ of_names image.now bind }
{
    let p = hole_of(bind, 2);
    let q = hole_of(bind, 3);
    by_rows(
        image.bytes(),
        p.at,
        p.left,
        q.at,
        q.left,
        range_of(image.body_of(0)),
    )
}

// Whether the side condition `side` holds: by rows, by truth table, by the header's start values and marks, or of the instruction.
pub fn is_asked(
    image: &Indexed,
    side: Side,
    bind: Bind,
    acting: Acting,
    conclusion: Conclusion,
    premises: &Premises,
) -> bool
    ensures { result ≡ asked image.now side bind acting conclusion premises.now }
{
    let bytes = image.bytes();
    match side {
        Side::Nothing => true,
        Side::Kept => is_preserved(
            bytes,
            acting.operation,
            acting.word,
            acting.register,
            hole_of(bind, 0),
        ),
        Side::Assigned => is_assigned(bytes, bind, acting),
        Side::Loaded => is_loaded(bytes, bind, acting),
        Side::WordAbsent => is_absent(
            bytes,
            acting.operation,
            acting.word,
            acting.register,
            hole_of(bind, 1),
        ),
        Side::Stored => is_substituted(
            bytes,
            hole_of(bind, 3),
            hole_of(bind, 2),
            acting.word,
            acting.formula,
        ),
        Side::ByRows => by_names(image, bind),
        Side::ByTable => by_table(bytes, implications_of(conclusion, premises)),
        Side::StartValue => is_start(
            bytes,
            image.body_of(0),
            hole_of(bind, 0),
            number_in(bind, 4),
        ),
        Side::NewValue => is_new_value(
            bytes,
            acting.operation,
            acting.register,
            acting.formula,
            hole_of(bind, 0),
        ),
        Side::StartsAtZero => is_cleared(image.body_of(0), number_in(bind, 4)),
    }
}
