// What lines conclude, with their formulas by position in the image, matched against a rule's templates.
#![tactic(auto, using(crate::proofs::ConclusionBranches::conclusion_branches))]

ghost use Rattle.std.specs.Prelude.{◌≡◌, ◌+◌, ◌<◌};
ghost use Rattle.formula_trees.specs.StatementTree.{acted};
ghost use Rattle.rules_line.specs.Conclusion.{placed_at, match_conclusion, conclusion_at, match_from};
ghost use Rattle.rules_table.specs.RuleTable.{form_number};

use formula_match::bind::Bind;
use formula_match::matching_whole::{Whole, match_whole};
use limits::Limits;
use rules_table::rule::Form;

// What a line concludes: its form, of a triple the thread and point, the positions of the left and the right formula.
#[derive(Clone, Copy)]
pub struct Conclusion {
    pub form: Form,
    pub thread: usize,
    pub point: usize,
    pub left: usize,
    pub right: usize,
}

// The form is about an instruction.
fn is_acting(form: Form) -> bool
    ensures { result ≡ acted (form_number form) }
{
    matches!(
        form,
        Form::Triple | Form::Pair | Form::Unlisted | Form::Other(_)
    )
}

// The conclusion has the wanted form; a Hoare triple, of a pair too, is for the same thread and point.
pub fn is_placed(form: Form, thread: usize, point: usize, conclusion: Conclusion) -> bool
    ensures { result ≡ placed_at form thread point conclusion }
{
    conclusion.form == form
        && (!is_acting(form) || conclusion.thread == thread && conclusion.point == point)
}

// Matches a conclusion: its form and place, its left side against the template at `i`, its right side against the template after that.
// The parameters stay apart: docs/PROOFS.md names this function, and place and holes change from each call to the next.
pub fn match_conclusion(
    image: &[u8],
    templates: &[u8],
    i: usize,
    form: Form,
    thread: usize,
    point: usize,
    conclusion: Conclusion,
    bind: Bind,
) -> Option<Whole>
    ensures { result ≡ match_conclusion image.now templates.now i form thread point conclusion bind }
{
    if !is_placed(form, thread, point, conclusion) {
        return None;
    }
    let m = match_whole(image, templates, i, conclusion.left, Bind::WHOLE, bind)?;
    match_whole(
        image,
        templates,
        m.tpl,
        conclusion.right,
        Bind::WHOLE,
        m.bind,
    )
}

// What a line's premises conclude; past `count` there is NO_CONCLUSION.
// An array for the most premises with their number beside it: memory is fixed.
#[derive(Clone, Copy)]
pub struct Premises {
    pub count: u8,
    pub conclusions: [Conclusion; Limits::PREMISES],
}

// The conclusion of a premise that is not there.
pub const NO_CONCLUSION: Conclusion = Conclusion {
    form: Form::Inclusion,
    thread: 0,
    point: 0,
    left: 0,
    right: 0,
};

// What premise `j` concludes; NO_CONCLUSION if a line cannot have a premise `j`.
pub fn conclusion_at(premises: &Premises, j: usize) -> Conclusion
    ensures { result ≡ conclusion_at premises.now j }
{
    if j < Limits::PREMISES {
        premises.conclusions[j]
    } else {
        NO_CONCLUSION
    }
}

// Matches `left` premises from premise `j` on, each against the templates that follow those of the one before; `forms` has their forms, two
// bits each from the lowest. The bound on `j + left` keeps the sum from overflowing.
// Image, templates and place stay apart, as in `match_conclusion`: the place alone changes from premise to premise.
#[tactic(auto, using(crate::proofs::ConclusionBranches::match_from_branches))]
pub fn match_from(
    image: &[u8],
    templates: &[u8],
    i: usize,
    forms: u8,
    thread: usize,
    point: usize,
    premises: &Premises,
    j: usize,
    left: usize,
    bind: Bind,
) -> Option<Whole>
    requires { j + left < 1000 }
    ensures { result ≡ match_from image.now templates.now thread point premises.now left i forms j bind }
{
    let mut m = Whole { tpl: i, bind };
    let mut rest = forms;
    for k in j..j + left {
        m = match_conclusion(
            image,
            templates,
            m.tpl,
            Form::from_bits(rest % 4),
            thread,
            point,
            conclusion_at(premises, k),
            m.bind,
        )?;
        rest /= 4;
    }
    Some(m)
}
