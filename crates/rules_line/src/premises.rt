// What a line's premises conclude, and whether they are the premises that its rule asks for.
#![tactic(auto, using(crate::proofs::PremiseBranches::premises_branches))]

ghost use Rattle.std.specs.Prelude.{◌≡◌};
ghost use Rattle.rules_line.specs.Premises.{premise_conclusion, premises_of, is_implication_at, all_implications, match_premises};

use crate::conclusion::{Conclusion, NO_CONCLUSION, Premises, conclusion_at, match_from};
use crate::line_conclusion::conclusion_of;
use formula_match::bind::Bind;
use formula_match::matching_whole::Whole;
use image_access::line::premise_of;
use image_header::sizes::Sizes;
use image_index::indexed::Indexed;
use limits::Limits;
use rules_table::rule::{Form, Rule, Rules};

// What premise `j` of line `number` concludes; NO_CONCLUSION if the line, which has `count` premises, has no such premise.
// Image, sizes and number stay apart: `Counted` would bring totals, which the pass over the lines neither counts nor reads.
fn premise_conclusion(
    image: &Indexed,
    sizes: Sizes,
    number: usize,
    count: u8,
    j: usize,
) -> Conclusion
    ensures { result ≡ premise_conclusion image.now sizes number count j }
{
    if j < usize::from(count) {
        conclusion_of(image, sizes, premise_of(image, sizes, number, j))
    } else {
        NO_CONCLUSION
    }
}

// What the premises of line `number` conclude; `count` is how many it has.
pub fn premises_of(image: &Indexed, sizes: Sizes, number: usize, count: u8) -> Premises
    ensures { result ≡ premises_of image.now sizes number count }
{
    let a = premise_conclusion(image, sizes, number, count, 0);
    let b = premise_conclusion(image, sizes, number, count, 1);
    let c = premise_conclusion(image, sizes, number, count, 2);
    let d = premise_conclusion(image, sizes, number, count, 3);
    Premises {
        count,
        conclusions: [a, b, c, d],
    }
}

// Premise `j` is an implication, or there is no such premise.
fn is_implication(premises: &Premises, j: usize) -> bool
    ensures { result ≡ is_implication_at premises.now j }
{
    usize::from(premises.count) <= j || conclusion_at(premises, j).form == Form::Implication
}

// Rule 20: there are at most four premises, and all are implications.
fn all_implications(premises: &Premises) -> bool
    ensures { result ≡ all_implications premises.now }
{
    usize::from(premises.count) <= Limits::PREMISES
        && is_implication(premises, 0)
        && is_implication(premises, 1)
        && is_implication(premises, 2)
        && is_implication(premises, 3)
}

// Matches the premises against the templates from `i` on: as many as the rule has, each of its form; of rule 20 any implications.
pub fn match_premises(
    image: &[u8],
    templates: &[u8],
    i: usize,
    rule: Rule,
    thread: usize,
    point: usize,
    premises: &Premises,
    bind: Bind,
) -> Option<Whole>
    ensures { result ≡ match_premises image.now templates.now i rule thread point premises.now bind }
{
    if rule.premises == Rules::IMPLICATIONS {
        return if all_implications(premises) {
            Some(Whole { tpl: i, bind })
        } else {
            None
        };
    }
    if rule.premises != premises.count {
        return None;
    }
    match_from(
        image,
        templates,
        i,
        rule.forms,
        thread,
        point,
        premises,
        0,
        usize::from(premises.count),
        bind,
    )
}
