// Whether a line is an instance of its rule.
#![tactic(auto, using(crate::proofs::InstanceBranches::rule_instance_branches))]

ghost use Rattle.std.specs.Prelude.{◌≡◌};
ghost use Rattle.rules_line.specs.RuleInstance.{is_allowed, rest_at, line_match, fits_row, fits_line};

use crate::conclusion::{Conclusion, Premises, match_conclusion};
use crate::line_conclusion::conclusion_by;
use crate::premises::{match_premises, premises_of};
use crate::preset::preset_at;
use crate::side_conditions::is_asked;
use formula::code::contains;
use formula_match::bind::Bind;
use formula_match::matching_whole::Whole;
use image_access::acting_instruction::{Acting, acting_of};
use image_access::line::{Line, line_of};
use image_header::sizes::Sizes;
use image_index::indexed::Indexed;
use rules_table::rule::{Form, Rule, rule_at};

// The rule allows the operation: for triples that of the first half, for rule 50 that of the whole pair. Other rules ask for none.
fn is_allowed(rule: Rule, acting: Acting) -> bool
    ensures { result ≡ is_allowed rule acting }
{
    match rule.form {
        Form::Triple => contains(u32::from(rule.operations), acting.operation),
        Form::Pair => contains(u32::from(rule.operations), acting.whole),
        Form::Inclusion | Form::Implication | Form::Unlisted | Form::Other(_) => true,
    }
}

// What remains once the templates are matched: the operation and the side condition.
fn fits_rest(
    image: &Indexed,
    rule: Rule,
    acting: Acting,
    conclusion: Conclusion,
    premises: &Premises,
    bind: Bind,
) -> bool
    ensures { result ≡ rest_at image.now rule acting conclusion premises.now bind }
{
    is_allowed(rule, acting) && is_asked(image, rule.side, bind, acting, conclusion, premises)
}

// Matches the line's conclusion against its rule's templates, with the holes that its instruction fills.
fn match_line(
    image: &[u8],
    templates: &[u8],
    rule: Rule,
    line: Line,
    acting: Acting,
    conclusion: Conclusion,
) -> Option<Whole>
    ensures { result ≡ line_match image.now templates.now rule line acting conclusion }
{
    match_conclusion(
        image,
        templates,
        usize::from(rule.template),
        rule.form,
        conclusion.thread,
        conclusion.point,
        conclusion,
        preset_at(line.thread, acting.word, acting.register, acting.formula),
    )
}

// The line is an instance of its rule: its conclusion matches, then its premises, then operation and side condition are right.
fn fits_row(
    image: &Indexed,
    templates: &[u8],
    line: Line,
    acting: Acting,
    premises: &Premises,
) -> bool
    ensures { result ≡ fits_row image.now templates.now line acting premises.now }
{
    let bytes = image.bytes();
    let rule = rule_at(line.rule);
    let c = conclusion_by(line, acting.whole);
    let Some(m) = match_line(bytes, templates, rule, line, acting, c) else {
        return false;
    };
    let Some(q) = match_premises(
        bytes, templates, m.tpl, rule, c.thread, c.point, premises, m.bind,
    ) else {
        return false;
    };
    fits_rest(image, rule, acting, c, premises, q.bind)
}

// Whether line `number` is an instance of its rule.
pub fn fits_line(image: &Indexed, templates: &[u8], sizes: Sizes, number: usize) -> bool
    ensures { result ≡ fits_line image.now templates.now sizes number }
{
    let line = line_of(image, sizes, number);
    let acting = acting_of(
        image,
        sizes,
        usize::from(line.thread),
        usize::from(line.point),
    );
    let premises = premises_of(image, sizes, number, line.count);
    fits_row(image, templates, line, acting, &premises)
}
