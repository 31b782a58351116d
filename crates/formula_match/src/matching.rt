// The matcher: a template and a formula, node by node.
#![tactic(auto, using(crate::proofs::MatchBranches::match_ways))]

ghost use Rattle.std.specs.Prelude.{◌≡◌, ◌<◌};
ghost use Rattle.formula_match.specs.MatchPlaces.{node_of, root_at, match_at};

use crate::bind::{Bind, Hole, Rest, Root, match_hole, match_operand};
use formula::code::has_operand;
use formula::end::end_at;
use formula::node::{Node, node_at};

// The positions past a template and a formula that it fits, and the bindings of the holes.
#[derive(Clone, Copy)]
pub struct Match {
    pub tpl: usize,
    pub next: usize,
    pub bind: Bind,
}

// Matches a node of a template that is no hole with a node of a formula.
#[tactic(auto, using(limits::proofs::BranchTests::tests), unfolding(crate::specs::MatchPlaces::node_of))]
pub fn match_node(pattern: Node, node: Node, bind: &Bind) -> Option<Root>
    ensures { result ≡ node_of pattern node bind.now }
{
    if pattern.code != node.code {
        return None;
    }
    let mut bind = *bind;
    if has_operand(pattern.code) && !match_operand(pattern.operand, node.operand, &mut bind) {
        return None;
    }
    let rest = match node.parts {
        0 => Rest::Nothing(node.next),
        1 => Rest::One(node.next),
        _ => Rest::Two(node.next),
    };
    Some(Root {
        tpl: pattern.next,
        rest,
        bind,
    })
}

// `i`, `at`, `left` and the bindings change apart from each other at each step, so a struct of them would be made anew in every call.
// Matches the root of the template at `i` with the root of the formula at `at`. With no nesting left there is nothing to match.
pub fn match_root(
    image: &[u8],
    templates: &[u8],
    i: usize,
    at: usize,
    left: u8,
    bind: &Bind,
) -> Option<Root>
    ensures { result ≡ root_at image.now templates.now i at left bind.now }
{
    if left == 0 {
        return Some(Root {
            tpl: i,
            rest: Rest::Nothing(at),
            bind: *bind,
        });
    }
    let pattern = node_at(templates, i);
    if pattern.code < Hole::FORMULAS {
        return match_node(pattern, node_at(image, at), bind);
    }
    let j = pattern.code - Hole::FORMULAS;
    if j < Hole::COUNT {
        return match_hole(image, pattern.next, usize::from(j), at, left, bind);
    }
    None
}

// Matches the template at `i` with the formula at `at`, nested at most `left` deep.
pub fn match_at(
    image: &[u8],
    templates: &[u8],
    i: usize,
    at: usize,
    left: u8,
    bind: &Bind,
) -> Option<Match>
    ensures { result ≡ match_at image.now templates.now left i at bind.now }
{
    let Root { tpl, rest, bind } = match_root(image, templates, i, at, left, bind)?;
    match rest {
        Rest::Nothing(next) => Some(Match { tpl, next, bind }),
        Rest::Taken => Some(Match {
            tpl,
            next: end_at(image, at, usize::from(left)),
            bind,
        }),
        Rest::One(next) => match_at(image, templates, tpl, next, left - 1, &bind),
        Rest::Two(next) => {
            let first = match_at(image, templates, tpl, next, left - 1, &bind)?;
            match_at(
                image,
                templates,
                first.tpl,
                first.next,
                left - 1,
                &first.bind,
            )
        }
    }
}
