// The matcher for callers that do not need the formula's end, which is then not computed.
#![tactic(auto, using(crate::proofs::MatchWholeBranches::whole_ways))]

ghost use Rattle.std.specs.Prelude.{◌≡◌};
ghost use Rattle.formula_match.specs.MatchPlaces.{whole_at};

use crate::bind::{Bind, Rest, Root};
use crate::matching::{match_at, match_root};

// The position past a template that fits, and the bindings of the holes.
#[derive(Clone, Copy)]
pub struct Whole {
    pub tpl: usize,
    pub bind: Bind,
}

// `i`, `at`, `left` and the bindings change apart from each other at each step, so a struct of them would be made anew in every call.
// Matches the template at `i` with the formula at `at`, nested at most `left` deep, without the position past the formula.
pub fn match_whole(
    image: &[u8],
    templates: &[u8],
    i: usize,
    at: usize,
    left: u8,
    bind: Bind,
) -> Option<Whole>
    ensures { result ≡ whole_at image.now templates.now left i at bind }
{
    let Root { tpl, rest, bind } = match_root(image, templates, i, at, left, &bind)?;
    match rest {
        Rest::Nothing(_) | Rest::Taken => Some(Whole { tpl, bind }),
        Rest::One(next) => match_whole(image, templates, tpl, next, left - 1, bind),
        Rest::Two(next) => {
            let first = match_at(image, templates, tpl, next, left - 1, &bind)?;
            match_whole(
                image,
                templates,
                first.tpl,
                first.next,
                left - 1,
                first.bind,
            )
        }
    }
}
