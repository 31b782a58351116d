// The holes that a line's instruction fills before its templates are matched.
ghost use Rattle.std.specs.Prelude.{◌≡◌};
ghost use Rattle.rules_line.specs.Preset.{preset_at};

use formula_match::bind::Bind;

// The holes before the match: thread, word and register in the first three for numbers, the instruction's formula in the last for formulas.
#[tactic(auto, using(crate::proofs::Presets::preset_is))]
pub fn preset_at(thread: u8, word: u8, register: u8, formula: usize) -> Bind
    ensures { result ≡ preset_at thread word register formula }
{
    let t = u16::from(thread) + 1;
    let x = u16::from(word) + 1;
    let r = u16::from(register) + 1;
    Bind {
        at: [0, 0, 0, 0, formula],
        left: [0, 0, 0, 0, Bind::WHOLE],
        num: [t, x, r, 0, 0],
    }
}
