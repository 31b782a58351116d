// The rows of the rule table, by rule number.
ghost use Rattle.std.specs.Prelude.{◌≡◌};
ghost use Rattle.rules_table.specs.RuleTable.{rule_row};

// What a line states: an interval in an interval, an implication, a Hoare triple, a Hoare triple of a whole pair. Unlisted is the form of a
// number that no rule has.
// image_bodies::line::Form has these variants too: this crate stands beside the image's and knows none of them.
#[derive(Clone, Copy, PartialEq, Eq)]
pub enum Form {
    Inclusion,
    Implication,
    Triple,
    Pair,
    Unlisted,
    // Another number that a conclusion is given for its form, by how much it is above 5. No rule has such a form, and none of the image's
    // lines; two of them are the same form if they are the same number.
    Other(u8),
}

impl Form {
    ghost use Rattle.rules_table.specs.RuleTable.{form_number, form_numbered};

    // The form with this number, two bits in a row's `forms`.
    // No `From<u8>`: a form is made of a rule's number too (`form_at`), so the name says which number is meant.
    #[tactic(auto, using(crate::proofs::RuleForms::numbered_past))]
    pub fn from_bits(bits: u8) -> Form
        ensures { result ≡ form_numbered bits }
    {
        match bits {
            0 => Form::Inclusion,
            1 => Form::Implication,
            2 => Form::Triple,
            3 => Form::Pair,
            _ => Form::Unlisted,
        }
    }

    // The form of any number, for a caller that keeps forms as numbers.
    #[tactic(auto, using(crate::proofs::RuleForms::forms_by_number, limits::proofs::BranchTests::tests))]
    pub fn numbered(number: u8) -> Form
        ensures { form_number result ≡ number }
    {
        if number < 5 {
            Form::from_bits(number)
        } else {
            Form::Other(number - 5)
        }
    }
}

// The side conditions of rules; a rule has one of them.
#[derive(Clone, Copy, PartialEq, Eq)]
pub enum Side {
    Nothing,
    // Rule 1: the instruction preserves the assertion.
    Kept,
    // Rules 2 and 50: P is Q with each assigned register replaced by its formula; P is the left side, of rule 50 the premise's right side.
    Assigned,
    // Rules 3, 4 and 47: the left test is the right one with the register replaced by the word.
    Loaded,
    // Rules 8 and 13: neither the word, in any role, nor the result register occurs in J.
    WordAbsent,
    // Rule 9: the second test is the first with the word replaced by the formula; neither flag of the word occurs in the first.
    Stored,
    // Rules 21, 23, 24 and 30: the left test implies the right one, by rows.
    ByRows,
    // Rule 20: the premises imply the line, by truth table.
    ByTable,
    // Rule 26: the constant is the word's start value.
    StartValue,
    // Rules 48 and 49: the value is that of the new write, as it reads after the step.
    NewValue,
    // Rule 27: the register starts at 0.
    StartsAtZero,
}

impl Side {
    ghost use Rattle.rules_table.specs.RuleTable.{side_numbered};

    // The side condition with this number, for a caller that keeps them as numbers; a number past the last one is judged as that of rules
    // 8 and 13.
    #[tactic(auto, using(crate::proofs::RuleForms::side_past))]
    pub fn numbered(number: u8) -> Side
        ensures { result ≡ side_numbered number }
    {
        match number {
            0 => Side::Nothing,
            1 => Side::Kept,
            2 => Side::Assigned,
            3 => Side::Loaded,
            5 => Side::Stored,
            6 => Side::ByRows,
            7 => Side::ByTable,
            8 => Side::StartValue,
            9 => Side::NewValue,
            10 => Side::StartsAtZero,
            _ => Side::WordAbsent,
        }
    }
}

// The operations that a rule allows: bit k stands for operation k. Each set is named by what its operations do.
#[derive(Drop)]
pub struct Operations {}

impl Operations {
    // Implications and inclusions are about no instruction.
    pub const NONE: u16 = 0;
    // Operations 0 and 12: an assignment, and two at once.
    pub const ASSIGNMENTS: u16 = 1 + 4096;
    // Operations 1 and 2: relaxed and acquiring.
    pub const LOADS: u16 = 2 + Self::ACQUIRING_LOAD;

    pub const ACQUIRING_LOAD: u16 = 4;
    // Operations 3 and 4: relaxed and releasing.
    pub const STORES: u16 = 8 + Self::RELEASING_STORE;

    pub const RELEASING_STORE: u16 = 16;
    // Operation 5, which drops the old value.
    pub const SWAP: u16 = 32;
    // Operations 7 and 8: exchange and fetch-add, which put the old value into a register.
    pub const UPDATES: u16 = 128 + 256;
    // Operations 9, 10 and 11: a store or a swap, and an assignment in the same step.
    pub const PAIRS: u16 = 512 + 1024 + 2048;

    pub const READ_MODIFY_WRITES: u16 = Self::SWAP + Self::UPDATES;
    // What joins the stored view of a releasing write.
    pub const ACQUIRES: u16 = Self::ACQUIRING_LOAD + Self::READ_MODIFY_WRITES;

    pub const STORES_AND_SWAP: u16 = Self::STORES + Self::SWAP;

    pub const WRITES: u16 = Self::STORES + Self::READ_MODIFY_WRITES;
    // What touches a shared word.
    pub const ACCESSES: u16 = Self::LOADS + Self::WRITES;

    pub const ALL_BUT_PAIRS: u16 = Self::ASSIGNMENTS + Self::ACCESSES;
}

// A row: where the rule's templates begin; the operations that it allows, a bit each; the form of its lines; how many premises, and their
// forms, two bits each from the lowest (rule 20 has 5 here and any number up to four); its side condition. A row has few bytes,
// because the table is made anew for each look-up.
#[derive(Clone, Copy)]
pub struct Rule {
    pub template: u16,
    pub operations: u16,
    pub form: Form,
    pub premises: u8,
    pub forms: u8,
    pub side: Side,
}

// Numbers of the table.
#[derive(Drop)]
pub struct Rules {}

impl Rules {
    pub const COUNT: u8 = 51;
    // The premise count of rule 20, which has 0 to 4 implications.
    pub const IMPLICATIONS: u8 = 5;
}

// The row of a number that no rule has.
const UNLISTED: Rule = Rule {
    form: Form::Unlisted,
    template: 0,
    premises: 0,
    forms: 0,
    operations: Operations::NONE,
    side: Side::Nothing,
};

// The row of each rule, by its number.
pub const RULES: [Rule; 51] = [
    UNLISTED,
    Rule {
        form: Form::Triple,
        template: 0,
        premises: 0,
        forms: 0,
        operations: Operations::ACCESSES,
        side: Side::Kept,
    },
    Rule {
        form: Form::Triple,
        template: 2,
        premises: 0,
        forms: 0,
        operations: Operations::ASSIGNMENTS,
        side: Side::Assigned,
    },
    Rule {
        form: Form::Triple,
        template: 4,
        premises: 0,
        forms: 0,
        operations: Operations::LOADS,
        side: Side::Loaded,
    },
    Rule {
        form: Form::Triple,
        template: 10,
        premises: 1,
        forms: 2,
        operations: Operations::LOADS,
        side: Side::Loaded,
    },
    Rule {
        form: Form::Triple,
        template: 24,
        premises: 1,
        forms: 2,
        operations: Operations::ACQUIRES,
        side: Side::Nothing,
    },
    Rule {
        form: Form::Triple,
        template: 36,
        premises: 0,
        forms: 0,
        operations: Operations::STORES,
        side: Side::Nothing,
    },
    Rule {
        form: Form::Triple,
        template: 50,
        premises: 0,
        forms: 0,
        operations: Operations::STORES,
        side: Side::Nothing,
    },
    Rule {
        form: Form::Triple,
        template: 70,
        premises: 0,
        forms: 0,
        operations: Operations::RELEASING_STORE,
        side: Side::WordAbsent,
    },
    Rule {
        form: Form::Triple,
        template: 91,
        premises: 0,
        forms: 0,
        operations: Operations::STORES_AND_SWAP,
        side: Side::Stored,
    },
    Rule {
        form: Form::Triple,
        template: 104,
        premises: 1,
        forms: 2,
        operations: Operations::WRITES,
        side: Side::Nothing,
    },
    Rule {
        form: Form::Triple,
        template: 116,
        premises: 0,
        forms: 0,
        operations: Operations::SWAP,
        side: Side::Nothing,
    },
    Rule {
        form: Form::Triple,
        template: 134,
        premises: 0,
        forms: 0,
        operations: Operations::SWAP,
        side: Side::Nothing,
    },
    Rule {
        form: Form::Triple,
        template: 165,
        premises: 0,
        forms: 0,
        operations: Operations::READ_MODIFY_WRITES,
        side: Side::WordAbsent,
    },
    Rule {
        form: Form::Triple,
        template: 197,
        premises: 2,
        forms: 10,
        operations: Operations::ALL_BUT_PAIRS,
        side: Side::Nothing,
    },
    Rule {
        form: Form::Triple,
        template: 207,
        premises: 2,
        forms: 10,
        operations: Operations::ALL_BUT_PAIRS,
        side: Side::Nothing,
    },
    Rule {
        form: Form::Triple,
        template: 217,
        premises: 3,
        forms: 25,
        operations: Operations::ALL_BUT_PAIRS,
        side: Side::Nothing,
    },
    UNLISTED,
    UNLISTED,
    UNLISTED,
    Rule {
        form: Form::Implication,
        template: 225,
        premises: Rules::IMPLICATIONS,
        forms: 0,
        operations: Operations::NONE,
        side: Side::ByTable,
    },
    Rule {
        form: Form::Implication,
        template: 227,
        premises: 0,
        forms: 0,
        operations: Operations::NONE,
        side: Side::ByRows,
    },
    Rule {
        form: Form::Implication,
        template: 231,
        premises: 1,
        forms: 0,
        operations: Operations::NONE,
        side: Side::Nothing,
    },
    Rule {
        form: Form::Implication,
        template: 239,
        premises: 0,
        forms: 0,
        operations: Operations::NONE,
        side: Side::ByRows,
    },
    Rule {
        form: Form::Implication,
        template: 245,
        premises: 0,
        forms: 0,
        operations: Operations::NONE,
        side: Side::ByRows,
    },
    Rule {
        form: Form::Implication,
        template: 251,
        premises: 0,
        forms: 0,
        operations: Operations::NONE,
        side: Side::Nothing,
    },
    Rule {
        form: Form::Implication,
        template: 263,
        premises: 0,
        forms: 0,
        operations: Operations::NONE,
        side: Side::StartValue,
    },
    Rule {
        form: Form::Implication,
        template: 274,
        premises: 0,
        forms: 0,
        operations: Operations::NONE,
        side: Side::StartsAtZero,
    },
    UNLISTED,
    UNLISTED,
    Rule {
        form: Form::Inclusion,
        template: 281,
        premises: 0,
        forms: 0,
        operations: Operations::NONE,
        side: Side::ByRows,
    },
    Rule {
        form: Form::Inclusion,
        template: 285,
        premises: 2,
        forms: 0,
        operations: Operations::NONE,
        side: Side::Nothing,
    },
    Rule {
        form: Form::Inclusion,
        template: 291,
        premises: 2,
        forms: 0,
        operations: Operations::NONE,
        side: Side::Nothing,
    },
    Rule {
        form: Form::Inclusion,
        template: 301,
        premises: 0,
        forms: 0,
        operations: Operations::NONE,
        side: Side::Nothing,
    },
    Rule {
        form: Form::Inclusion,
        template: 311,
        premises: 0,
        forms: 0,
        operations: Operations::NONE,
        side: Side::Nothing,
    },
    Rule {
        form: Form::Inclusion,
        template: 321,
        premises: 0,
        forms: 0,
        operations: Operations::NONE,
        side: Side::Nothing,
    },
    Rule {
        form: Form::Inclusion,
        template: 325,
        premises: 0,
        forms: 0,
        operations: Operations::NONE,
        side: Side::Nothing,
    },
    Rule {
        form: Form::Inclusion,
        template: 329,
        premises: 0,
        forms: 0,
        operations: Operations::NONE,
        side: Side::Nothing,
    },
    Rule {
        form: Form::Inclusion,
        template: 336,
        premises: 0,
        forms: 0,
        operations: Operations::NONE,
        side: Side::Nothing,
    },
    Rule {
        form: Form::Inclusion,
        template: 348,
        premises: 0,
        forms: 0,
        operations: Operations::NONE,
        side: Side::Nothing,
    },
    Rule {
        form: Form::Inclusion,
        template: 352,
        premises: 0,
        forms: 0,
        operations: Operations::NONE,
        side: Side::Nothing,
    },
    Rule {
        form: Form::Inclusion,
        template: 356,
        premises: 2,
        forms: 0,
        operations: Operations::NONE,
        side: Side::Nothing,
    },
    Rule {
        form: Form::Inclusion,
        template: 364,
        premises: 0,
        forms: 0,
        operations: Operations::NONE,
        side: Side::Nothing,
    },
    Rule {
        form: Form::Inclusion,
        template: 368,
        premises: 0,
        forms: 0,
        operations: Operations::NONE,
        side: Side::Nothing,
    },
    Rule {
        form: Form::Inclusion,
        template: 372,
        premises: 2,
        forms: 0,
        operations: Operations::NONE,
        side: Side::Nothing,
    },
    Rule {
        form: Form::Inclusion,
        template: 380,
        premises: 0,
        forms: 0,
        operations: Operations::NONE,
        side: Side::Nothing,
    },
    Rule {
        form: Form::Inclusion,
        template: 389,
        premises: 0,
        forms: 0,
        operations: Operations::NONE,
        side: Side::Nothing,
    },
    Rule {
        form: Form::Triple,
        template: 4,
        premises: 0,
        forms: 0,
        operations: Operations::UPDATES,
        side: Side::Loaded,
    },
    Rule {
        form: Form::Triple,
        template: 391,
        premises: 0,
        forms: 0,
        operations: Operations::UPDATES,
        side: Side::NewValue,
    },
    Rule {
        form: Form::Triple,
        template: 409,
        premises: 0,
        forms: 0,
        operations: Operations::UPDATES,
        side: Side::NewValue,
    },
    Rule {
        form: Form::Pair,
        template: 440,
        premises: 1,
        forms: 2,
        operations: Operations::PAIRS,
        side: Side::Assigned,
    },
];

// The row of the rule with this number; for a number that no rule has, the row of an unlisted rule.
#[tactic(auto, using(crate::proofs::TableRows::row_past))]
pub fn rule_at(number: u8) -> Rule
    ensures { result ≡ rule_row number }
{
    if number < Rules::COUNT {
        RULES[usize::from(number)]
    } else {
        UNLISTED
    }
}

// The form of a rule's lines, by comparisons, which are quicker than the table: rules 1 to 16 are of triples, 20 to 27 of implications, 30
// to 46 of inclusions, 47 to 49 of triples, 50 of triples of whole pairs.
// A function and no `From`: docs/DECISIONS.md names it ("Forms named for a place").
#[tactic(auto, using(crate::proofs::RuleForms::form_at_branches), unfolding(crate::proofs::RuleForms::form_by))]
pub fn form_at(number: u8) -> Form
    ensures { result ≡ (rule_row number).form }
{
    match number {
        1..=16 | 47..=49 => Form::Triple,
        20..=27 => Form::Implication,
        30..=46 => Form::Inclusion,
        50 => Form::Pair,
        _ => Form::Unlisted,
    }
}
