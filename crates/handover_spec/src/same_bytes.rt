// Comparison of byte strings.
ghost use Rattle.std.specs.Prelude.{◌≡◌};
ghost use Rattle.semantics.specs.Formula.{same_bytes};

// docs/DECISIONS.md names this function: its clause says what `==` finds in the word of the logic, `same_bytes`.
// Whether two byte strings are equal.
#[tactic(auto, using(crate::proofs::BytesAgree::by_elements, limits::proofs::BranchTests::tests))]
pub fn same_bytes(first: &[u8], second: &[u8]) -> bool
    ensures { result ≡ same_bytes first.now second.now }
{
    first == second
}
