//! How many objects a text may open.

ghost use Rattle.std.specs.Prelude.{◌≡◌};
ghost use Rattle.metadata_reading.specs.Braces as spec;

/// The most opening braces of a text, in strings too. docs/DECISIONS.md, "A bound on braces".
pub const MOST_BRACES: usize = 1_000_000;

/// Whether the text has more opening braces than that.
pub fn has_too_many_braces(text: &[u8]) -> bool
    ensures { result ≡ spec.has_too_many text.now }
{
    count_braces(text) > MOST_BRACES
}

#[tactic(auto, using(crate::proofs::BraceSteps::counted, crate::proofs::BraceSteps::passed_over, crate::proofs::BraceSteps::none_yet, crate::proofs::BraceSteps::all_counted))]
fn count_braces(text: &[u8]) -> usize
    ensures { result ≡ spec.braces text.now }
{
    let mut count = 0;
    for i in 0..text.len() {
        if !is_brace(text[i]) {
            continue;
        }
        count += 1;
    }
    count
}

fn is_brace(byte: u8) -> bool
    ensures { result ≡ spec.is_brace byte }
{
    byte == b'{'
}
