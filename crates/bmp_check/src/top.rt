//! The comparisons of the greatest vertex.
ghost use Rattle.std.specs.Prelude.{◌≡◌, ◌≢◌, ◌≤◌, None, Some, length, MatchResult, IfErr};
ghost use Rattle.bmp_check.specs.Comparisons.{first_failure};
ghost use Rattle.bmp_check.specs.Verdicts.{top_comparisons};
ghost use Rattle.bmp_check.specs.ShapedViews.{written_in};

use crate::Refusal;
use crate::given::Given;
use bmp_cover::Kind;

/// Compares the number of generators of the greatest vertex with 1, and then the degree of that one with 0.
/// Takes no memory.
pub fn check_top(c: &Given) -> Result<(), Refusal>
    requires { 1 ≤ length c.now.parts.now }
    ensures first { MatchResult result
        (λ _. first_failure (top_comparisons (written_in c.now)) ≡ None)
        (λ r. first_failure (top_comparisons (written_in c.now)) ≡ Some r) }
    ensures differ { IfErr result (λ r. r.left ≢ r.right) }
{
    let degrees = &c.parts.at(0).degrees;
    let refusal = Refusal {
        vertex: c.parts.len() - 1,
        degree: 0,
        kind: Kind::Top,
        index: 0,
        place: 0,
        left: u64::from(degrees.len()),
        right: 1,
    };
    if degrees.len() != 1 {
        return Err(refusal);
    }
    let own = degrees.at(0);
    if own != 0 {
        return Err(Refusal {
            index: 1,
            left: u64::from(own),
            right: 0,
            ..refusal
        });
    }
    Ok(())
}
