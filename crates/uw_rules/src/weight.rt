// How much a pattern weighs, which bounds what a search costs for each byte.
ghost use Rattle.std.specs.Prelude.{◌≡◌, min, sum_by};
ghost use Rattle.uw_rules.specs.Weight.{repetition_weight, weight};

use regex_hir::Hir;

// The most that a pattern may weigh: docs/RULES.md has what the heaviest cost.
pub const MOST_WEIGHT: usize = 2_500;

// The weight of a tree, or the greatest number where it weighs more.
#[cycle(weight)]
pub fn weight_of(tree: &Hir) -> usize
    ensures { result ≡ min (weight tree.now) usize.MAX }
{
    match tree {
        Hir::Empty => 2,
        Hir::Literal(bytes) => bytes.len(),
        Hir::Bytes(_) => 2,
        Hir::Chars(class) => class.ranges.len() / 32 + 2,
        Hir::Look(_) => 2,
        Hir::Repetition { min, max, sub, .. } => repeated(*min, *max, weight_of(sub)),
        Hir::Capture { sub, .. } => weight_of(sub).saturating_add(4),
        Hir::Concat(subs) => weight_of_all(subs),
        Hir::Alternation(subs) => {
            weight_of_all(subs).saturating_add(subs.len().saturating_mul(2))
        }
    }
}

#[cycle(weight)]
fn weight_of_all(trees: &[Hir]) -> usize
    ensures { result ≡ min (sum_by weight trees.now) usize.MAX }
{
    let mut total: usize = 0;
    for tree in trees {
        total = total.saturating_add(weight_of(tree));
    }
    total
}

// The weight of a repetition of what weighs so.
fn repeated(least: u32, most: Option<u32>, each: usize) -> usize
    ensures { result ≡ min (repetition_weight least most each) usize.MAX }
{
    match most {
        None => each
            .saturating_mul(least.max(1) as usize)
            .saturating_mul(3)
            .saturating_add(2),
        Some(most) => {
            let optional = most.saturating_sub(least) as usize;
            each.saturating_mul(most as usize)
                .saturating_add(optional * 2)
        }
    }
}
