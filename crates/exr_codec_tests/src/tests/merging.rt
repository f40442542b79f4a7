//! Lengths by hand: the lightest trees lie deepest, and ties go by the least entry.

ghost use Rattle.std.specs.Prelude.{◌≡◌, sum, IfSome};

use super::expect;
use exr_base::NoMemory;
use exr_merging::lengths_by_merging;
use std::alloc::Global;
use std::test::Fail;

/// Weights and the lengths of their codes. With fewer than two entries that have a weight there is no code. In
/// 1, 2, 2, 1 entries 0 and 3 become a tree of weight 2 whose least entry is 0, so entry 1 is merged with that tree and
/// not with entry 2. In the last row each weight is the sum of the two before it, so that each merging takes the tree
/// that was just made.
const BY_HAND: &[(&[u32], &[u8])] = &[
    (&[], &[]),
    (&[0, 7, 0], &[0, 0, 0]),
    (&[3, 3], &[1, 1]),
    (&[2, 1, 0, 1], &[1, 2, 0, 2]),
    (&[1, 1, 1], &[2, 2, 1]),
    (&[1, 2, 2, 1], &[3, 2, 1, 3]),
    (&[2, 1, 1, 2], &[2, 3, 3, 1]),
    (&[0, 3, 2, 1, 1, 0, 1], &[0, 2, 2, 3, 3, 0, 2]),
    (
        &[
            1, 0, 0, 0, 0, 0, 0, 0, 0, 0, 0, 0, 0, 0, 0, 0, 0, 2, 0, 0, 3,
        ],
        &[
            2, 0, 0, 0, 0, 0, 0, 0, 0, 0, 0, 0, 0, 0, 0, 0, 0, 2, 0, 0, 1,
        ],
    ),
    (&[5, 9, 12, 13, 16, 45], &[4, 4, 3, 3, 3, 1]),
    (
        &[
            1, 1, 2, 3, 5, 8, 13, 21, 34, 55, 89, 144, 233, 377, 610, 987, 1597, 2584, 4181, 6765,
            10946, 17711, 28657, 46368, 75025, 121393,
        ],
        &[
            25, 25, 24, 23, 22, 21, 20, 19, 18, 17, 16, 15, 14, 13, 12, 11, 10, 9, 8, 7, 6, 5, 4,
            3, 2, 1,
        ],
    ),
];

fn total_of(weights: &[u32]) -> Option<u64>
    ensures { IfSome result (λ total. total ≡ sum weights.now) }
{
    let mut total = 0u64;
    for weight in weights {
        total = total.checked_add(u64::from(*weight))?;
    }
    Some(total)
}

/// Whether these are the lengths of the codes of some weights.
fn is_right(alloc: Global, weights: &[u32], lengths: &[u8]) -> Result<bool, NoMemory> {
    let Some(total) = total_of(weights) else {
        return Ok(false);
    };
    if weights.len() >= 100 || total > 1 << 25 {
        return Ok(false);
    }
    Ok(lengths_by_merging(alloc, weights)?.as_slice() == lengths)
}

#[test]
fn by_hand(rt: HostRuntime) -> Result<(), Fail> {
    for (case, (weights, lengths)) in BY_HAND.iter().enumerate() {
        expect(&rt, case, is_right(rt.alloc(), weights, lengths)?);
    }
    Ok(())
}
