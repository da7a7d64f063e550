// The bytes and the sides of a mask.
ghost use Rattle.std.specs.Prelude.{◌≡◌};
ghost use Rattle.memory.specs.rules.Masks.{is_mask, is_mask_side, sides_refusal};
ghost use Rattle.memory.specs.rules.Refusals.{answer_number};

use crate::limits::{MAX_MASK_DOTS, MAX_MASK_SIDE};
use crate::numbers::area;
use crate::refusals::Refusal;

// Whether no byte is above 1: by the greatest, so that every byte is read alike and the compiler can take many at once.
pub fn is_mask(mask: &[u8]) -> bool
    ensures { result ≡ is_mask mask.now }
{
    let most = mask.iter().fold(0, |most: u8, byte| most.max(*byte));
    most <= 1
}

// Whether the sides and the count of dots of a mask are within their limits.
#[tactic(auto, unfolding(crate::specs::rules::Masks::sides_refusal, crate::specs::rules::Refusals::refuse_if))]
pub fn judge_sides(width: u32, height: u32) -> Result<(), Refusal>
    ensures { answer_number result ≡ sides_refusal width height 0 }
{
    if !(is_mask_side(width) & is_mask_side(height)) {
        return Err(Refusal::Sides);
    }
    if MAX_MASK_DOTS < area(width, height) {
        return Err(Refusal::Sides);
    }
    Ok(())
}

fn is_mask_side(n: u32) -> bool
    ensures { result ≡ is_mask_side n }
{
    (0 < n) & (n <= MAX_MASK_SIDE)
}
