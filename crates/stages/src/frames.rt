// What the calls on a frame judge alike: its sides and the length of its ink, the capacity and scratch.
ghost use Rattle.std.specs.Prelude.{◌≡◌, ◌*◌, ◌≤◌};
ghost use Rattle.memory.specs.rules.Limits.{max_frame_width, max_frame_height};
ghost use Rattle.memory.specs.rules.Refusals.{answer_number};
ghost use Rattle.stages.specs.rules.Frames.{frame_refusal, room_refusal};

use memory::{MAX_FRAME_HEIGHT, MAX_FRAME_WIDTH, Refusal, scratch_words};

// The greatest capacity, as the counts of places are.
const MAX_CAPACITY: usize = memory::MAX_CAPACITY as usize;

// Whether the sides and the ink's length are as they must be.
#[tactic(auto, unfolding(crate::specs::rules::Frames::frame_refusal, memory::specs::rules::Refusals::refuse_if))]
pub fn judge_frame(width: u32, height: u32, ink: usize) -> Result<(), Refusal>
    ensures { answer_number result ≡ frame_refusal width height ink 0 }
{
    if (width == 0) | (MAX_FRAME_WIDTH < width) {
        return Err(Refusal::Sides);
    }
    if (height == 0) | (MAX_FRAME_HEIGHT < height) {
        return Err(Refusal::Sides);
    }
    if ink != (width as usize) * (height as usize) {
        return Err(Refusal::MaskLength);
    }
    Ok(())
}

// Whether the capacity and the length of scratch are as they must be.
#[tactic(auto, unfolding(crate::specs::rules::Frames::room_refusal, memory::specs::rules::Refusals::refuse_if))]
pub fn judge_room(dots: usize, capacity: usize, words: usize) -> Result<(), Refusal>
    requires { (dots ≤ max_frame_width * max_frame_height) × (capacity ≤ 4294967295) }
    ensures { answer_number result ≡ room_refusal dots capacity words 0 }
{
    if (capacity == 0) | (MAX_CAPACITY < capacity) {
        return Err(Refusal::Capacity);
    }
    if words < scratch_words(dots, capacity as u32) {
        return Err(Refusal::Lent);
    }
    Ok(())
}
