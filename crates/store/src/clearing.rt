// Clearing a store.
ghost use Rattle.std.specs.Prelude.{◌≡◌, []};
ghost use Rattle.store.specs.rules.Outcomes.{left, clear_left};
ghost use Rattle.memory.specs.rules.Refusals.{answer_number};

use judging::{EMPTY, STATE};
use memory::Refusal;

// Sets the state to empty and changes nothing else; the store may be spoiled.
pub fn clear(store: &mut [u32]) -> Result<(), Refusal>
    ensures { left (answer_number result) store.new [] ≡ clear_left store.old }
{
    if store.len() < 1 {
        return Err(Refusal::Lent);
    }
    store[STATE] = EMPTY;
    Ok(())
}
