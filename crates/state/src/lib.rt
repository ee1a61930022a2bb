// Parts of check's test of a state: phase and value, and the frames in the phases that have any.
#![tactic(auto)]

ghost use Rattle.std.specs.Prelude.{◌≡◌};
ghost use Rattle.checks.specs.Frame.{Noted};
ghost use Rattle.state.specs.Parts.{registers_fine, standing_fine};
ghost use Rattle.readers.specs.Lent.{objects_in, In};

use model::StackPosition;
use readers::Memory;

// A phase from 0 to 5; a value that is valid in phase 2, else 0.
pub fn registers_fine(n: usize, phase: u16, value: u16) -> bool
    ensures { result ≡ registers_fine n phase value }
{
    match phase {
        2 => readers::is_valid(n, value),
        0..=5 => value == 0,
        _ => false,
    }
}

// The frames, in the phases that have any.
pub fn standing_fine(
    memory: &Memory,
    stack: &[u16],
    notes: &[u8],
    edition: u16,
    phase: u16,
    top: u16,
) -> bool
    requires { In (Noted edition) memory.now notes.now }
    ensures { result ≡ standing_fine edition (objects_in memory.now) stack.now phase top }
{
    match phase {
        0 | 2 => top == 0,
        _ => checks::frames_fine(memory, stack, notes, edition, StackPosition(top as usize)),
    }
}
