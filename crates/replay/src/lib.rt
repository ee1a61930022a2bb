// A list of calls on an image that is loaded first. The promise of `replay` is the theorem over lists of calls, for this list.
#![tactic(auto)]

ghost use Rattle.plain.specs.Registers as R;
ghost use Rattle.plain.specs.Flat.{flat};
ghost use Rattle.replay.specs.Replays.{Replays};

use machine::Made;
use model::Refusal;

// The image is loaded, then the calls are made as `Registers::play` makes them. Load leaves a state that check accepts, so nothing is checked twice. A
// refused image is all that is done.
pub fn replay(
    image: &[u8],
    calls: &[u16],
    contents: &mut [u16],
    bodies: &mut [u16],
    stack: &mut [u16],
    cache: &mut [u16],
    answers: &mut [u32],
) -> Result<Made, Refusal>
    ensures { (g : R.Registers)
        → Replays (flat g contents.old bodies.old stack.old cache.old) image.now
        calls.now answers.old contents.new bodies.new stack.new cache.new
        answers.new result }
{
    let start = loads::load(image, contents, bodies, cache)?;
    let made = start.play_checked(contents, bodies, stack, cache, calls, answers);
    Ok(made)
}
