// A bytecode of a running handler, whole: the step, and the sends and returns that it leaves to be made.
#![tactic(auto)]

ghost use Rattle.std.specs.Prelude.{ℕ, ◌<◌};
ghost use Rattle.plain.specs.Running.{Runs};
ghost use Rattle.cache.specs.Caches.{Caches};
ghost use Rattle.frames.specs.Active.{IsActive};
ghost use Rattle.interpreter.specs.Advances.{Returned, AdvancedIs};
ghost use Rattle.readers.specs.Lent.{On};

use frames::{Active, Message};
use model::{CodePosition, Halt, StackPosition};
use readers::Memory;
use sends::Sent;
use steps::Event;

// What a bytecode leads to: the running frame goes on, at another position and with operands up to another end, after a send that was
// answered with the number of objects and body words then; or a new frame is on top, which ends at `end`; both with the dictionaries that the lookup read; or the frame below is, after a
// return; or the value that the run finishes with; or a send that failed, whose message may be sent; or a halt.
#[derive(Clone, Copy)]
pub enum Advanced {
    Next {
        position: CodePosition,
        end: StackPosition,
    },
    Answered {
        n: usize,
        b: usize,
        position: CodePosition,
        end: StackPosition,
        dictionaries: usize,
    },
    Top {
        frame: Active,
        end: usize,
        dictionaries: usize,
    },
    Below(Active),
    Finished(u16),
    Failed(Message),
    Halted(Halt),
}

// A return above the bottom: the sender's frame is taken, and the word is pushed on it.
fn return_to(memory: &Memory, stack: &mut [u16], top: StackPosition, w: u16) -> Active
    requires { On Runs memory.now top.0 stack.old × (0 < top.0) }
    ensures { On Returned memory.now top.0 stack.old stack.new w result }
{
    let sender = frames::sender(stack, top);
    let mut active = frames::hold(memory, stack, sender);
    let end = active.end.0;
    stack[end] = w;
    active.end = StackPosition(end + 1);
    active
}

// A whole bytecode. The frame's words for position and depth are written but where it goes on.
pub fn advance(
    contents: &mut [u16],
    bodies: &mut [u16],
    stack: &mut [u16],
    cache: &mut [u16],
    edition: u16,
    n: usize,
    b: usize,
    active: Active,
) -> Advanced
    requires { IsActive n b contents.old bodies.old stack.old active × Caches n b contents.old bodies.old cache.old }
    ensures { (receiver selector : ℕ)
        → AdvancedIs edition receiver selector n b active contents.old bodies.old stack.old cache.old
        contents.new bodies.new stack.new cache.new result }
{
    match steps::step(contents, bodies, stack, n, b, active) {
        Event::Next { position, end } => Advanced::Next { position, end },
        Event::Send(message) => {
            match sends::send(
                contents, bodies, stack, cache, edition, n, b, active, message,
            ) {
                Sent::Answered { n, b, dictionaries } => Advanced::Answered {
                    n,
                    b,
                    position: message.next,
                    end: StackPosition(active.end.0 - message.count),
                    dictionaries,
                },
                Sent::Entered {
                    frame,
                    end,
                    dictionaries,
                } => Advanced::Top {
                    frame,
                    end,
                    dictionaries,
                },
                Sent::Full => {
                    active.leave(stack);
                    Advanced::Halted(Halt::NoStackRoom)
                }
                Sent::Failed => {
                    active.leave(stack);
                    Advanced::Failed(message)
                }
            }
        }
        Event::Return(w) => {
            active.leave(stack);
            if active.base.0 == 0 {
                return Advanced::Finished(w);
            }
            let memory = &Memory {
                contents,
                bodies,
                n,
                b,
            };
            Advanced::Below(return_to(memory, stack, active.base, w))
        }
        Event::Halt(halt) => {
            active.leave(stack);
            Advanced::Halted(halt)
        }
    }
}
