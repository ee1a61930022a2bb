// A send: the method is sought through the cache, and answers without a frame or runs in a new one. The step is plain's specs/Step.antt.
#![tactic(auto)]

ghost use Rattle.std.specs.Prelude.{◌≡◌, true, ◌+◌, ◌≤◌, ◌<◌, length, get_or, set};
ghost use Rattle.std.proofs.lemmas.List.Edits.{sets};
ghost use Rattle.model.specs.Objects.{class_of, part};
ghost use Rattle.model.specs.Method.{home};
ghost use Rattle.model.specs.Lookup.{in_chain};
ghost use Rattle.plain.specs.Running.{Sending};
ghost use Rattle.cache.specs.Caches.{Caches};
ghost use Rattle.frames.specs.Words.{new_words};
ghost use Rattle.frames.specs.Active.{written, IsActive};
ghost use Rattle.activation.specs.Activating.{Activable, Activates};
ghost use Rattle.sends.specs.Sends.{Guarded, Framing, BaseIs, Enters, Sends};
ghost use Rattle.readers.specs.Lent.{objects_in, In, On};

use activation::Activated;
use frames::{Active, Message};
use model::{CodePosition, Pointer, StackPosition, limits};
use readers::Memory;

// The frame of a method, how many temporaries it has and where it ends; or the stack is full; or the receiver is none for the method. Three
// outcomes, of which two differ in what follows: a Result of an enum of the two would be matched twice.
#[derive(Clone, Copy)]
enum Base {
    At {
        frame: Active,
        temporaries: usize,
        end: usize,
    },
    Full,
    Unfit,
}

// What a send leads to: an answer, with the number of objects and body words then; or a new top frame, and where it ends; either with the
// dictionaries that its lookup read. Or the stack is full, and the handler halts; or the send fails, which is no error, since its message may be sent.
#[derive(Clone, Copy)]
pub enum Sent {
    Answered {
        n: usize,
        b: usize,
        dictionaries: usize,
    },
    Entered {
        frame: Active,
        end: usize,
        dictionaries: usize,
    },
    Full,
    Failed,
}

// Argument i of `count` in the stack. 0 is no missing value here: it is what a primitive is handed for an argument that the send has not.
fn argument(stack: &[u16], from: usize, count: usize, i: usize) -> u16
    requires { from + count ≤ length stack.now }
    ensures { result ≡ get_or (part stack.now from count) i 0 }
{
    if i < count { stack[from + i] } else { 0 }
}

// What a method does on the receiver at a place and the arguments above it. Most run in a frame at once: their flag alone is read here.
fn acted(
    contents: &mut [u16],
    bodies: &mut [u16],
    stack: &[u16],
    edition: u16,
    n: usize,
    b: usize,
    method: Pointer,
    place: usize,
    count: usize,
) -> Activated
    requires { Activable n b contents.old bodies.old method.0 (get_or stack.now place 0) × (place + 1 + count ≤ length stack.now) }
    ensures { Activates edition n b contents.old bodies.old method.0 (get_or stack.now place 0)
        (get_or (part stack.now (place + 1) count) 0 0) (get_or (part stack.now (place + 1) count) 1 0)
        contents.new bodies.new result }
{
    let memory = &Memory {
        contents,
        bodies,
        n,
        b,
    };
    if readers::flag(objects::header(memory, method)) < limits::ANSWER_SELF {
        return Activated::Frame;
    }
    let receiver = stack[place];
    let first = argument(stack, place + 1, count, 0);
    let second = argument(stack, place + 1, count, 1);
    activation::act(
        contents, bodies, edition, n, b, method, receiver, first, second,
    )
}

// Whether the method's home is in the receiver's class chain; a sure send need not look.
pub fn runs_on(memory: &Memory, method: Pointer, receiver: u16, sure: bool) -> bool
    requires { In Guarded memory.now method.0 receiver sure }
    ensures { result ≡ in_chain (objects_in memory.now)
        (home (objects_in memory.now) method.0)
        (class_of (objects_in memory.now) receiver) }
{
    if sure {
        return true;
    }
    let home = objects::home(memory, method);
    let class = objects::class_of(memory, receiver);
    objects::in_chain(memory, home, class)
}

// The frame of a method above that of the running one, in a stack of `room` words.
fn new_frame(
    memory: &Memory,
    room: usize,
    top: StackPosition,
    running: Pointer,
    method: Pointer,
    receiver: u16,
    sure: bool,
) -> Base
    requires { On Framing memory.now top.0 running.0 method.0 receiver sure }
    ensures { BaseIs (objects_in memory.now) room top.0 running.0 method.0 receiver result }
{
    if !runs_on(memory, method, receiver, sure) {
        return Base::Unfit;
    }
    let base = StackPosition(frames::end_of(memory, top, running));
    let end = frames::end_of(memory, base, method);
    if room < end || limits::MOST_STACK_WORDS < end {
        return Base::Full;
    }
    let code = objects::code_of(memory, method);
    let temporaries = readers::temporary_count(objects::header(memory, method));
    let operands = StackPosition(frames::first_temporary(base) + temporaries);
    Base::At {
        frame: Active {
            base,
            code: code.from,
            limit: code.end,
            operands,
            position: CodePosition(0),
            end: operands,
        },
        temporaries,
        end,
    }
}

// The frame of a method is made at a base, and the top one goes on behind the send, with the operands that are left.
fn make_frame(
    stack: &mut [u16],
    top: StackPosition,
    next: CodePosition,
    left: usize,
    base: usize,
    method: Pointer,
    receiver: u16,
    temporaries: usize,
    from: usize,
    count: usize,
)
    requires { Enters stack.old top.0 next.0 left base temporaries from count }
    ensures { stack.new
        ≡ sets (set (set stack.old (top.0 + 1) next.0) (top.0 + 2) left) base
        (new_words top.0 method.0 receiver temporaries (part stack.old from count)) }
{
    let mut arguments = [0u16; limits::LARGE_FRAME];
    words::copy(&mut arguments, 0, stack, from, count);
    frames::move_to(stack, top, next, left);
    frames::write_frame(
        &mut stack[base..],
        top,
        method,
        receiver,
        temporaries,
        count,
        &arguments,
    );
}

// A send by the running frame. Where it is answered, the frame is still held: only the word in the receiver's place is written.
pub fn send(
    contents: &mut [u16],
    bodies: &mut [u16],
    stack: &mut [u16],
    cache: &mut [u16],
    edition: u16,
    n: usize,
    b: usize,
    active: Active,
    message: Message,
) -> Sent
    requires { IsActive n b contents.old bodies.old stack.old active
        × Sending n b active.base.0 contents.old bodies.old (written active stack.old) message.selector message.count message.class.0 message.next.0
        message.sure
        × Caches n b contents.old bodies.old cache.old
        × (message.next.0 < 65536) }
    ensures { Sends edition n b active message contents.old bodies.old stack.old cache.old
        contents.new bodies.new stack.new cache.new result }
{
    let selector = message.selector;
    let class = message.class;
    let count = message.count;
    let memory = &Memory {
        contents,
        bodies,
        n,
        b,
    };
    let lookup = cache::cached(memory, cache, selector, class);
    let dictionaries = lookup.dictionaries;
    let Some(method) = lookup.found else {
        return Sent::Failed;
    };
    let top = active.base;
    let place = active.end.0 - 1 - count;
    let running = Pointer(stack[top.0 + limits::FRAME_METHOD]);
    let receiver = stack[place];
    let done = acted(contents, bodies, stack, edition, n, b, method, place, count);
    match done {
        Activated::Answer { word, n, b } => {
            stack[place] = word;
            cache::fill(cache, selector, class, method, dictionaries);
            Sent::Answered { n, b, dictionaries }
        }
        Activated::Unfit => Sent::Failed,
        Activated::Frame => {
            let memory = &Memory {
                contents,
                bodies,
                n,
                b,
            };
            let room = stack.len();
            let fit = new_frame(memory, room, top, running, method, receiver, message.sure);
            match fit {
                Base::At {
                    frame,
                    temporaries,
                    end,
                } => {
                    make_frame(
                        stack,
                        top,
                        message.next,
                        place - active.operands.0,
                        frame.base.0,
                        method,
                        receiver,
                        temporaries,
                        place + 1,
                        count,
                    );
                    cache::fill(cache, selector, class, method, dictionaries);
                    Sent::Entered {
                        frame,
                        end,
                        dictionaries,
                    }
                }
                Base::Full => Sent::Full,
                Base::Unfit => Sent::Failed,
            }
        }
    }
}
