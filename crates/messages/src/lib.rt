// A send that failed is sent once more, as a message (02, M-104). The step is plain's specs/Step.antt.
#![tactic(auto)]

ghost use Rattle.std.specs.Prelude.{◌≡◌, ◌&&◌, [], ◌∷◌, ℕ, suc, ◌+◌, ◌-◌, ◌≤◌, ◌<◌, eqb, length, set};
ghost use Rattle.std.proofs.lemmas.List.Edits.{sets};
ghost use Rattle.bytecode.specs.Constant.{false_word};
ghost use Rattle.std.specs.Prelude.{None};
ghost use Rattle.model.specs.Limits.{method_kind, primitive_flag};
ghost use Rattle.model.specs.Method.{flag, primitive_number};
ghost use Rattle.plain.specs.Running.{Runs};
ghost use Rattle.plain.specs.Flat.{frame_depth};
ghost use Rattle.objects.specs.Lent.{Holds};
ghost use Rattle.frames.specs.Words.{new_words};
ghost use Rattle.messages.specs.Resends.{Resends, Seeks, SoughtIs, ReceiverIs, PlacedIs, Enters, ResentIs};
ghost use Rattle.readers.specs.Lent.{objects_in, In, On};

use cache::Lookup;
use frames::Message;
use model::{CodePosition, Halt, Pointer, StackPosition, limits};
use readers::Memory;

// What the message leads to: a running handler, with the number of objects and body words then, its top frame and where that ends, and the
// dictionaries that the search read.
#[derive(Clone, Copy)]
pub struct Resent {
    pub n: usize,
    pub b: usize,
    pub top: StackPosition,
    pub end: usize,
    pub dictionaries: usize,
}

// The receiver of a send: its place in the stack, and how many operands lie below it.
#[derive(Clone, Copy)]
struct Receiver {
    place: usize,
    left: usize,
}

// A frame of a method that fits: its temporaries, and where it ends.
#[derive(Clone, Copy)]
struct Fitting {
    temporaries: usize,
    end: usize,
}

// A lookup that was not made. A constant of a struct is no plainer, and its promise would stand in both its uses.
fn nothing() -> Lookup
    ensures { result.found ≡ None }
{
    Lookup {
        found: None,
        dictionaries: 0,
    }
}

// The method under object 6 and the dictionaries that the search for it read, where the edition has messages and there is room for one.
fn sought(memory: &Memory, cache: &[u16], edition: u16, class: Pointer, count: usize) -> Lookup
    requires { In Seeks memory.now cache.now class.0 count }
    ensures { SoughtIs edition (objects_in memory.now) (length memory.now.contents.now) (length memory.now.bodies.now) class.0 count result }
{
    if !readers::edition::has_messages(edition) {
        return nothing();
    }
    let lookup = cache::cached(memory, cache, limits::FAILURE_SELECTOR, class);
    if !primitives::has_message_room(
        memory.contents.len(),
        memory.bodies.len(),
        memory.n,
        memory.b,
        count,
    ) {
        return nothing();
    }
    lookup
}

// Where the receiver of a send with so many arguments stands.
fn receiver_of(memory: &Memory, stack: &[u16], top: StackPosition, count: usize) -> Receiver
    requires { On Runs memory.now top.0 stack.now × (suc count ≤ frame_depth stack.now top.0) }
    ensures { On ReceiverIs memory.now top.0 stack.now count result }
{
    let base = top.0;
    let running = Pointer(stack[base + limits::FRAME_METHOD]);
    let depth = stack[base + limits::FRAME_DEPTH] as usize;
    let temporaries = readers::temporary_count(objects::header(memory, running));
    let left = depth - 1 - count;
    Receiver {
        place: frames::first_temporary(top) + temporaries + left,
        left,
    }
}

// Whether a method answers by primitive 110, the only one that succeeds with a message.
fn answers(memory: &Memory, method: Pointer) -> bool
    requires { In (Holds method_kind) memory.now method.0 }
    ensures { result ≡ (eqb (flag (objects_in memory.now) method.0) primitive_flag
        && eqb (primitive_number (objects_in memory.now) method.0) 110) }
{
    readers::flag(objects::header(memory, method)) == limits::PRIMITIVE
        && objects::primitive_number(memory, method) == 110
}

// A frame of a method at a base, if it fits in a stack of `room` words.
fn frame_at(memory: &Memory, room: usize, base: StackPosition, method: Pointer) -> Option<Fitting>
    requires { In (Holds method_kind) memory.now method.0 × (base.0 ≤ 131072) }
    ensures { PlacedIs (objects_in memory.now) room base.0 method.0 result }
{
    let end = frames::end_of(memory, base, method);
    if room < end || limits::MOST_STACK_WORDS < end {
        return None;
    }
    Some(Fitting {
        temporaries: readers::temporary_count(objects::header(memory, method)),
        end,
    })
}

// The frame of a method is made at a base with a message in its first temporary, and the top one goes on behind the send, with the operands that are left.
fn enter(
    stack: &mut [u16],
    top: StackPosition,
    next: CodePosition,
    left: usize,
    base: usize,
    method: Pointer,
    receiver: u16,
    temporaries: usize,
    message: u16,
)
    requires { Enters stack.old top.0 next.0 left base temporaries }
    ensures { stack.new
        ≡ sets (set (set stack.old (top.0 + 1) next.0) (top.0 + 2) left) base (new_words top.0 method.0 receiver temporaries (message ∷ [])) }
{
    let arguments = [message];
    frames::move_to(stack, top, next, left);
    frames::write_frame(
        &mut stack[base..],
        top,
        method,
        receiver,
        temporaries,
        1,
        &arguments,
    );
}

// false in the receiver's place, and the top frame goes on behind the send.
fn answer(stack: &mut [u16], top: StackPosition, next: CodePosition, left: usize, place: usize)
    requires { (top.0 + 2 < length stack.old) × (next.0 < 65536) × (left + 1 < 65536) × (place < length stack.old) }
    ensures { stack.new ≡ set (set (set stack.old place false_word) (top.0 + 1) next.0) (top.0 + 2) (left + 1) }
{
    stack[place] = limits::FALSE;
    frames::move_to(stack, top, next, left + 1);
}

// The message of a send by the top frame, whose words are written.
pub fn resend(
    contents: &mut [u16],
    bodies: &mut [u16],
    stack: &mut [u16],
    cache: &mut [u16],
    edition: u16,
    n: usize,
    b: usize,
    top: StackPosition,
    message: Message,
) -> Result<Resent, Halt>
    requires { Resends edition n b top.0 contents.old bodies.old stack.old cache.old message }
    ensures { (receiver selector : ℕ)
        → ResentIs edition receiver selector n b top.0 message contents.old bodies.old stack.old cache.old
        contents.new bodies.new stack.new cache.new result }
{
    let Message {
        class,
        count,
        selector,
        ..
    } = message;
    let memory = &Memory {
        contents,
        bodies,
        n,
        b,
    };
    let Lookup {
        found,
        dictionaries,
    } = sought(memory, cache, edition, class, count);
    let Some(method) = found else {
        return Err(Halt::NotUnderstood);
    };
    let Receiver { place, left } = receiver_of(memory, stack, top, count);
    let receiver = stack[place];
    let running = Pointer(stack[top.0 + limits::FRAME_METHOD]);
    let base = StackPosition(frames::end_of(memory, top, running));
    if answers(memory, method) {
        primitives::make_message(contents, bodies, stack, n, b, selector, place + 1, count);
        answer(stack, top, message.next, left, place);
        cache::fill(cache, limits::FAILURE_SELECTOR, class, method, dictionaries);
        return Ok(Resent {
            n: n + 2,
            b: b + (count + 2),
            top,
            end: base.0,
            dictionaries,
        });
    }
    if !sends::runs_on(memory, method, receiver, message.sure) {
        return Err(Halt::NotUnderstood);
    }
    let room = stack.len();
    let Some(fitting) = frame_at(memory, room, base, method) else {
        return Err(Halt::NoStackRoom);
    };
    primitives::make_message(contents, bodies, stack, n, b, selector, place + 1, count);
    enter(
        stack,
        top,
        message.next,
        left,
        base.0,
        method,
        receiver,
        fitting.temporaries,
        (2 * (n + 2)) as u16,
    );
    cache::fill(cache, limits::FAILURE_SELECTOR, class, method, dictionaries);
    Ok(Resent {
        n: n + 2,
        b: b + (count + 2),
        top: base,
        end: fitting.end,
        dictionaries,
    })
}
