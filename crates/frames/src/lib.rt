// The frames in the stack: the running one as the run loop holds it, where a frame's words stand, what is written to them.
#![tactic(auto)]

ghost use Rattle.std.specs.Prelude.{◌≡◌, ◌+◌, ◌≤◌, ◌<◌, length, set, take};
ghost use Rattle.std.proofs.lemmas.List.Edits.{sets};
ghost use Rattle.model.specs.Limits.{frame_header_words, method_kind};
ghost use Rattle.model.specs.Method.{frame_size};
ghost use Rattle.plain.specs.Flat.{frame_sender};
ghost use Rattle.objects.specs.Lent.{Holds};
ghost use Rattle.frames.specs.Words.{new_words};
ghost use Rattle.frames.specs.Active.{written, Holdable, Held, Leaving};
ghost use Rattle.readers.specs.Lent.{objects_in, In, On};

use model::{CodePosition, Pointer, StackPosition, limits};
use readers::Memory;

// The running frame as the run loop holds it: its base, where its method's code starts and ends in bodies, the position of its next bytecode,
// the place behind its last operand, and its first. Its own words for position and depth are written when the loop leaves it.
#[derive(Clone, Copy)]
pub struct Active {
    pub base: StackPosition,
    pub code: usize,
    pub limit: usize,
    pub position: CodePosition,
    pub end: StackPosition,
    pub operands: StackPosition,
}

// A send by the running frame: its selector and argument count, the class where the search starts, the position behind it. `sure` says that
// a method that is found can run on the receiver. The large fields come first, so that the small ones share no place with the positions of
// another event: those would be put together with masks at each bytecode.
#[derive(Clone, Copy)]
pub struct Message {
    pub count: usize,
    pub next: CodePosition,
    pub selector: u16,
    pub class: Pointer,
    pub sure: bool,
}

// Where the first temporary of a frame stands.
pub fn first_temporary(base: StackPosition) -> usize
    requires { base.0 < 65536 }
    ensures { result ≡ base.0 + frame_header_words }
{
    base.0 + limits::FRAME_HEADER
}

// Where a frame of a method ends.
pub fn end_of(memory: &Memory, base: StackPosition, method: Pointer) -> usize
    requires { In (Holds method_kind) memory.now method.0 × (base.0 ≤ 131072) }
    ensures { (result ≡ base.0 + frame_size (objects_in memory.now) method.0) × (result ≤ base.0 + 38) }
{
    let words = readers::frame_words(objects::header(memory, method));
    base.0 + (limits::FRAME_HEADER + words)
}

// The frame that a frame returns to.
pub fn sender(stack: &[u16], top: StackPosition) -> StackPosition
    requires { (top.0 < length stack.now) × (top.0 < 65536) × (frame_sender stack.now top.0 < 65536) }
    ensures { result.0 ≡ frame_sender stack.now top.0 }
{
    StackPosition(stack[top.0 + limits::FRAME_SENDER] as usize)
}

// A frame, taken from its words.
pub fn hold(memory: &Memory, stack: &[u16], top: StackPosition) -> Active
    requires { On Holdable memory.now top.0 stack.now }
    ensures { On Held memory.now top.0 stack.now result }
{
    let base = top.0;
    let method = Pointer(stack[base + limits::FRAME_METHOD]);
    let code = objects::code_of(memory, method);
    let temporaries = readers::temporary_count(objects::header(memory, method));
    let operands = StackPosition(first_temporary(top) + temporaries);
    let position = stack[base + limits::FRAME_POSITION] as usize;
    let depth = stack[base + limits::FRAME_DEPTH] as usize;
    Active {
        base: top,
        code: code.from,
        limit: code.end,
        operands,
        position: CodePosition(position),
        end: StackPosition(operands.0 + depth),
    }
}

// The words of a new frame, lent as the part of the stack from its base: six words, the arguments, nil in the other temporaries.
pub fn write_frame(
    words: &mut [u16],
    sender: StackPosition,
    method: Pointer,
    receiver: u16,
    temporaries: usize,
    count: usize,
    arguments: &[u16],
)
    requires { (frame_header_words + temporaries ≤ length words.old) × (count ≤ temporaries) × (count ≤ length arguments.now) × (sender.0 < 65536) }
    ensures { words.new ≡ sets words.old 0 (new_words sender.0 method.0 receiver temporaries (take count arguments.now)) }
{
    words[limits::FRAME_SENDER] = sender.0 as u16;
    words[limits::FRAME_POSITION] = 0;
    words[limits::FRAME_DEPTH] = 0;
    words[limits::FRAME_METHOD] = method.0;
    words[limits::FRAME_ZERO] = 0;
    words[limits::FRAME_RECEIVER] = receiver;
    words::copy(words, limits::FRAME_HEADER, arguments, 0, count);
    words::fill(
        words,
        limits::FRAME_HEADER + count,
        temporaries - count,
        limits::NIL,
    );
}

// The frame at a base goes on at another position, with so many operands.
pub fn move_to(stack: &mut [u16], base: StackPosition, position: CodePosition, depth: usize)
    requires { (base.0 + 2 < length stack.old) × (position.0 < 65536) × (depth < 65536) }
    ensures { stack.new ≡ set (set stack.old (base.0 + 1) position.0) (base.0 + 2) depth }
{
    stack[base.0 + limits::FRAME_POSITION] = position.0 as u16;
    stack[base.0 + limits::FRAME_DEPTH] = depth as u16;
}

impl Active {
    // Its position and depth, written to its words.
    pub fn leave(self, stack: &mut [u16])
        requires { Leaving stack.old self }
        ensures { stack.new ≡ written self stack.old }
    {
        move_to(
            stack,
            self.base,
            self.position,
            self.end.0 - self.operands.0,
        );
    }
}
