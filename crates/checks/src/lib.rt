// The frames' part of check.
#![tactic(auto)]

ghost use Rattle.std.specs.Prelude.{◌≡◌, true, false, suc, T, MatchOption, length};
ghost use Rattle.bytecode.specs.Test.{all_of};
ghost use Rattle.model.specs.Limits.{method_kind};
ghost use Rattle.model.specs.Objects.{is_kind};
ghost use Rattle.model.specs.Depth.{note_at};
ghost use Rattle.model.specs.Rules.{IsRight, method_table};
ghost use Rattle.plain.specs.Flat.{frame_at, frames_from};
ghost use Rattle.plain.specs.Check.{frame_rules, frames_fine};
ghost use Rattle.checks.specs.Frame.{stands_at_of, six_words_fine, EndsAt, Noted, Stands};
ghost use Rattle.readers.specs.Lent.{objects_in, In};

use model::{CodePosition, Pointer, StackPosition, limits};
use readers::Memory;

// The words of the smallest frame.
const LEAST: usize = limits::FRAME_HEADER + limits::SMALL_FRAME;

// Where the frame at a base ends, if one of a method fits there.
fn frame_end(memory: &Memory, stack: &[u16], at: StackPosition) -> Option<StackPosition>
    requires { IsRight (objects_in memory.now) }
    ensures { MatchOption result (stands_at_of (objects_in memory.now) stack.now at.0 ≡ false)
        (λ end. EndsAt (objects_in memory.now) stack.now at.0 end.0) }
{
    let base = at.0;
    if limits::MOST_STACK_WORDS - LEAST < base || stack.len() < base + LEAST {
        return None;
    }
    let m = stack[base + limits::FRAME_METHOD];
    if !memory.is_kind(limits::METHOD, m) {
        return None;
    }
    let end = frames::end_of(memory, at, Pointer(m));
    if stack.len() < end || limits::MOST_STACK_WORDS < end {
        return None;
    }
    Some(StackPosition(end))
}

// The note at a position of a method's code, 0 outside it.
fn note_at(memory: &Memory, notes: &[u8], edition: u16, m: Pointer, at: CodePosition) -> usize
    requires { In (Noted edition) memory.now notes.now × T (is_kind (objects_in memory.now) method_kind m.0) }
    ensures { result ≡ note_at (method_table edition (objects_in memory.now) m.0) at.0 }
{
    let code = objects::code_of(memory, m);
    let p = at.0;
    if code.size <= p {
        return 0;
    }
    notes[2 * code.from + p] as usize
}

// The words of a frame but for temporaries and operands.
fn six_words_fine(
    memory: &Memory,
    stack: &[u16],
    notes: &[u8],
    edition: u16,
    at: StackPosition,
    uppermost: bool,
) -> bool
    requires { In (Stands edition) memory.now stack.now notes.now at.0 }
    ensures { result ≡ six_words_fine edition (objects_in memory.now) uppermost
        (frame_at (objects_in memory.now) stack.now at.0) }
{
    let base = at.0;
    let receiver = stack[base + limits::FRAME_RECEIVER];
    if stack[base + limits::FRAME_ZERO] != 0 || !readers::is_valid(memory.n, receiver) {
        return false;
    }
    let m = Pointer(stack[base + limits::FRAME_METHOD]);
    let home = objects::home(memory, m);
    let class = objects::class_of(memory, receiver);
    if !objects::in_chain(memory, home, class) {
        return false;
    }
    let p = CodePosition(stack[base + limits::FRAME_POSITION] as usize);
    let note = note_at(memory, notes, edition, m, p);
    let depth = stack[base + limits::FRAME_DEPTH] as usize;
    if uppermost {
        note == depth + 1
    } else {
        note == depth + 2
    }
}

// One frame that stands.
fn frame_fine(
    memory: &Memory,
    stack: &[u16],
    notes: &[u8],
    edition: u16,
    at: StackPosition,
    uppermost: bool,
) -> bool
    requires { In (Stands edition) memory.now stack.now notes.now at.0 }
    ensures { result ≡ all_of (frame_rules edition (objects_in memory.now) uppermost
        (frame_at (objects_in memory.now) stack.now at.0)) }
{
    if !six_words_fine(memory, stack, notes, edition, at, uppermost) {
        return false;
    }
    let base = at.0;
    let m = Pointer(stack[base + limits::FRAME_METHOD]);
    let depth = stack[base + limits::FRAME_DEPTH] as usize;
    let from = base + limits::FRAME_HEADER;
    let end = from + (readers::temporary_count(objects::header(memory, m)) + depth);
    readers::valid_words(memory.n, &stack[from..end])
}

// The frames of a state, from the top one down to the one at 0.
pub fn frames_fine(
    memory: &Memory,
    stack: &[u16],
    notes: &[u8],
    edition: u16,
    top: StackPosition,
) -> bool
    requires { In (Noted edition) memory.now notes.now }
    ensures { result ≡ frames_fine edition (objects_in memory.now) (length stack.now) true top.0
        (frames_from (suc top.0) (objects_in memory.now) stack.now top.0) }
{
    let Some(_) = frame_end(memory, stack, top) else {
        return false;
    };
    let mut base = top;
    let mut uppermost = true;
    loop {
        if !frame_fine(memory, stack, notes, edition, base, uppermost) {
            return false;
        }
        let sender = frames::sender(stack, base);
        if base.0 == 0 {
            return sender.0 == 0;
        }
        let Some(end) = frame_end(memory, stack, sender) else {
            return false;
        };
        if end.0 != base.0 {
            return false;
        }
        base = sender;
        uppermost = false;
    }
}
