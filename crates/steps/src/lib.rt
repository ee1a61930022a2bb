// One bytecode of the running frame, but for the making of sends and returns, which the run loop does: they leave here as events.
#![tactic(auto)]

ghost use Rattle.std.specs.Prelude.{◌≡◌, ◌<◌, ◌≤◌};
ghost use Rattle.std.proofs.Math.Option.{some};
ghost use Rattle.bytecode.specs.Effect.{special_count};
ghost use Rattle.bytecode.specs.declared.Instruction.TheVariants.{Push, JumpOn, Send, SuperSend, SpecialSend};
ghost use Rattle.plain.specs.Step.{read};
ghost use Rattle.plain.specs.Running.{top_frame};
ghost use Rattle.frames.specs.Active.{written, IsActive};
ghost use Rattle.steps.specs.Events.{Doing, Computing, Pushing, Pushed, Storing, Sends, Says, SaysIn};
ghost use Rattle.readers.specs.Lent.{objects_in, In};

use bytecode::{Decoded, Instruction, Place};
use frames::{Active, Message};
use model::{CodePosition, Halt, Pointer, StackPosition, limits};
use readers::Memory;

// What a bytecode is to the run loop: the frame goes on, at another position and with operands up to another end; or a send is to be made, or
// a return of a word; or it halts.
#[derive(Clone, Copy)]
pub enum Event {
    Next {
        position: CodePosition,
        end: StackPosition,
    },
    Send(Message),
    Return(u16),
    Halt(Halt),
}

// The instruction at the position, from the code's words as a part of the bodies.
fn decoded(memory: &Memory, stack: &[u16], active: Active) -> Decoded
    requires { In IsActive memory.now stack.now active }
    ensures { In Doing memory.now stack.now active result.next result.instruction }
{
    objects::instruction_at(memory.bodies, active.code, active.limit, active.position.0)
}

// The word of a place.
fn read(memory: &Memory, stack: &[u16], active: Active, next: CodePosition, place: Place) -> u16
    requires { In Doing memory.now stack.now active next.0 (Push place) }
    ensures { read (objects_in memory.now)
        (top_frame memory.now.n memory.now.b active.base.0 memory.now.contents.now memory.now.bodies.now (written active stack.now)) place
        ≡ some result }
{
    let base = active.base.0;
    match place {
        Place::Field(i) => {
            let receiver = stack[base + limits::FRAME_RECEIVER];
            memory.word_of(Pointer(receiver), i)
        }
        Place::Temporary(i) => {
            let at = frames::first_temporary(active.base) + i;
            stack[at]
        }
        Place::Literal(i) => {
            let method = Pointer(stack[base + limits::FRAME_METHOD]);
            objects::literal(memory, method, i)
        }
        Place::LiteralVariable(i) => {
            let method = Pointer(stack[base + limits::FRAME_METHOD]);
            let v = objects::literal(memory, method, i);
            memory.word_of(Pointer(v), 1)
        }
    }
}

// A word pushed, and the frame goes on.
fn push_word(stack: &mut [u16], active: Active, next: CodePosition, w: u16) -> Event
    requires { Pushing stack.old active }
    ensures { Pushed stack.old active next.0 w stack.new result }
{
    let end = active.end.0;
    stack[end] = w;
    Event::Next {
        position: next,
        end: StackPosition(end + 1),
    }
}

fn push(
    memory: &Memory,
    stack: &mut [u16],
    active: Active,
    next: CodePosition,
    place: Place,
) -> Event
    requires { In Doing memory.now stack.old active next.0 (Push place) }
    ensures { SaysIn memory.now active stack.old stack.new result }
{
    let w = read(memory, stack, active, next, place);
    push_word(stack, active, next, w)
}

// The top operand stored in a place; the operands end at `end` then.
fn store(
    contents: &[u16],
    bodies: &mut [u16],
    stack: &mut [u16],
    n: usize,
    b: usize,
    active: Active,
    next: CodePosition,
    place: Place,
    end: StackPosition,
) -> Event
    requires { Storing n b contents.now bodies.old stack.old active next.0 place end.0 }
    ensures { Says n b contents.now active bodies.old stack.old bodies.new stack.new result }
{
    let base = active.base.0;
    let at = active.end.0 - 1;
    let w = stack[at];
    match place {
        Place::Field(i) => {
            let receiver = stack[base + limits::FRAME_RECEIVER];
            objects::store_word(contents, bodies, n, b, Pointer(receiver), i, w);
        }
        Place::Temporary(i) => {
            let to = frames::first_temporary(active.base) + i;
            stack[to] = w;
        }
        // no reached store goes to a literal
        Place::Literal(_) => {}
        Place::LiteralVariable(i) => {
            let method = Pointer(stack[base + limits::FRAME_METHOD]);
            let memory = &Memory {
                contents,
                bodies,
                n,
                b,
            };
            let v = objects::literal(memory, method, i);
            objects::store_word(contents, bodies, n, b, Pointer(v), 1, w);
        }
    }
    Event::Next {
        position: next,
        end,
    }
}

// A jump where the top operand is the condition; on where it is the other boolean.
fn jump_on(
    memory: &Memory,
    stack: &[u16],
    active: Active,
    next: CodePosition,
    condition: bool,
    ahead: usize,
) -> Event
    requires { In Doing memory.now stack.now active next.0 (JumpOn condition ahead) }
    ensures { SaysIn memory.now active stack.now stack.now result }
{
    let end = active.end.0 - 1;
    let w = stack[end];
    if w == model::boolean_word(condition) {
        return Event::Next {
            position: CodePosition(next.0 + ahead),
            end: StackPosition(end),
        };
    }
    if w == limits::TRUE || w == limits::FALSE {
        return Event::Next {
            position: next,
            end: StackPosition(end),
        };
    }
    Event::Halt(Halt::NoBoolean)
}

// A send to the receiver below `count` arguments.
fn sent(
    memory: &Memory,
    stack: &[u16],
    active: Active,
    next: CodePosition,
    selector: u16,
    count: usize,
) -> Event
    requires { In Sends memory.now stack.now active next.0 selector count }
    ensures { SaysIn memory.now active stack.now stack.now result }
{
    let at = active.end.0 - 1 - count;
    let receiver = stack[at];
    let class = objects::class_of(memory, receiver);
    Event::Send(Message {
        count,
        next,
        selector,
        class,
        sure: true,
    })
}

// A send of a literal.
fn send(
    memory: &Memory,
    stack: &[u16],
    active: Active,
    next: CodePosition,
    literal: u8,
    arguments: u8,
) -> Event
    requires { In Doing memory.now stack.now active next.0 (Send literal arguments) }
    ensures { SaysIn memory.now active stack.now stack.now result }
{
    let base = active.base.0;
    let method = Pointer(stack[base + limits::FRAME_METHOD]);
    let s = objects::literal(memory, method, literal as usize);
    let count = arguments as usize;
    sent(memory, stack, active, next, s, count)
}

// The search starts above the method's home. Only the frame's own receiver is sure to have the home of what is found.
fn super_send(
    memory: &Memory,
    stack: &[u16],
    active: Active,
    next: CodePosition,
    literal: u8,
    arguments: u8,
) -> Event
    requires { In Doing memory.now stack.now active next.0 (SuperSend literal arguments) }
    ensures { SaysIn memory.now active stack.now stack.now result }
{
    let base = active.base.0;
    let method = Pointer(stack[base + limits::FRAME_METHOD]);
    let count = arguments as usize;
    let at = active.end.0 - 1 - count;
    let receiver = stack[at];
    let own = stack[base + limits::FRAME_RECEIVER];
    let selector = objects::literal(memory, method, literal as usize);
    let home = objects::home(memory, method);
    let class = objects::superclass(memory, home);
    Event::Send(Message {
        count,
        next,
        selector,
        class,
        sure: receiver == own,
    })
}

// What 176 to 191 compute in the place of the two uppermost operands, or a send where it fails.
fn answer(
    memory: &Memory,
    stack: &mut [u16],
    active: Active,
    next: CodePosition,
    k: u8,
    computed: Option<u16>,
) -> Event
    requires { In Computing memory.now stack.old active next.0 k computed }
    ensures { SaysIn memory.now active stack.old stack.new result }
{
    match computed {
        Some(w) => {
            let end = active.end.0;
            stack[end - 2] = w;
            Event::Next {
                position: next,
                end: StackPosition(end - 1),
            }
        }
        None => {
            let s = memory.word_of(Pointer(limits::SELECTORS), k as usize);
            sent(memory, stack, active, next, s, 1)
        }
    }
}

// 176 to 191. `k` is the send's number in the bytecode; the primitive's is its number in a method's header. An arm for each primitive: it is
// compiled where it is tried and answers there. With one answer behind them all the loop is slower.
fn arithmetic_send(
    memory: &Memory,
    stack: &mut [u16],
    active: Active,
    next: CodePosition,
    k: u8,
) -> Event
    requires { In Doing memory.now stack.old active next.0 (SpecialSend k) × (k < 16) }
    ensures { SaysIn memory.now active stack.old stack.new result }
{
    let end = active.end.0;
    let w = stack[end - 1];
    let v = stack[end - 2];
    match k {
        0 => {
            let r = arithmetic::arithmetic(1, v, w);
            answer(memory, stack, active, next, k, r)
        }
        1 => {
            let r = arithmetic::arithmetic(2, v, w);
            answer(memory, stack, active, next, k, r)
        }
        2 => {
            let r = arithmetic::arithmetic(3, v, w);
            answer(memory, stack, active, next, k, r)
        }
        3 => {
            let r = arithmetic::arithmetic(4, v, w);
            answer(memory, stack, active, next, k, r)
        }
        4 => {
            let r = arithmetic::arithmetic(5, v, w);
            answer(memory, stack, active, next, k, r)
        }
        5 => {
            let r = arithmetic::arithmetic(6, v, w);
            answer(memory, stack, active, next, k, r)
        }
        6 => {
            let r = arithmetic::arithmetic(7, v, w);
            answer(memory, stack, active, next, k, r)
        }
        7 => {
            let r = arithmetic::arithmetic(8, v, w);
            answer(memory, stack, active, next, k, r)
        }
        8 => {
            let r = arithmetic::arithmetic(9, v, w);
            answer(memory, stack, active, next, k, r)
        }
        9 => {
            let r = arithmetic::compute(10, v, w);
            answer(memory, stack, active, next, k, r)
        }
        10 => {
            let r = arithmetic::compute(11, v, w);
            answer(memory, stack, active, next, k, r)
        }
        11 => {
            let r = arithmetic::compute(0, v, w); // none, which fails
            answer(memory, stack, active, next, k, r)
        }
        12 => {
            let r = arithmetic::compute(17, v, w);
            answer(memory, stack, active, next, k, r)
        }
        13 => {
            let r = arithmetic::compute(12, v, w);
            answer(memory, stack, active, next, k, r)
        }
        14 => {
            let r = arithmetic::arithmetic(14, v, w);
            answer(memory, stack, active, next, k, r)
        }
        _ => {
            let r = arithmetic::arithmetic(15, v, w);
            answer(memory, stack, active, next, k, r)
        }
    }
}

// The arguments of 192 to 207. The run loop is lent no table, from which `code` takes these counts.
const COUNTS: [u8; 16] = [1, 2, 0, 0, 1, 0, 1, 0, 1, 0, 1, 1, 0, 1, 0, 0];

fn special_count(k: u8) -> usize
    requires { (16 ≤ k) × (k < 32) }
    ensures { result ≡ special_count k }
{
    COUNTS[k as usize - 16] as usize
}

// 192 to 207: 198 and 199 send nothing.
fn special_send(
    memory: &Memory,
    stack: &mut [u16],
    active: Active,
    next: CodePosition,
    k: u8,
) -> Event
    requires { In Doing memory.now stack.old active next.0 (SpecialSend k) × (16 ≤ k) }
    ensures { SaysIn memory.now active stack.old stack.new result }
{
    let end = active.end.0;
    let last = stack[end - 1];
    if k == 22 {
        let under = stack[end - 2];
        stack[end - 2] = model::boolean_word(under == last);
        return Event::Next {
            position: next,
            end: StackPosition(end - 1),
        };
    }
    if k == 23 {
        let class = objects::class_of(memory, last);
        stack[end - 1] = class.0;
        return Event::Next {
            position: next,
            end: StackPosition(end),
        };
    }
    let s = memory.word_of(Pointer(limits::SELECTORS), k as usize);
    let count = special_count(k);
    sent(memory, stack, active, next, s, count)
}

// One bytecode. The run loop alone calls it: a function with one caller is compiled into it.
pub fn step(
    contents: &[u16],
    bodies: &mut [u16],
    stack: &mut [u16],
    n: usize,
    b: usize,
    active: Active,
) -> Event
    requires { IsActive n b contents.now bodies.old stack.old active }
    ensures { Says n b contents.now active bodies.old stack.old bodies.new stack.new result }
{
    let base = active.base.0;
    let memory = &Memory {
        contents,
        bodies,
        n,
        b,
    };
    let decoded = decoded(memory, stack, active);
    let next = CodePosition(decoded.next);
    let instruction = decoded.instruction;
    match instruction {
        Instruction::Push(place) => push(memory, stack, active, next, place),
        Instruction::Store(place) => {
            let end = active.end;
            store(contents, bodies, stack, n, b, active, next, place, end)
        }
        Instruction::PopStore(place) => {
            let end = StackPosition(active.end.0 - 1);
            store(contents, bodies, stack, n, b, active, next, place, end)
        }
        Instruction::PushSelf => {
            let w = stack[base + limits::FRAME_RECEIVER];
            push_word(stack, active, next, w)
        }
        Instruction::PushConstant(w) => push_word(stack, active, next, w),
        Instruction::ReturnSelf => Event::Return(stack[base + limits::FRAME_RECEIVER]),
        Instruction::ReturnConstant(w) => Event::Return(w),
        Instruction::ReturnTop => {
            let at = active.end.0 - 1;
            Event::Return(stack[at])
        }
        Instruction::Pop => Event::Next {
            position: next,
            end: StackPosition(active.end.0 - 1),
        },
        Instruction::Duplicate => {
            let at = active.end.0 - 1;
            let w = stack[at];
            push_word(stack, active, next, w)
        }
        Instruction::Jump { ahead, back } => {
            Event::Next {
                position: CodePosition(next.0 + ahead as usize - back as usize),
                end: active.end,
            }
        }
        Instruction::JumpOn { condition, ahead } => jump_on(
            memory,
            stack,
            active,
            next,
            condition,
            ahead as usize,
        ),
        Instruction::Send { literal, arguments } => send(
            memory, stack, active, next, literal, arguments,
        ),
        Instruction::SuperSend { literal, arguments } => super_send(
            memory, stack, active, next, literal, arguments,
        ),
        Instruction::SpecialSend(k) => {
            if k < 16 {
                return arithmetic_send(memory, stack, active, next, k);
            }
            special_send(memory, stack, active, next, k)
        }
        // never reached
        Instruction::Unused => Event::Halt(Halt::NoBoolean),
    }
}
