// The run loop, over N, B, top and the lent words. The start words are none of its business: what it promises holds for all of them.
#![tactic(auto)]

ghost use Rattle.std.specs.Prelude.{◌≡◌, ◌+◌, ◌≤◌, ◌<◌, max};
ghost use Rattle.model.specs.Limits.{longest_chain};
ghost use Rattle.plain.specs.Running.{Runs};
ghost use Rattle.frames.specs.Active.{frame_end};
ghost use Rattle.runs.specs.Ends.{reach_in, dictionaries_in, Goes, StretchesOn};
ghost use Rattle.readers.specs.Lent.{On};

use frames::Message;
use interpreter::Advanced;
use model::{Pointer, StackPosition, limits};
use readers::Memory;

// How a run ended: the registers but for the start words, the bytecodes made, reach, the largest end of a frame that stood in it, and the dictionaries that its lookups read.
#[derive(Clone, Copy)]
pub struct Ended {
    pub n: u16,
    pub b: u16,
    pub phase: u16,
    pub top: u16,
    pub value: u16,
    pub count: u32,
    pub reach: usize,
    pub dictionaries: u64,
}

// A send of a run that failed: the number of objects and body words then, the top frame, so many bytecodes left, reach and dictionaries so far.
#[derive(Clone, Copy)]
pub struct Failed {
    pub message: Message,
    pub n: usize,
    pub b: usize,
    pub top: StackPosition,
    pub left: u32,
    pub reach: usize,
    pub dictionaries: u64,
}

// How a stretch of a run ended: with the run, or at a send that failed, which is no error: its message is sent, and the run goes on.
#[derive(Clone, Copy)]
pub enum Stretched {
    Over(Ended),
    Failed(Failed),
}

// Where the top frame ends.
fn frame_end(memory: &Memory, stack: &[u16], top: StackPosition) -> usize
    requires { On Runs memory.now top.0 stack.now }
    ensures { (result ≡ frame_end memory.now.n memory.now.b top.0 memory.now.contents.now memory.now.bodies.now stack.now) × (result ≤ 65536) }
{
    let method = Pointer(stack[top.0 + limits::FRAME_METHOD]);
    frames::end_of(memory, top, method)
}

// Reach and dictionaries so far are one number, the tally: so much for each dictionary, and reach. A loop that carries one number more takes more machine instructions at every bytecode.
const TALLY: usize = 131072;

// The tally where a frame ends there.
fn raised(tally: usize, end: usize) -> usize
    requires { (end ≤ 65536) × (tally < 9223372036854775808) }
    ensures { (reach_in result ≡ max (reach_in tally) end) × (dictionaries_in result ≡ dictionaries_in tally) }
{
    let reach = tally % TALLY;
    if reach < end {
        return tally + (end - reach);
    }
    tally
}

// The tally with so many dictionaries more.
fn counted(tally: usize, read: usize) -> usize
    requires { (tally < 9223372036854775808) × (read ≤ longest_chain) }
    ensures { (reach_in result ≡ reach_in tally) × (dictionaries_in result ≡ dictionaries_in tally + read) }
{
    tally + TALLY * read
}

// A run of at most so many bytecodes, from a state in phase 1 that check accepts, up to the first send that fails.
pub fn stretch(
    contents: &mut [u16],
    bodies: &mut [u16],
    stack: &mut [u16],
    cache: &mut [u16],
    edition: u16,
    n: usize,
    b: usize,
    top: usize,
    grant: u32,
) -> Stretched
    requires { Goes edition n b top contents.old bodies.old stack.old cache.old }
    ensures { StretchesOn edition n b top contents.old bodies.old stack.old cache.old grant
        contents.new bodies.new stack.new cache.new result }
{
    let mut objects = n;
    let mut words = b;
    let start = StackPosition(top);
    let mut left = grant;
    let memory = &Memory {
        contents,
        bodies,
        n,
        b,
    };
    let mut tally = frame_end(memory, stack, start);
    let mut active = frames::hold(memory, stack, start);
    while 0 < left {
        match interpreter::advance(
            contents, bodies, stack, cache, edition, objects, words, active,
        ) {
            Advanced::Next { position, end } => {
                active.position = position;
                active.end = end;
                left -= 1;
            }
            Advanced::Answered {
                n: grown,
                b: longer,
                position,
                end,
                dictionaries: read,
            } => {
                objects = grown;
                words = longer;
                tally = counted(tally, read);
                active.position = position;
                active.end = end;
                left -= 1;
            }
            Advanced::Top {
                frame,
                end,
                dictionaries: read,
            } => {
                active = frame;
                let highest = raised(tally, end);
                tally = counted(highest, read);
                left -= 1;
            }
            Advanced::Below(frame) => {
                active = frame;
                left -= 1;
            }
            Advanced::Finished(w) => {
                return Stretched::Over(Ended {
                    n: objects as u16,
                    b: words as u16,
                    phase: 2,
                    top: 0,
                    value: w,
                    count: grant - left + 1,
                    reach: tally % TALLY,
                    dictionaries: (tally / TALLY) as u64,
                });
            }
            Advanced::Failed(message) => {
                return Stretched::Failed(Failed {
                    message,
                    n: objects,
                    b: words,
                    top: active.base,
                    left,
                    reach: tally % TALLY,
                    dictionaries: (tally / TALLY) as u64,
                });
            }
            Advanced::Halted(halt) => {
                return Stretched::Over(Ended {
                    n: objects as u16,
                    b: words as u16,
                    phase: halt.phase(),
                    top: active.base.0 as u16,
                    value: 0,
                    count: grant - left,
                    reach: tally % TALLY,
                    dictionaries: (tally / TALLY) as u64,
                });
            }
        }
    }
    active.leave(stack);
    Stretched::Over(Ended {
        n: objects as u16,
        b: words as u16,
        phase: 1,
        top: active.base.0 as u16,
        value: 0,
        count: grant,
        reach: tally % TALLY,
        dictionaries: (tally / TALLY) as u64,
    })
}
