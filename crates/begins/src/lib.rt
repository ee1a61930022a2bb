// Begin, from a state that was checked and does not run: a send from no frame.
#![tactic(auto)]

ghost use Rattle.std.specs.Prelude.{◌≡◌, List, [], ℕ, ◌+◌, ◌*◌, ◌≤◌, length, get_or};
ghost use Rattle.std.proofs.lemmas.List.Edits.{sets};
ghost use Rattle.model.specs.Limits.{entry_words};
ghost use Rattle.model.specs.Objects.{objects_at};
ghost use Rattle.model.specs.Rules.{rule8};
ghost use Rattle.begins.specs.Begins.{Starts, Begins};

use activation::Activated;
use model::{Refusal, StackPosition, limits};
use readers::Memory;

// What a begin leads to: an answer without a frame, with N and B after it, or the first frame.
#[derive(Clone, Copy)]
pub enum Beginning {
    Answered { word: u16, n: usize, b: usize },
    Entered,
}

// Rule 8: start words as in an image, and valid arguments.
fn words_fine(memory: &Memory, receiver: u16, selector: u16, arguments: &[u16]) -> bool
    requires { entry_words * memory.now.n ≤ length memory.now.contents.now }
    ensures { (b : ℕ) (bodies : List ℕ) → result ≡ rule8 (objects_at memory.now.n b memory.now.contents.now bodies) receiver selector arguments.now }
{
    store::starts_fine(memory, receiver, selector) && readers::valid_words(memory.n, arguments)
}

// Argument i, 0 where there is none.
fn argument(arguments: &[u16], i: usize) -> u16
    ensures { result ≡ get_or arguments.now i 0 }
{
    arguments.get(i).copied().unwrap_or(0)
}

// A send from no frame: 8, 9, 10, 13.
pub fn begin(
    contents: &mut [u16],
    bodies: &mut [u16],
    stack: &mut [u16],
    edition: u16,
    n: usize,
    b: usize,
    receiver: u16,
    selector: u16,
    arguments: &[u16],
) -> Result<Beginning, Refusal>
    requires { Starts edition n b contents.old bodies.old stack.old receiver selector arguments.now }
    ensures { Begins edition n b contents.old bodies.old stack.old receiver selector arguments.now
        contents.new bodies.new stack.new result }
{
    let memory = &Memory {
        contents,
        bodies,
        n,
        b,
    };
    if !words_fine(memory, receiver, selector, arguments) {
        return Err(Refusal::Start);
    }
    let class = objects::class_of(memory, receiver);
    let search = objects::lookup(memory, selector, class);
    let Some(method) = search.found else {
        return Err(Refusal::NoMethod);
    };
    let count = objects::argument_count(memory, method);
    if count != arguments.len() {
        return Err(Refusal::ArgumentCount);
    }
    let header = objects::header(memory, method);
    let x = argument(arguments, 0);
    let y = argument(arguments, 1);
    match activation::activate(contents, bodies, edition, n, b, method, receiver, x, y) {
        Activated::Answer { word, n, b } => Ok(Beginning::Answered { word, n, b }),
        Activated::Unfit => Err(Refusal::NoMethod),
        Activated::Frame => {
            if stack.len() < limits::FRAME_HEADER + readers::frame_words(header) {
                return Err(Refusal::StackRoom);
            }
            let temporaries = readers::temporary_count(header);
            frames::write_frame(
                stack,
                StackPosition(0),
                method,
                receiver,
                temporaries,
                count,
                arguments,
            );
            Ok(Beginning::Entered)
        }
    }
}
