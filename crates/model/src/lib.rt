// The types that the definitions of specs/ speak of, and the numbers of 01.
#![tactic(auto)]

ghost use Rattle.std.specs.Prelude.{◌≡◌};
ghost use Rattle.model.specs.Word.{boolean_word};

pub mod limits;
pub mod numbers;

pub use numbers::{Halt, Refusal};

// An even word: twice an object number.
#[derive(Clone, Copy)]
pub struct Pointer(pub u16);

// A place in a method's code, in bytes from its first.
#[derive(Clone, Copy)]
pub struct CodePosition(pub usize);

// A place in the stack, in words from its first.
#[derive(Clone, Copy)]
pub struct StackPosition(pub usize);

// The word of true or of false.
pub fn boolean_word(x: bool) -> u16
    ensures { result ≡ boolean_word x }
{
    if x { limits::TRUE } else { limits::FALSE }
}
