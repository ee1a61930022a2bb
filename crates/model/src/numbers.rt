// What a call says by a number where C calls it, and by a name inside.
ghost use Rattle.std.specs.Prelude.{◌≡◌};
ghost use Rattle.model.specs.Numbers.{number_of, phase_of};

// Why a call is refused, in the order of the numbers.
#[derive(Clone, Copy, Debug, PartialEq, Eq)]
pub enum Refusal {
    // the image is not as long as its header says
    Length = 1,
    // edition, N or B out of range
    Header = 2,
    // a buffer too short, or a cache of another length
    Buffers = 3,
    // kinds, starts, sizes, padding
    Layout = 4,
    // a word that is no integer and names no object
    Words = 5,
    // classes, dictionaries, the objects with a fixed number
    Classes = 6,
    Methods = 7,
    // receiver, selector, arguments
    Start = 8,
    // none is found that runs on the receiver
    NoMethod = 9,
    ArgumentCount = 10,
    // check does not accept the state
    State = 11,
    // a begin in phase 1, a run outside it
    Phase = 12,
    // the first frame does not fit
    StackRoom = 13,
    // superclasses too many, or in a circle
    Chain = 14,
}

impl Refusal {
    pub fn number(self) -> u32
        ensures { result ≡ number_of self }
    {
        self as u32
    }
}

// Why a handler halts.
#[derive(Clone, Copy, Debug, PartialEq, Eq)]
pub enum Halt {
    NotUnderstood = 3,
    NoBoolean = 4,
    NoStackRoom = 5,
}

impl Halt {
    // The phase that says so.
    pub fn phase(self) -> u16
        ensures { result ≡ phase_of self }
    {
        self as u16
    }
}
