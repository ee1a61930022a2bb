// The instructions of a method's code. specs/Code.antt says which bytes mean which, specs/Effect.antt what each needs and leaves.
#![tactic(auto)]

ghost use Rattle.std.specs.Prelude.{◌≡◌, ℕ, ◌+◌, ◌*◌, ◌/◌, ◌<◌, ◌≤◌, length};
ghost use Rattle.bytecode.specs.Code.{byte_at, bytes_after, place_of, short_of, constant_of, jump_of, send_of, extended_of, instruction_of, next_at, decode_at};
ghost use Rattle.bytecode.specs.Table.{group_part, length_part, need_part, leaves_part, bound_part, index_part, extra_of, Entry, IsTable};

mod entries;
mod kinds;

use kinds::Kind;

// Where a push or a store finds its operand. The number is a usize so that a place has more than 8 bytes: one of 2, 4 or 8 bytes is copied
// as a single number, which hides its case from the compiler.
#[derive(Clone, Copy)]
pub enum Place {
    Field(usize),
    Temporary(usize),
    Literal(usize),
    LiteralVariable(usize),
}

// A constant is held as its word. A jump goes to the next instruction's position, plus `ahead`, minus `back`. A jump on a boolean
// counts ahead only. A special send is bytecode 176 plus its number.
#[derive(Clone, Copy)]
pub enum Instruction {
    Push(Place),
    Store(Place),
    PopStore(Place),
    PushSelf,
    PushConstant(u16),
    ReturnSelf,
    ReturnConstant(u16),
    ReturnTop,
    Pop,
    Duplicate,
    Jump { ahead: u16, back: u16 },
    JumpOn { condition: bool, ahead: u16 },
    Send { literal: u8, arguments: u8 },
    SuperSend { literal: u8, arguments: u8 },
    SpecialSend(u8),
    Unused,
}

// The table. Whoever calls this builds it anew: call it once, and lend it.
pub fn table() -> [u16; 256]
    ensures { IsTable result }
{
    entries::ENTRIES
}

// A byte's entry in the table, widened: its parts stand in it from the high end, as specs/Table.antt says.
#[derive(Clone, Copy)]
pub struct TableEntry(pub usize);

impl TableEntry {
    // A byte's entry in a lent table.
    pub fn of(table: &[u16; 256], b: u8) -> TableEntry
        requires { IsTable table.now }
        ensures { Entry b result.0 }
    {
        TableEntry(usize::from(table[usize::from(b)]))
    }

    pub fn group(self) -> usize
        ensures { result ≡ group_part self.0 }
    {
        self.0 / 16384
    }

    pub fn bytes(self) -> usize
        ensures { result ≡ length_part self.0 }
    {
        self.0 / 2048 % 8
    }

    pub fn need(self) -> usize
        ensures { result ≡ need_part self.0 }
    {
        self.0 / 512 % 4
    }

    pub fn leaves(self) -> usize
        ensures { result ≡ leaves_part self.0 }
    {
        self.0 / 128 % 4
    }

    pub fn bound(self) -> usize
        ensures { result ≡ bound_part self.0 }
    {
        self.0 / 32 % 4
    }

    pub fn index(self) -> usize
        ensures { result ≡ index_part self.0 }
    {
        self.0 % 32
    }
}

// The operands that the sends 131 to 134 need beside those of their entry: `x` is the byte after b.
#[tactic(auto, using(crate::proofs::Choice::ranges), unfolding(crate::specs::Table::extra_of))]
pub fn extra(b: u8, x: u8) -> usize
    ensures { result ≡ extra_of b x }
{
    match b {
        131 | 133 => (x / 32) as usize,
        132 | 134 => x as usize,
        _ => 0,
    }
}

// The code's byte at a position, high byte of a word first, with no test.
#[tactic(auto, using(crate::proofs::Choice::ranges), unfolding(crate::specs::Code::byte_at))]
pub fn fetch(words: &[u16], at: usize) -> u8
    requires { at / 2 < length words.now }
    ensures { result ≡ byte_at words.now at }
{
    let w = words[at / 2];
    if at % 2 == 0 {
        (w / 256) as u8
    } else {
        (w % 256) as u8
    }
}

// The same at every position: 0 past the end.
pub fn byte(words: &[u16], at: usize) -> u8
    ensures { result ≡ byte_at words.now at }
{
    if at / 2 < words.len() {
        fetch(words, at)
    } else {
        0
    }
}

// The byte `k` further on; 0 where no word stands, so that the sum is made only where it fits.
fn byte_after(words: &[u16], at: usize, k: usize) -> u8
    requires { k ≤ 2 }
    ensures { result ≡ byte_at words.now (at + k) }
{
    if at / 2 < words.len() {
        byte(words, at + k)
    } else {
        0
    }
}

// The byte of 128, 129 and 130 that names a place. By `x / 64`: single numbers become a jump by a table, ranges a row of tests.
#[tactic(auto, using(crate::proofs::Choice::ranges), unfolding(crate::specs::Code::place_of))]
pub fn place_of(x: u8) -> Place
    ensures { result ≡ place_of x }
{
    let i = (x % 64) as usize;
    match x / 64 {
        0 => Place::Field(i),
        1 => Place::Temporary(i),
        2 => Place::Literal(i),
        _ => Place::LiteralVariable(i),
    }
}

// 112 to 127.
#[tactic(auto, using(crate::proofs::Choice::ranges), unfolding(crate::specs::Code::constant_of))]
fn constant(b: u8) -> Instruction
    requires { 112 ≤ b }
    ensures { result ≡ constant_of b }
{
    match b {
        112 => Instruction::PushSelf,
        113 => Instruction::PushConstant(6),
        114 => Instruction::PushConstant(4),
        115 => Instruction::PushConstant(2),
        116 => Instruction::PushConstant(65535),
        117 => Instruction::PushConstant(1),
        118 => Instruction::PushConstant(3),
        119 => Instruction::PushConstant(5),
        120 => Instruction::ReturnSelf,
        121 => Instruction::ReturnConstant(6),
        122 => Instruction::ReturnConstant(4),
        123 => Instruction::ReturnConstant(2),
        124 => Instruction::ReturnTop,
        _ => Instruction::Unused,
    }
}

// 96 to 111.
fn pop_store(b: u8) -> Instruction
    requires { 96 ≤ b }
    ensures { result ≡ short_of b }
{
    let i = (b % 8) as usize;
    if b < 104 {
        return Instruction::PopStore(Place::Field(i));
    }
    Instruction::PopStore(Place::Temporary(i))
}

// 0 to 127, by rows of 16: single numbers become a jump by a table, ranges and `2 | 3` a row of tests.
fn short(b: u8) -> Instruction
    requires { b < 128 }
    ensures { (following : ℕ → ℕ) → result ≡ instruction_of b following }
{
    let i = (b % 16) as usize;
    let j = (b % 32) as usize;
    match b / 16 {
        0 => Instruction::Push(Place::Field(i)),
        1 => Instruction::Push(Place::Temporary(i)),
        2 => Instruction::Push(Place::Literal(j)),
        3 => Instruction::Push(Place::Literal(j)),
        4 => Instruction::Push(Place::LiteralVariable(j)),
        5 => Instruction::Push(Place::LiteralVariable(j)),
        6 => pop_store(b),
        _ => constant(b),
    }
}

// 128 to 131 and 133, which one byte follows.
#[tactic(auto, using(crate::proofs::Choice::ranges), unfolding(crate::specs::Code::extended_of))]
fn extended(b: u8, x: u8) -> Instruction
    requires { (128 ≤ b) × (b < 134) × (b ≡ 132 → ⊥) }
    ensures { (following : ℕ → ℕ) → x ≡ following 1 → result ≡ extended_of b following }
{
    let literal = x % 32;
    let arguments = x / 32;
    match b {
        128 => Instruction::Push(place_of(x)),
        129 => Instruction::Store(place_of(x)),
        130 => Instruction::PopStore(place_of(x)),
        131 => Instruction::Send { literal, arguments },
        _ => Instruction::SuperSend { literal, arguments },
    }
}

// 132 and 134, which two bytes follow.
#[tactic(auto, using(crate::proofs::Choice::ranges), unfolding(crate::specs::Code::extended_of))]
fn double_extended(b: u8, x: u8, y: u8) -> Instruction
    requires { (132 ≤ b) × (b < 135) × (b ≡ 133 → ⊥) }
    ensures { (following : ℕ → ℕ) → x ≡ following 1 → y ≡ following 2 → result ≡ extended_of b following }
{
    let (literal, arguments) = (y, x);
    match b {
        132 => Instruction::Send { literal, arguments },
        _ => Instruction::SuperSend { literal, arguments },
    }
}

// 128 to 134 at a position of code of `size` bytes.
fn extended_at(words: &[u16], size: usize, at: usize, b: u8) -> Instruction
    requires { (at < size) × (b ≡ byte_at words.now at) × (128 ≤ b) × (b < 135) }
    ensures { result ≡ decode_at words.now size at }
{
    if size - at < 2 {
        return Instruction::Unused;
    }
    let x = byte_after(words, at, 1);
    if b < 132 {
        return extended(b, x);
    }
    if b == 133 {
        return extended(b, x);
    }
    if size - at < 3 {
        return Instruction::Unused;
    }
    double_extended(b, x, byte_after(words, at, 2))
}

// 135 to 143.
#[tactic(auto, using(crate::proofs::Choice::ranges), unfolding(crate::specs::Code::extended_of))]
fn pop_or_duplicate(b: u8) -> Instruction
    requires { 135 ≤ b }
    ensures { (following : ℕ → ℕ) → result ≡ extended_of b following }
{
    match b {
        135 => Instruction::Pop,
        136 => Instruction::Duplicate,
        _ => Instruction::Unused,
    }
}

// 144 to 159.
fn near(b: u8) -> Instruction
    requires { b < 160 }
    ensures { (x : ℕ) → result ≡ jump_of b x }
{
    let ahead = (b % 8) as u16 + 1;
    if b < 152 {
        return Instruction::Jump { ahead, back: 0 };
    }
    Instruction::JumpOn {
        condition: false,
        ahead,
    }
}

// 160 to 175, which one byte follows.
fn far(b: u8, x: u8) -> Instruction
    requires { 160 ≤ b }
    ensures { result ≡ jump_of b x }
{
    if b < 168 {
        return Instruction::Jump {
            ahead: (b % 8) as u16 * 256 + x as u16,
            back: 1024,
        };
    }
    let ahead = (b % 4) as u16 * 256 + x as u16;
    if b < 172 {
        return Instruction::JumpOn {
            condition: true,
            ahead,
        };
    }
    Instruction::JumpOn {
        condition: false,
        ahead,
    }
}

// 176 to 255.
fn send(b: u8) -> Instruction
    requires { 176 ≤ b }
    ensures { result ≡ send_of b }
{
    if b < 208 {
        return Instruction::SpecialSend(b - 176);
    }
    Instruction::Send {
        literal: b % 16,
        arguments: (b - 208) / 16,
    }
}

// The instruction at a position of code of `size` bytes: `Unused` outside, and where it is not whole. A byte is fetched only where the
// instruction has it. By tests one after another: as a match of ranges the walk of check takes a quarter more time.
pub fn decode(words: &[u16], size: usize, at: usize) -> Instruction
    ensures { result ≡ decode_at words.now size at }
{
    if size <= at {
        return Instruction::Unused;
    }
    let b = byte(words, at);
    if b < 128 {
        return short(b);
    }
    if 176 <= b {
        return send(b);
    }
    if b < 135 {
        return extended_at(words, size, at, b);
    }
    if b < 144 {
        return pop_or_duplicate(b);
    }
    if b < 160 {
        return near(b);
    }
    if size - at < 2 {
        return Instruction::Unused;
    }
    far(b, byte_after(words, at, 1))
}

// An instruction, and the position behind it.
#[derive(Clone, Copy)]
pub struct Decoded {
    pub instruction: Instruction,
    pub next: usize,
}

// What an arm of the decoder below answers.
fn ends(instruction: Instruction, next: usize) -> Decoded
    ensures { result ≡ record { instruction = instruction; next = next } }
{
    Decoded { instruction, next }
}

// The decoder of the run loop, its only caller: see docs/DECISIONS.md, "The run loop". Each kind of byte has an arm, which
// builds its own variant.
pub fn instruction_at(words: &[u16], at: usize) -> Decoded
    requires { (next_at words.now at ≤ 2 * length words.now) × (at < 65536) }
    ensures { (result.instruction ≡ instruction_of (byte_at words.now at) (bytes_after words.now at))
        × (result.next ≡ next_at words.now at) }
{
    let b = fetch(words, at);
    match Kind::of(b) {
        Kind::PushField => ends(Instruction::Push(Place::Field((b % 16) as usize)), at + 1),
        Kind::PushTemporary => ends(
            Instruction::Push(Place::Temporary((b % 16) as usize)),
            at + 1,
        ),
        Kind::PushLiteral => ends(Instruction::Push(Place::Literal((b % 32) as usize)), at + 1),
        Kind::PushLiteralVariable => ends(
            Instruction::Push(Place::LiteralVariable((b % 32) as usize)),
            at + 1,
        ),
        Kind::PopField => ends(
            Instruction::PopStore(Place::Field((b % 8) as usize)),
            at + 1,
        ),
        Kind::PopTemporary => ends(
            Instruction::PopStore(Place::Temporary((b % 8) as usize)),
            at + 1,
        ),
        Kind::PushSelf => ends(Instruction::PushSelf, at + 1),
        Kind::PushTrue => ends(Instruction::PushConstant(6), at + 1),
        Kind::PushFalse => ends(Instruction::PushConstant(4), at + 1),
        Kind::PushNil => ends(Instruction::PushConstant(2), at + 1),
        Kind::PushMinusOne => ends(Instruction::PushConstant(65535), at + 1),
        Kind::PushZero => ends(Instruction::PushConstant(1), at + 1),
        Kind::PushOne => ends(Instruction::PushConstant(3), at + 1),
        Kind::PushTwo => ends(Instruction::PushConstant(5), at + 1),
        Kind::ReturnSelf => ends(Instruction::ReturnSelf, at + 1),
        Kind::ReturnTrue => ends(Instruction::ReturnConstant(6), at + 1),
        Kind::ReturnFalse => ends(Instruction::ReturnConstant(4), at + 1),
        Kind::ReturnNil => ends(Instruction::ReturnConstant(2), at + 1),
        Kind::ReturnTop => ends(Instruction::ReturnTop, at + 1),
        Kind::UnusedShort => ends(Instruction::Unused, at + 1),
        Kind::ExtendedPush => ends(Instruction::Push(place_of(fetch(words, at + 1))), at + 2),
        Kind::ExtendedStore => ends(Instruction::Store(place_of(fetch(words, at + 1))), at + 2),
        Kind::ExtendedPop => ends(
            Instruction::PopStore(place_of(fetch(words, at + 1))),
            at + 2,
        ),
        Kind::ExtendedSend => {
            let x = fetch(words, at + 1);
            ends(
                Instruction::Send {
                    literal: x % 32,
                    arguments: x / 32,
                },
                at + 2,
            )
        },
        Kind::LongSend => {
            let x = fetch(words, at + 1);
            let y = fetch(words, at + 2);
            ends(
                Instruction::Send {
                    literal: y,
                    arguments: x,
                },
                at + 3,
            )
        },
        Kind::ExtendedSuper => {
            let x = fetch(words, at + 1);
            ends(
                Instruction::SuperSend {
                    literal: x % 32,
                    arguments: x / 32,
                },
                at + 2,
            )
        },
        Kind::LongSuper => {
            let x = fetch(words, at + 1);
            let y = fetch(words, at + 2);
            ends(
                Instruction::SuperSend {
                    literal: y,
                    arguments: x,
                },
                at + 3,
            )
        },
        Kind::Pop => ends(Instruction::Pop, at + 1),
        Kind::Duplicate => ends(Instruction::Duplicate, at + 1),
        Kind::UnusedLong => ends(Instruction::Unused, at + 1),
        Kind::ShortJump => ends(
            Instruction::Jump {
                ahead: (b % 8) as u16 + 1,
                back: 0,
            },
            at + 1,
        ),
        Kind::ShortJumpOn => ends(
            Instruction::JumpOn {
                condition: false,
                ahead: (b % 8) as u16 + 1,
            },
            at + 1,
        ),
        Kind::Jump => ends(
            Instruction::Jump {
                ahead: (b % 8) as u16 * 256 + fetch(words, at + 1) as u16,
                back: 1024,
            },
            at + 2,
        ),
        Kind::JumpOnTrue => ends(
            Instruction::JumpOn {
                condition: true,
                ahead: (b % 4) as u16 * 256 + fetch(words, at + 1) as u16,
            },
            at + 2,
        ),
        Kind::JumpOnFalse => ends(
            Instruction::JumpOn {
                condition: false,
                ahead: (b % 4) as u16 * 256 + fetch(words, at + 1) as u16,
            },
            at + 2,
        ),
        Kind::Special0 => ends(Instruction::SpecialSend(0), at + 1),
        Kind::Special1 => ends(Instruction::SpecialSend(1), at + 1),
        Kind::Special2 => ends(Instruction::SpecialSend(2), at + 1),
        Kind::Special3 => ends(Instruction::SpecialSend(3), at + 1),
        Kind::Special4 => ends(Instruction::SpecialSend(4), at + 1),
        Kind::Special5 => ends(Instruction::SpecialSend(5), at + 1),
        Kind::Special6 => ends(Instruction::SpecialSend(6), at + 1),
        Kind::Special7 => ends(Instruction::SpecialSend(7), at + 1),
        Kind::Special8 => ends(Instruction::SpecialSend(8), at + 1),
        Kind::Special9 => ends(Instruction::SpecialSend(9), at + 1),
        Kind::Special10 => ends(Instruction::SpecialSend(10), at + 1),
        Kind::Special11 => ends(Instruction::SpecialSend(11), at + 1),
        Kind::Special12 => ends(Instruction::SpecialSend(12), at + 1),
        Kind::Special13 => ends(Instruction::SpecialSend(13), at + 1),
        Kind::Special14 => ends(Instruction::SpecialSend(14), at + 1),
        Kind::Special15 => ends(Instruction::SpecialSend(15), at + 1),
        Kind::Special16 => ends(Instruction::SpecialSend(16), at + 1),
        Kind::Special17 => ends(Instruction::SpecialSend(17), at + 1),
        Kind::Special18 => ends(Instruction::SpecialSend(18), at + 1),
        Kind::Special19 => ends(Instruction::SpecialSend(19), at + 1),
        Kind::Special20 => ends(Instruction::SpecialSend(20), at + 1),
        Kind::Special21 => ends(Instruction::SpecialSend(21), at + 1),
        Kind::Special22 => ends(Instruction::SpecialSend(22), at + 1),
        Kind::Special23 => ends(Instruction::SpecialSend(23), at + 1),
        Kind::Special24 => ends(Instruction::SpecialSend(24), at + 1),
        Kind::Special25 => ends(Instruction::SpecialSend(25), at + 1),
        Kind::Special26 => ends(Instruction::SpecialSend(26), at + 1),
        Kind::Special27 => ends(Instruction::SpecialSend(27), at + 1),
        Kind::Special28 => ends(Instruction::SpecialSend(28), at + 1),
        Kind::Special29 => ends(Instruction::SpecialSend(29), at + 1),
        Kind::Special30 => ends(Instruction::SpecialSend(30), at + 1),
        Kind::Special31 => ends(Instruction::SpecialSend(31), at + 1),
        Kind::SendNone => ends(
            Instruction::Send {
                literal: b % 16,
                arguments: 0,
            },
            at + 1,
        ),
        Kind::SendOne => ends(
            Instruction::Send {
                literal: b % 16,
                arguments: 1,
            },
            at + 1,
        ),
        Kind::SendTwo => ends(
            Instruction::Send {
                literal: b % 16,
                arguments: 2,
            },
            at + 1,
        ),
    }
}
