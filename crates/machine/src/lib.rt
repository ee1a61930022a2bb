// The calls on a state. Each promise is an equation with the flat calls of plain's specs/FlatCalls.antt, through the definitions of specs/State.antt:
// it gives the answer and every lent word, and leaves nothing to the program. What is named `.._checked` takes a state that check accepts and does not
// look at it again.
#![tactic(auto)]

ghost use Rattle.std.specs.Prelude.{◌≡◌, ◌+◌, ◌*◌, ◌≤◌, T, length};
ghost use Rattle.std.proofs.lemmas.List.Edits.{sets};
ghost use Rattle.model.specs.Image.{accepted, buffers_fine};
ghost use Rattle.code.specs.Asked.{Blank};
ghost use Rattle.plain.specs.Running.{room_at};
ghost use Rattle.plain.specs.Registers as R;
ghost use Rattle.plain.specs.Check as K;
ghost use Rattle.plain.specs.FlatCalls.{flat_begin, flat_run, flat_drop, flat_forget, flat_call};
ghost use Rattle.calls.specs.Encoding.{size_at, call_at, answer_size, answer_words};
ghost use Rattle.calls.specs.Plays.{Plays};
ghost use Rattle.machine.specs.Parts.{FirstParts};
ghost use Rattle.machine.specs.State.{registers_of, state, call_gives, run_gives, forget_gives};
ghost use Rattle.machine.specs.Lists.{registers_in, answer_in, reply_gives, PromisedPlay};
ghost use Rattle.store.specs.Readings.{verdict_by};

use begins::Beginning;
use calls::{Answer, Listed};
use model::{Refusal, limits};
use readers::Memory;

// `receiver` and `selector` are the start words, `edition` is the image's.
#[derive(Clone, Copy)]
pub struct Registers {
    pub n: u16,
    pub b: u16,
    pub receiver: u16,
    pub selector: u16,
    pub phase: u16,
    pub top: u16,
    pub value: u16,
    pub edition: u16,
}

// What a run left. Its phase and value are those of the registers.
#[derive(Clone, Copy)]
pub struct Ran {
    pub registers: Registers,
    pub count: u32,
    pub reach: u32,
    pub dictionaries: u64,
}

// What the calls of a list left: the registers, and how many were made.
#[derive(Clone, Copy)]
pub struct Made {
    pub registers: Registers,
    pub calls: u32,
}

// A call of a list that was made.
#[derive(Clone, Copy)]
enum Reply {
    Done(Registers),
    Ran(Ran),
}

// The image's rules, the frames and the cache of a state whose buffers are long enough and whose counts and registers are right. The notes
// are 0.
fn noted_fine(
    registers: Registers,
    contents: &[u16],
    bodies: &[u16],
    stack: &[u16],
    cache: &[u16],
    notes: &mut [u8],
) -> bool
    requires t { T (buffers_fine (room_at contents.now bodies.now stack.now cache.now) registers.n registers.b) }
    requires first_parts { FirstParts (registers_of registers) × (2 * registers.b ≤ length notes.old) × Blank notes.old }
    ensures { result ≡ K.state_fine (state registers contents.now bodies.now stack.now cache.now) }
{
    let edition = registers.edition;
    let n = registers.n as usize;
    let b = registers.b as usize;
    let memory = &Memory {
        contents,
        bodies,
        n,
        b,
    };
    if store::judge(
        edition,
        memory,
        registers.receiver,
        registers.selector,
        notes,
    )
    .is_err()
    {
        return false;
    }
    state::standing_fine(
        memory,
        stack,
        notes,
        edition,
        registers.phase,
        registers.top,
    ) && cache::cache_fine(memory, cache)
}

// With so many bytes of notes: the fewer, the less to clear. Each size is a function of its own, so that the arrays share their place on the stack.
fn noted<const BYTES: usize>(
    registers: Registers,
    contents: &[u16],
    bodies: &[u16],
    stack: &[u16],
    cache: &[u16],
) -> bool
    requires t { T (buffers_fine (room_at contents.now bodies.now stack.now cache.now) registers.n registers.b) }
    requires first_parts { FirstParts (registers_of registers) × (2 * registers.b ≤ BYTES) × (BYTES ≤ 48000) }
    ensures { result ≡ K.state_fine (state registers contents.now bodies.now stack.now cache.now) }
{
    let mut notes = [0u8; BYTES];
    noted_fine(registers, contents, bodies, stack, cache, &mut notes)
}

// The image's rules, the registers, the frames and the cache of a state whose buffers are long enough.
fn state_fine(
    registers: Registers,
    contents: &[u16],
    bodies: &[u16],
    stack: &[u16],
    cache: &[u16],
) -> bool
    requires { T (buffers_fine (room_at contents.now bodies.now stack.now cache.now) registers.n registers.b) }
    ensures { result ≡ K.state_fine (state registers contents.now bodies.now stack.now cache.now) }
{
    if !store::header_fine(registers.edition, registers.n, registers.b) {
        return false;
    }
    if !state::registers_fine(registers.n as usize, registers.phase, registers.value) {
        return false;
    }
    if registers.b <= 2000 {
        return noted::<4000>(registers, contents, bodies, stack, cache);
    }
    if registers.b <= 8000 {
        return noted::<16000>(registers, contents, bodies, stack, cache);
    }
    noted::<{ limits::MOST_BODY_BYTES }>(registers, contents, bodies, stack, cache)
}

// 3, then 11.
pub fn check(
    registers: Registers,
    contents: &[u16],
    bodies: &[u16],
    stack: &[u16],
    cache: &[u16],
) -> Result<(), Refusal>
    ensures { verdict_by result ≡ K.check (state registers contents.now bodies.now stack.now cache.now) }
{
    if !store::buffers_fine(
        contents.len(),
        bodies.len(),
        cache.len(),
        registers.n,
        registers.b,
    ) {
        return Err(Refusal::Buffers);
    }
    if !state_fine(registers, contents, bodies, stack, cache) {
        return Err(Refusal::State);
    }
    Ok(())
}

// The cache emptied.
pub fn forget(
    registers: Registers,
    contents: &[u16],
    bodies: &[u16],
    stack: &[u16],
    cache: &mut [u16],
) -> Result<(), Refusal>
    ensures { forget_gives registers result contents.now bodies.now stack.now cache.new
        ≡ flat_forget (state registers contents.now bodies.now stack.now cache.old) }
{
    check(registers, contents, bodies, stack, cache)?;
    cache.fill(0); // every entry
    Ok(())
}

// The answer of a call written down; the registers after it, which are those before it where it is refused.
fn write_reply(
    before: Registers,
    reply: Result<Reply, Refusal>,
    answers: &mut [u32],
    at: usize,
) -> Registers
    requires { at + answer_size ≤ length answers.old }
    ensures { (result ≡ registers_in before reply) × (answers.new ≡ sets answers.old at (answer_words (answer_in reply))) }
{
    match reply {
        Ok(Reply::Done(registers)) => {
            calls::write_answer(answers, at, Answer::DONE);
            registers
        }
        Ok(Reply::Ran(ran)) => {
            let answer = Answer {
                phase: ran.registers.phase as u32,
                count: ran.count,
                value: ran.registers.value as u32,
                reach: ran.reach,
                dictionaries: ran.dictionaries,
                ..Answer::DONE
            };
            calls::write_answer(answers, at, answer);
            ran.registers
        }
        Err(refusal) => {
            let answer = Answer {
                number: refusal.number(),
                ..Answer::DONE
            };
            calls::write_answer(answers, at, answer);
            before
        }
    }
}

impl Registers {
    // The same but for phase, top and value.
    fn with_phase(self, phase: u16, top: u16, value: u16) -> Registers
        ensures { registers_of result ≡ R.with_phase (registers_of self) phase top value }
    {
        Registers {
            phase,
            top,
            value,
            ..self
        }
    }

    // The same but for N and B.
    fn with_sizes(self, n: u16, b: u16) -> Registers
        ensures { registers_of result ≡ R.with_sizes (registers_of self) n b }
    {
        Registers { n, b, ..self }
    }

    // A send from no frame, all frames removed: 12 in phase 1, then 8, 9, 10, 13. The cache is not touched: it belongs to the state that was checked.
    fn begin_checked(
        self,
        contents: &mut [u16],
        bodies: &mut [u16],
        stack: &mut [u16],
        cache: &[u16],
        receiver: u16,
        selector: u16,
        arguments: &[u16],
    ) -> Result<Registers, Refusal>
        requires { K.check (state self contents.old bodies.old stack.old cache.now) ≡ accepted }
        ensures { call_gives self result contents.new bodies.new stack.new cache.now
            ≡ flat_begin (state self contents.old bodies.old stack.old cache.now) receiver selector
            arguments.now }
    {
        if self.phase == 1 {
            return Err(Refusal::Phase);
        }
        let beginning = begins::begin(
            contents,
            bodies,
            stack,
            self.edition,
            self.n as usize,
            self.b as usize,
            receiver,
            selector,
            arguments,
        )?;
        match beginning {
            Beginning::Answered { word, n, b } => {
                let grown = self.with_sizes(n as u16, b as u16);
                Ok(grown.with_phase(2, 0, word))
            }
            Beginning::Entered => Ok(self.with_phase(1, 0, 0)),
        }
    }

    // The same behind a check.
    pub fn begin(
        self,
        contents: &mut [u16],
        bodies: &mut [u16],
        stack: &mut [u16],
        cache: &[u16],
        receiver: u16,
        selector: u16,
        arguments: &[u16],
    ) -> Result<Registers, Refusal>
        ensures { call_gives self result contents.new bodies.new stack.new cache.now
            ≡ flat_begin (state self contents.old bodies.old stack.old cache.now) receiver selector
            arguments.now }
    {
        check(self, contents, bodies, stack, cache)?;
        self.begin_checked(
            contents, bodies, stack, cache, receiver, selector, arguments,
        )
    }

    // At most `grant` bytecodes; 12 outside phase 1. It alone calls `grants::run`, so that the loop is compiled once.
    fn run_checked(
        self,
        contents: &mut [u16],
        bodies: &mut [u16],
        stack: &mut [u16],
        cache: &mut [u16],
        grant: u32,
    ) -> Result<Ran, Refusal>
        requires { K.check (state self contents.old bodies.old stack.old cache.old) ≡ accepted }
        ensures { run_gives self result contents.new bodies.new stack.new cache.new
            ≡ flat_run (state self contents.old bodies.old stack.old cache.old) grant }
    {
        if self.phase != 1 {
            return Err(Refusal::Phase);
        }
        let ended = grants::run(
            contents,
            bodies,
            stack,
            cache,
            self.edition,
            self.n as usize,
            self.b as usize,
            self.top as usize,
            grant,
        );
        let grown = self.with_sizes(ended.n, ended.b);
        Ok(Ran {
            registers: grown.with_phase(ended.phase, ended.top, ended.value),
            count: ended.count,
            reach: ended.reach as u32,
            dictionaries: ended.dictionaries,
        })
    }

    // The same behind a check.
    pub fn run(
        self,
        contents: &mut [u16],
        bodies: &mut [u16],
        stack: &mut [u16],
        cache: &mut [u16],
        grant: u32,
    ) -> Result<Ran, Refusal>
        ensures { run_gives self result contents.new bodies.new stack.new cache.new
            ≡ flat_run (state self contents.old bodies.old stack.old cache.old) grant }
    {
        check(self, contents, bodies, stack, cache)?;
        self.run_checked(contents, bodies, stack, cache, grant)
    }

    // All frames removed.
    pub fn drop(
        self,
        contents: &[u16],
        bodies: &[u16],
        stack: &[u16],
        cache: &[u16],
    ) -> Result<Registers, Refusal>
        ensures { call_gives self result contents.now bodies.now stack.now cache.now
            ≡ flat_drop (state self contents.now bodies.now stack.now cache.now) }
    {
        check(self, contents, bodies, stack, cache)?; // only frames that it accepts go
        Ok(self.with_phase(0, 0, 0))
    }

    // The call at i of a list, which stands there whole.
    fn call_checked(
        self,
        contents: &mut [u16],
        bodies: &mut [u16],
        stack: &mut [u16],
        cache: &mut [u16],
        calls: &[u16],
        i: usize,
    ) -> Result<Reply, Refusal>
        requires bound { 1 ≤ size_at calls.now i }
        requires cache_value { K.check (state self contents.old bodies.old stack.old cache.old) ≡ accepted }
        ensures { reply_gives self result contents.new bodies.new stack.new cache.new
            ≡ flat_call (state self contents.old bodies.old stack.old cache.old)
            (call_at calls.now i) }
    {
        match calls::call_at(calls, i) {
            Listed::Begin {
                receiver,
                selector,
                from,
                end,
            } => {
                let arguments = &calls[from..end];
                let registers = self.begin_checked(
                    contents, bodies, stack, cache, receiver, selector, arguments,
                )?;
                Ok(Reply::Done(registers))
            }
            Listed::Run(grant) => {
                let ran = self.run_checked(contents, bodies, stack, cache, grant)?;
                Ok(Reply::Ran(ran))
            }
            Listed::Drop => Ok(Reply::Done(self.with_phase(0, 0, 0))),
            Listed::Forget => {
                cache.fill(0);
                Ok(Reply::Done(self))
            }
        }
    }

    // The calls of a list in words (crate `calls`) one after another, as long as there is room for an answer. Check accepts the state after each, as
    // the theorem says.
    pub fn play_checked(
        self,
        contents: &mut [u16],
        bodies: &mut [u16],
        stack: &mut [u16],
        cache: &mut [u16],
        calls: &[u16],
        answers: &mut [u32],
    ) -> Made
        requires { K.check (state self contents.old bodies.old stack.old cache.old) ≡ accepted }
        ensures { Plays calls.now answers.old
            (state self contents.old bodies.old stack.old cache.old) result.calls
            (state result.registers contents.new bodies.new stack.new cache.new) answers.new }
    {
        let room = calls::answer_room(answers.len());
        let mut registers = self;
        let mut i = 0;
        for made in 0..room {
            let Some(size) = calls::size_at(calls, i) else {
                return Made {
                    registers,
                    calls: made,
                };
            };
            let reply = registers.call_checked(contents, bodies, stack, cache, calls, i);
            registers = write_reply(
                registers,
                reply,
                answers,
                calls::ANSWER_SIZE * made as usize,
            );
            i += size;
        }
        Made {
            registers,
            calls: room,
        }
    }

    // The same behind one check: 3 or 11 refuses the whole list.
    pub fn play(
        self,
        contents: &mut [u16],
        bodies: &mut [u16],
        stack: &mut [u16],
        cache: &mut [u16],
        calls: &[u16],
        answers: &mut [u32],
    ) -> Result<Made, Refusal>
        ensures { PromisedPlay self contents.old bodies.old stack.old cache.old
            calls.now answers.old result contents.new bodies.new stack.new cache.new
            answers.new }
    {
        check(self, contents, bodies, stack, cache)?;
        Ok(self.play_checked(contents, bodies, stack, cache, calls, answers))
    }
}
