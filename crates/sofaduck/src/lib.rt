// The calls as C makes them: registers are eight words, and every function returns 0 or the number of the refusal. `sofaduck_c` exports them: there a
// slice is a pointer and a length. include/sofaduck.h is the same for a C programmer.
#![tactic(auto)]

ghost use Rattle.std.specs.Prelude.{◌≡◌, List, ℕ};
ghost use Rattle.plain.specs.Registers as R;
ghost use Rattle.plain.specs.Flat.{flat};
ghost use Rattle.plain.specs.Check as K;
ghost use Rattle.plain.specs.FlatCalls.{gives, saved, flat_load, flat_begin, flat_run, flat_drop, flat_forget, flat_save};
ghost use Rattle.calls.specs.Plays.{flat_play};
ghost use Rattle.machine.specs.State.{registers_of};
ghost use Rattle.sofaduck.specs.Border.{registers_at, state_of, answer_of, verdict_of, KeptIfRefused, run_answer, save_answer, play_answer};

use machine::Registers;

// C's eight registers, written and read. By hand: a `From` would have to stand with `Registers`, which knows nothing of C's order of the words.
fn write_registers(registers: &mut [u16; 8], r: Registers)
    ensures { registers_at registers.new ≡ registers_of r }
{
    *registers = [
        r.n, r.b, r.receiver, r.selector, r.phase, r.top, r.value, r.edition,
    ];
}

fn read_registers(registers: &[u16; 8]) -> Registers
    ensures { registers_of result ≡ registers_at registers.now }
{
    Registers {
        n: registers[0],
        b: registers[1],
        receiver: registers[2],
        selector: registers[3],
        phase: registers[4],
        top: registers[5],
        value: registers[6],
        edition: registers[7],
    }
}

pub fn sofaduck_load(
    image: &[u8],
    contents: &mut [u16],
    bodies: &mut [u16],
    cache: &mut [u16],
    registers: &mut [u16; 8],
) -> u32
    ensures { (g : R.Registers) (stack : List ℕ)
        → gives (answer_of result) (state_of registers.new contents.new bodies.new stack cache.new)
        ≡ flat_load (flat g contents.old bodies.old stack cache.old) image.now }
{
    match loads::load(image, contents, bodies, cache) {
        Ok(loaded) => {
            write_registers(registers, loaded);
            0
        }
        Err(refusal) => {
            write_registers(registers, loads::no_registers());
            refusal.number()
        }
    }
}

pub fn sofaduck_begin(
    contents: &mut [u16],
    bodies: &mut [u16],
    stack: &mut [u16],
    cache: &[u16],
    registers: &mut [u16; 8],
    receiver: u16,
    selector: u16,
    arguments: &[u16],
) -> u32
    ensures { gives (answer_of result) (state_of registers.new contents.new bodies.new stack.new
        cache.now)
        ≡ flat_begin (state_of registers.old contents.old bodies.old stack.old cache.now)
        receiver selector arguments.now }
{
    let before = read_registers(registers);
    match before.begin(
        contents, bodies, stack, cache, receiver, selector, arguments,
    ) {
        Ok(begun) => {
            write_registers(registers, begun);
            0
        }
        Err(refusal) => refusal.number(),
    }
}

pub fn sofaduck_run(
    contents: &mut [u16],
    bodies: &mut [u16],
    stack: &mut [u16],
    cache: &mut [u16],
    registers: &mut [u16; 8],
    grant: u32,
    count: &mut u32,
    reach: &mut u32,
    dictionaries: &mut u64,
) -> u32
    ensures { (gives (run_answer result (registers_at registers.new) count.new reach.new dictionaries.new)
        (state_of registers.new contents.new bodies.new stack.new cache.new)
        ≡ flat_run (state_of registers.old contents.old bodies.old stack.old cache.old) grant)
        × KeptIfRefused result count.old count.new × KeptIfRefused result reach.old reach.new
        × KeptIfRefused result dictionaries.old dictionaries.new }
{
    let before = read_registers(registers);
    match before.run(contents, bodies, stack, cache, grant) {
        Ok(ran) => {
            write_registers(registers, ran.registers);
            *count = ran.count;
            *reach = ran.reach;
            *dictionaries = ran.dictionaries;
            0
        }
        Err(refusal) => refusal.number(),
    }
}

pub fn sofaduck_drop(
    contents: &[u16],
    bodies: &[u16],
    stack: &[u16],
    cache: &[u16],
    registers: &mut [u16; 8],
) -> u32
    ensures { gives (answer_of result) (state_of registers.new contents.now bodies.now stack.now
        cache.now)
        ≡ flat_drop (state_of registers.old contents.now bodies.now stack.now cache.now) }
{
    let before = read_registers(registers);
    match before.drop(contents, bodies, stack, cache) {
        Ok(dropped) => {
            write_registers(registers, dropped);
            0
        }
        Err(refusal) => refusal.number(),
    }
}

pub fn sofaduck_play(
    contents: &mut [u16],
    bodies: &mut [u16],
    stack: &mut [u16],
    cache: &mut [u16],
    registers: &mut [u16; 8],
    calls: &[u16],
    answers: &mut [u32],
    made: &mut u32,
) -> u32
    ensures { (play_answer result made.new (state_of registers.new contents.new bodies.new stack.new
        cache.new) answers.new
        ≡ flat_play (state_of registers.old contents.old bodies.old stack.old cache.old)
        calls.now answers.old)
        × KeptIfRefused result made.old made.new }
{
    let before = read_registers(registers);
    match before.play(contents, bodies, stack, cache, calls, answers) {
        Ok(played) => {
            write_registers(registers, played.registers);
            *made = played.calls;
            0
        }
        Err(refusal) => refusal.number(),
    }
}

pub fn sofaduck_forget(
    contents: &[u16],
    bodies: &[u16],
    stack: &[u16],
    cache: &mut [u16],
    registers: &[u16; 8],
) -> u32
    ensures { gives (answer_of result) (state_of registers.now contents.now bodies.now stack.now
        cache.new)
        ≡ flat_forget (state_of registers.now contents.now bodies.now stack.now cache.old) }
{
    match machine::forget(read_registers(registers), contents, bodies, stack, cache) {
        Ok(()) => 0,
        Err(refusal) => refusal.number(), // as check answers
    }
}

pub fn sofaduck_check(
    contents: &[u16],
    bodies: &[u16],
    stack: &[u16],
    cache: &[u16],
    registers: &[u16; 8],
) -> u32
    ensures { verdict_of result ≡ K.check (state_of registers.now contents.now bodies.now stack.now cache.now) }
{
    match machine::check(read_registers(registers), contents, bodies, stack, cache) {
        Ok(()) => 0,
        Err(refusal) => refusal.number(), // 3 or 11
    }
}

pub fn sofaduck_save(
    contents: &[u16],
    bodies: &[u16],
    stack: &[u16],
    cache: &[u16],
    registers: &[u16; 8],
    output: &mut [u8],
    length: &mut u32,
) -> u32
    ensures { (saved (save_answer result length.new) output.new
        ≡ flat_save (state_of registers.now contents.now bodies.now stack.now cache.now)
        output.old)
        × KeptIfRefused result length.old length.new }
{
    match loads::save(
        read_registers(registers),
        contents,
        bodies,
        stack,
        cache,
        output,
    ) {
        Ok(bytes) => {
            *length = bytes;
            0
        }
        Err(refusal) => refusal.number(), // 3 for a short output too
    }
}
