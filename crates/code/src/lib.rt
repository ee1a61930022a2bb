// The third pass of rule 7: the code of all methods, and the depth notes of all of them in one table, a byte for each byte of the bodies.
#![tactic(auto)]

ghost use Rattle.std.specs.Prelude.{◌≡◌, ◌*◌, ◌/◌, ◌<◌, ◌≤◌, length};
ghost use Rattle.bytecode.specs.Code.{decode_at};
ghost use Rattle.bytecode.specs.Table.{place_index, IsTable};
ghost use Rattle.bytecode.specs.Effect.{special_count};
ghost use Rattle.model.specs.Objects.{start};
ghost use Rattle.model.proofs.Unchanged.{Small};
ghost use Rattle.flow.specs.Linked.{place_linked, linked};
ghost use Rattle.model.specs.Method.{literal as literal_of};
ghost use Rattle.model.specs.Rules.{send_fine, method_table};
ghost use Rattle.model.specs.Depth.{depthTable};
ghost use Rattle.flow.specs.Walk.{Static, WalkingAt, tableBy, Answer, Lent, Walked};
ghost use Rattle.code.specs.Asked.{Asked, CodeLent, Blank, BlankFrom, rule_of, MethodWalked, PassLent, ObjectNoted, CodesNoted, MethodsNoted};
ghost use Rattle.code.specs.Turn.{Queued, Last, NextAt};
ghost use Rattle.methods.specs.Asked.{Ready};
ghost use Rattle.readers.specs.Places.{Entry};
ghost use Rattle.readers.specs.Lent.{objects_in, In};

use bytecode::{Instruction, Place, TableEntry};
use flow::{Code, Position, Went};
use model::{Pointer, limits};
use readers::Memory;

// The argument count of a special send, from the table's need.
fn special_count(table: &[u16; 256], k: u8) -> u8
    requires { IsTable table.now × (k < 32) }
    ensures { result ≡ special_count k }
{
    (TableEntry::of(table, 176 + k).need() - 1) as u8
}

// A special send: == and class look nothing up.
fn special_fine(table: &[u16; 256], memory: &Memory, counts: &[u8], m: u16, k: u8) -> bool
    requires { In (Asked table.now) memory.now counts.now m × (k < 32) }
    ensures { result ≡ linked (objects_in memory.now) m (Instruction.SpecialSend k) }
{
    if k == 22 || k == 23 {
        return true;
    }
    let s = memory.word_of(Pointer(limits::SELECTORS), k as usize);
    methods::send_fine(memory, counts, s, special_count(table, k))
}

// Literal i of a method, 0 where the bodies end before it: that its index is in range is the walk's to say.
fn literal_word(memory: &Memory, m: u16, i: usize) -> u16
    requires { Entry memory.now.n (m / 2) memory.now.contents.now × (memory.now.b ≤ length memory.now.bodies.now) × (i < 256) }
    ensures { result ≡ literal_of (objects_in memory.now) m i }
{
    let at = memory.start((m / 2) as usize) as usize + (limits::LITERALS + i);
    memory.word_at(at)
}

// A send of a literal.
fn selector_fine(
    table: &[u16; 256],
    memory: &Memory,
    counts: &[u8],
    m: u16,
    literal: u8,
    arguments: u8,
) -> bool
    requires { In (Asked table.now) memory.now counts.now m }
    ensures { result ≡ send_fine (objects_in memory.now)
        (literal_of (objects_in memory.now) m literal) arguments }
{
    let s = literal_word(memory, m, literal as usize);
    methods::send_fine(memory, counts, s, arguments)
}

// The place of a push or store.
fn place_fine(table: &[u16; 256], memory: &Memory, counts: &[u8], m: u16, p: Place) -> bool
    requires { In (Asked table.now) memory.now counts.now m × (place_index p < 64) }
    ensures { result ≡ place_linked (objects_in memory.now) m p }
{
    match p {
        Place::Field(_) | Place::Temporary(_) | Place::Literal(_) => true,
        Place::LiteralVariable(i) => methods::variable_fine(memory, literal_word(memory, m, i)),
    }
}

// What an instruction asks of the objects.
fn instruction_fine(
    table: &[u16; 256],
    memory: &Memory,
    counts: &[u8],
    m: u16,
    i: Instruction,
) -> bool
    requires { In (Asked table.now) memory.now counts.now m × Small i }
    ensures { result ≡ linked (objects_in memory.now) m i }
{
    match i {
        Instruction::Push(p) | Instruction::Store(p) | Instruction::PopStore(p) => {
            place_fine(table, memory, counts, m, p)
        }
        Instruction::Send { literal, arguments } | Instruction::SuperSend { literal, arguments } =>
            { selector_fine(table, memory, counts, m, literal, arguments) }
        Instruction::SpecialSend(k) => special_fine(table, memory, counts, m, k),
        _ => true,
    }
}

// What the instruction at a position asks of the objects.
fn here_fine(
    table: &[u16; 256],
    memory: &Memory,
    counts: &[u8],
    m: u16,
    words: &[u16],
    size: usize,
    at: usize,
) -> bool
    requires { In (Asked table.now) memory.now counts.now m }
    ensures { result ≡ linked (objects_in memory.now) m (decode_at words.now size at) }
{
    let i = bytecode::decode(words, size, at);
    instruction_fine(table, memory, counts, m, i)
}

// The last of the pending positions: how many are pending with it, where it is, and its depth.
#[derive(Clone, Copy)]
struct Spot {
    waiting: usize,
    at: usize,
    depth: usize,
}

// There is no depth table.
#[derive(Clone, Copy)]
struct NoTable;

// The last of the pending positions, if there are any.
fn last_pending(notes: &[u8], pending: &[u16], waiting: usize) -> Option<Spot>
    requires { Queued notes.now pending.now waiting }
    ensures { Last notes.now pending.now waiting result }
{
    if waiting == 0 {
        return None;
    }
    let at = pending[waiting - 1] as usize;
    let depth = notes[at] as usize - 1;
    Some(Spot { waiting, at, depth })
}

// Deals with a pending position: the rules that need objects, then the others. It gives the next one, or none where the walk is over.
fn turn(
    table: &[u16; 256],
    memory: &Memory,
    counts: &[u8],
    m: u16,
    words: &[u16],
    limits: &[u8; 4],
    room: usize,
    notes: &mut [u8],
    pending: &mut [u16],
    spot: Spot,
) -> Result<Option<Spot>, NoTable>
    requires asked { In (Asked table.now) memory.now counts.now m }
    requires fact { Static table.now limits.now words.now room notes.old pending.old }
    requires walking_at { WalkingAt limits.now words.now (length notes.old) room (linked (objects_in memory.now) m) notes.old pending.old
        spot.waiting spot.at spot.depth }
    ensures { NextAt limits.now words.now (length notes.old) room
        (linked (objects_in memory.now) m) notes.old spot.waiting notes.new pending.new result }
{
    let byte = bytecode::fetch(words, spot.at);
    let entry = TableEntry::of(table, byte);
    let size = notes.len();
    if !here_fine(table, memory, counts, m, words, size, spot.at) {
        return Err(NoTable);
    }
    let code = Code {
        limits,
        words,
        room,
    };
    let here = Position {
        at: spot.at,
        depth: spot.depth,
        byte,
        entry,
    };
    match flow::expand(code, here, notes, pending, spot.waiting - 1) {
        Went::Fresh(waiting, at, depth) => Ok(Some(Spot { waiting, at, depth })),
        Went::Known(waiting, _, _) => Ok(last_pending(notes, pending, waiting)),
        Went::Stuck => Err(NoTable),
    }
}

// Deals with pending positions until none is left.
fn drain(
    table: &[u16; 256],
    memory: &Memory,
    counts: &[u8],
    m: u16,
    words: &[u16],
    limits: &[u8; 4],
    room: usize,
    notes: &mut [u8],
    pending: &mut [u16],
) -> bool
    requires asked { In (Asked table.now) memory.now counts.now m }
    requires fact { Static table.now limits.now words.now room notes.old pending.old }
    requires walking_at { WalkingAt limits.now words.now (length notes.old) room (linked (objects_in memory.now) m) notes.old pending.old 1 0 0 }
    ensures { Answer (tableBy limits.now words.now (length notes.old) room
        (linked (objects_in memory.now) m)) notes.new result }
{
    let mut spot = Spot {
        waiting: 1,
        at: 0,
        depth: 0,
    };
    loop {
        match turn(
            table, memory, counts, m, words, limits, room, notes, pending, spot,
        ) {
            Ok(Some(next)) => spot = next,
            Ok(None) => return true,
            Err(NoTable) => return false,
        }
    }
}

// The depth walk over the code of a method, which has as many bytes as there are notes. They are 0, and end as the depth table, 0 for a
// position that is not reached and one more than the depth for any other; or all as 0, where there is none.
fn walk(
    table: &[u16; 256],
    memory: &Memory,
    counts: &[u8],
    m: u16,
    words: &[u16],
    fields: u8,
    temporaries: u8,
    literals: u8,
    limit: usize,
    notes: &mut [u8],
    pending: &mut [u16],
) -> bool
    requires asked { In (Asked table.now) memory.now counts.now m }
    requires lent { Lent table.now words.now limit notes.old pending.old }
    requires blank { Blank notes.old }
    ensures { Walked (depthTable words.now (length notes.old) temporaries limit
        (rule_of (objects_in memory.now) m fields temporaries literals)) (length notes.old) notes.new result }
{
    if notes.len() == 0 {
        return false;
    }
    let t = temporaries as usize;
    if limit < t {
        return false;
    }
    notes[0] = 1;
    pending[0] = 0;
    let limits = [1, fields, temporaries, literals];
    if drain(
        table,
        memory,
        counts,
        m,
        words,
        &limits,
        limit - t,
        notes,
        pending,
    ) {
        return true;
    }
    flow::clear(notes);
    false
}

// The notes of a method's code: those of its depth table, all 0 where it has none, as they were.
fn code_notes(
    edition: u16,
    table: &[u16; 256],
    memory: &Memory,
    counts: &[u8],
    m: u16,
    words: &[u16],
    notes: &mut [u8],
    pending: &mut [u16],
) -> bool
    requires { In (Asked table.now) memory.now counts.now m
        × CodeLent (objects_in memory.now) m words.now (length notes.old)
        × (length notes.old ≤ length pending.old)
        × Blank notes.old }
    ensures { Walked (method_table edition (objects_in memory.now) m) (length notes.old) notes.new result }
{
    let header = memory.word_of(Pointer(m), limits::HEADER) as usize;
    let home = memory.word_of(Pointer(m), limits::HOME);
    let fields = (memory.word_of(Pointer(home), limits::FIELDS_WORD) / 2) as u8;
    let temporaries = readers::temporary_count(header) as u8;
    let literals = readers::literal_count(header) as u8;
    let limit = readers::frame_words(header);
    walk(
        table,
        memory,
        counts,
        m,
        words,
        fields,
        temporaries,
        literals,
        limit,
        notes,
        pending,
    )
}

// The same in the table of all methods' notes.
fn method_notes(
    edition: u16,
    table: &[u16; 256],
    memory: &Memory,
    counts: &[u8],
    m: u16,
    notes: &mut [u8],
    pending: &mut [u16],
) -> bool
    requires { In (Asked table.now) memory.now counts.now m
        × (2 * memory.now.b ≤ length notes.old)
        × (2 * memory.now.b ≤ length pending.old)
        × BlankFrom (start (objects_in memory.now) (m / 2)) notes.old }
    ensures { MethodWalked edition (objects_in memory.now) m notes.old notes.new result }
{
    let k = (m / 2) as usize;
    let header = memory.word_of(Pointer(m), limits::HEADER) as usize;
    let skip = limits::LITERALS + readers::literal_count(header);
    let from = memory.start(k) as usize + skip;
    let end = memory.body_end(k);
    let first = 2 * from;
    let last = first + (memory.size(k) as usize - 2 * skip);
    code_notes(
        edition,
        table,
        memory,
        counts,
        m,
        &memory.bodies[from..end],
        &mut notes[first..last],
        pending,
    )
}

// Object k, where it is a method. Its notes are made whether or not its code can run.
fn code_object(
    edition: u16,
    table: &[u16; 256],
    memory: &Memory,
    counts: &[u8],
    k: usize,
    notes: &mut [u8],
    pending: &mut [u16],
) -> bool
    requires { In (PassLent table.now) memory.now counts.now (length notes.old) (length pending.old)
        × (1 ≤ k)
        × (k ≤ memory.now.n)
        × BlankFrom (start (objects_in memory.now) k) notes.old }
    ensures { ObjectNoted edition (objects_in memory.now) k notes.old notes.new result }
{
    if memory.kind(k) != limits::METHOD {
        return true;
    }
    let m = (2 * k) as u16;
    if method_notes(edition, table, memory, counts, m, notes, pending) {
        return true;
    }
    let header = memory.word_of(Pointer(m), limits::HEADER) as usize;
    !readers::runs_code(header)
}

// The third pass: the code of all methods.
fn codes_fine(
    edition: u16,
    table: &[u16; 256],
    memory: &Memory,
    counts: &[u8],
    notes: &mut [u8],
    pending: &mut [u16],
) -> bool
    requires { In (PassLent table.now) memory.now counts.now (length notes.old) (length pending.old) × Blank notes.old }
    ensures { CodesNoted edition (objects_in memory.now) notes.new result }
{
    for k in 1..=memory.n {
        if !code_object(edition, table, memory, counts, k, notes, pending) {
            return false;
        }
    }
    true
}

// The same, with room for so many pending positions: the less room, the less to clear. Each size is a function of its own, so that the arrays
// share their place on the stack.
fn codes_with_room<const ROOM: usize>(
    edition: u16,
    table: &[u16; 256],
    memory: &Memory,
    counts: &[u8],
    notes: &mut [u8],
) -> bool
    requires { In (PassLent table.now) memory.now counts.now (length notes.old) (2 * memory.now.b) × Blank notes.old × (2 * memory.now.b ≤ ROOM) × (ROOM ≤ 48000) }
    ensures { CodesNoted edition (objects_in memory.now) notes.new result }
{
    let mut pending = [0; ROOM];
    codes_fine(edition, table, memory, counts, notes, &mut pending)
}

// By the size of the image.
fn codes_noted(
    edition: u16,
    table: &[u16; 256],
    memory: &Memory,
    counts: &[u8],
    notes: &mut [u8],
) -> bool
    requires { In (PassLent table.now) memory.now counts.now (length notes.old) (2 * memory.now.b) × Blank notes.old }
    ensures { CodesNoted edition (objects_in memory.now) notes.new result }
{
    if memory.b <= 2000 {
        return codes_with_room::<4000>(edition, table, memory, counts, notes);
    }
    if memory.b <= 8000 {
        return codes_with_room::<16000>(edition, table, memory, counts, notes);
    }
    codes_with_room::<{ limits::MOST_BODY_BYTES }>(edition, table, memory, counts, notes)
}

// Rule 7, and the notes of all methods.
pub fn methods_fine(edition: u16, memory: &Memory, notes: &mut [u8]) -> bool
    requires { In Ready memory.now × (2 * memory.now.b ≤ length notes.old) × Blank notes.old }
    ensures { MethodsNoted edition (objects_in memory.now) notes.new result }
{
    if !methods::shapes_fine(memory) {
        return false;
    }
    let mut counts = [0; 2048];
    if !methods::count_methods(memory, &mut counts) {
        return false;
    }
    if !methods::failures_fine(edition, &counts) {
        return false;
    }
    let table = bytecode::table();
    codes_noted(edition, &table, memory, &counts, notes)
}
