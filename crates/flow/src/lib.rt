// The step of the depth walk over a method's code, by the rules that need no objects: which positions are reached from one, and how many operands
// stand there. The walk itself is code's, which asks the objects too.
#![tactic(auto)]

ghost use Rattle.std.specs.Prelude.{◌≡◌, ◌&&◌, [], ◌∷◌, ℕ, ◌+◌, ◌-◌, ◌*◌, ◌<◌, ◌≤◌, ltb, leb, length, get_or, replicate};
ghost use Rattle.bytecode.specs.Code.{place_of, instruction_of};
ghost use Rattle.bytecode.specs.Table.{group_part, length_part, need_part, leaves_part, bound_part, index_part};
ghost use Rattle.model.specs.Rules.{is_writable};
ghost use Rattle.flow.specs.Index.{place_indexed_by, indexed_by};
ghost use Rattle.flow.specs.Walk.{Asks, Visit, Visits, Step, alike, Here, Expand};

use bytecode::TableEntry;

// The code of a method: the counts that its indexes have to be below (1, fields, temporaries, literals), the words that hold it, and the room for operands.
#[derive(Clone, Copy)]
pub struct Code<'a> {
    pub limits: &'a [u8; 4],
    pub words: &'a [u16],
    pub room: usize,
}

// A position that is examined: how many operands stand there, its byte, and that byte's entry.
#[derive(Clone, Copy)]
pub struct Position {
    pub at: usize,
    pub depth: usize,
    pub byte: u8,
    pub entry: TableEntry,
}

// After a step: how many positions are pending; or that there is no depth table. `Fresh` has the last of them too, with its depth: it was
// noted just now. `Known` holds two zeros for these: variants of equal fields stay in registers, others go through memory.
#[derive(Clone, Copy)]
pub enum Went {
    Fresh(usize, usize, usize),
    Known(usize, usize, usize),
    Stuck,
}

// The pending positions are the first `waiting` words of a lent array, as there is no heap.
// Notes a position's depth and makes it pending, if nothing is noted there. It is stuck where another depth is noted, too deep, or outside.
fn visit(
    notes: &mut [u8],
    pending: &mut [u16],
    waiting: usize,
    at: usize,
    depth: usize,
    room: usize,
) -> Went
    requires { Asks notes.old pending.old waiting room }
    ensures { Visit room notes.old pending.old waiting at depth notes.new pending.new result }
{
    if room < depth || notes.len() <= at {
        return Went::Stuck;
    }
    let old = notes[at] as usize;
    if old == 0 {
        notes[at] = (depth + 1) as u8;
        pending[waiting] = at as u16;
        return Went::Fresh(waiting + 1, at, depth);
    }
    if old == depth + 1 {
        return Went::Known(waiting, 0, 0);
    }
    Went::Stuck
}

// Two positions, with one depth.
fn both(
    notes: &mut [u8],
    pending: &mut [u16],
    waiting: usize,
    a: usize,
    b: usize,
    depth: usize,
    room: usize,
) -> Went
    requires { Asks notes.old pending.old waiting room }
    ensures { Visits room (a ∷ b ∷ []) (alike depth) notes.old pending.old waiting notes.new pending.new result }
{
    match visit(notes, pending, waiting, a, depth, room) {
        Went::Fresh(k, _, _) | Went::Known(k, _, _) => visit(notes, pending, k, b, depth, room),
        Went::Stuck => Went::Stuck,
    }
}

// After a jump on a boolean, which takes one operand.
fn fork(
    notes: &mut [u8],
    pending: &mut [u16],
    waiting: usize,
    next: usize,
    target: usize,
    depth: usize,
    room: usize,
) -> Went
    requires { Asks notes.old pending.old waiting room }
    ensures { Step room (leb 1 depth) (next ∷ target ∷ []) (alike (depth - 1)) notes.old pending.old waiting notes.new
        pending.new result }
{
    if depth < 1 {
        return Went::Stuck;
    }
    both(notes, pending, waiting, next, target, depth - 1, room)
}

// After an instruction that needs and leaves so many operands.
fn onward(
    notes: &mut [u8],
    pending: &mut [u16],
    waiting: usize,
    next: usize,
    depth: usize,
    need: usize,
    leaves: usize,
    room: usize,
) -> Went
    requires asks { Asks notes.old pending.old waiting room }
    requires depth_le_room { (depth ≤ room) × (leaves ≤ 3) }
    ensures { Step room (leb need depth) (next ∷ []) (alike (depth - need + leaves)) notes.old pending.old waiting
        notes.new pending.new result }
{
    if depth < need {
        return Went::Stuck;
    }
    visit(notes, pending, waiting, next, depth - need + leaves, room)
}

// An instruction of one byte that goes on to the next: its entry says all of it.
fn plain(code: Code, here: Position, notes: &mut [u8], pending: &mut [u16], waiting: usize) -> Went
    requires asks { Asks notes.old pending.old waiting code.room }
    requires depth_le_room { (here.depth ≤ code.room) × (here.at ≤ 48000) }
    ensures { Step code.entry.room (ltb (index_part here.entry.0) (get_or code.entry.limits.now (bound_part here.entry.0) 0)
        && leb (need_part here.entry.0) here.depth) ((here.at + 1) ∷ [])
        (alike (here.depth - need_part here.entry.0 + leaves_part here.entry.0)) notes.old pending.old
        waiting notes.new pending.new result }
{
    let entry = here.entry;
    if code.limits[entry.bound()] <= entry.index() as u8 {
        return Went::Stuck;
    }
    onward(
        notes,
        pending,
        waiting,
        here.at + 1,
        here.depth,
        entry.need(),
        entry.leaves(),
        code.room,
    )
}

// The byte of an extended push.
#[tactic(auto, using(bytecode::proofs::Choice::ranges), unfolding(bytecode::specs::Code::place_of, crate::specs::Index::placeIndexed))]
fn push_fits(limits: &[u8; 4], x: u8) -> bool
    ensures { result ≡ place_indexed_by limits.now (place_of x) }
{
    let k = x % 64;
    match x {
        ..=63 => k < limits[1],
        ..=127 => k < limits[2],
        _ => k < limits[3],
    }
}

// The same of an extended store, which goes to no literal.
#[tactic(auto, using(bytecode::proofs::Choice::ranges), unfolding(bytecode::specs::Code::place_of, crate::specs::Index::placeIndexed))]
fn store_fits(limits: &[u8; 4], x: u8) -> bool
    ensures { result ≡ is_writable (place_of x) && place_indexed_by limits.now (place_of x) }
{
    x / 64 != 2 && push_fits(limits, x)
}

// 128 to 134, by the bytes that follow. An arm for each: joined patterns are a row of tests, which is slower.
fn extended_fits(limits: &[u8; 4], b: u8, x: u8, y: u8) -> bool
    requires { (128 ≤ b) × (b < 135) }
    ensures { (following : ℕ → ℕ) → x ≡ following 1 → y ≡ following 2 → result ≡ indexed_by limits.now (instruction_of b following) }
{
    let literals = limits[3];
    match b {
        128 => push_fits(limits, x),
        129 => store_fits(limits, x),
        130 => store_fits(limits, x),
        131 => x % 32 < literals,
        132 => y < literals,
        133 => x % 32 < literals,
        _ => y < literals,
    }
}

// An instruction with further bytes that goes on to the next.
fn extended(
    code: Code,
    here: Position,
    notes: &mut [u8],
    pending: &mut [u16],
    waiting: usize,
) -> Went
    requires asks { Asks notes.old pending.old waiting code.room }
    requires stands { Here code.limits.now code.words.now (length notes.old) code.room here.at here.depth here.byte here.entry.0 }
    requires le_b { (128 ≤ here.byte) × (here.byte < 135) × (here.at + length_part here.entry.0 ≤ length notes.old) }
    ensures { Expand code.entry.limits.now code.entry.words.now (length notes.old) code.entry.room here.at here.depth notes.old pending.old
        waiting notes.new pending.new result }
{
    let entry = here.entry;
    let x = bytecode::byte(code.words, here.at + 1);
    let y = bytecode::byte(code.words, here.at + 2);
    if !extended_fits(code.limits, here.byte, x, y) {
        return Went::Stuck;
    }
    onward(
        notes,
        pending,
        waiting,
        here.at + entry.bytes(),
        here.depth,
        entry.need() + bytecode::extra(here.byte, x),
        entry.leaves(),
        code.room,
    )
}

// 144 to 175.
fn jump(code: Code, here: Position, notes: &mut [u8], pending: &mut [u16], waiting: usize) -> Went
    requires asks { Asks notes.old pending.old waiting code.room }
    requires stands { Here code.limits.now code.words.now (length notes.old) code.room here.at here.depth here.byte here.entry.0 }
    requires le_b { (144 ≤ here.byte) × (here.byte < 176) × (here.at + length_part here.entry.0 ≤ length notes.old) }
    ensures { Expand code.entry.limits.now code.entry.words.now (length notes.old) code.entry.room here.at here.depth notes.old pending.old
        waiting notes.new pending.new result }
{
    let Position {
        at,
        depth,
        byte,
        ..
    } = here;
    let Code { words, room, .. } = code;
    // one test after another: a match of ranges becomes a jump by a table, which is slower
    if byte < 152 {
        return visit(
            notes,
            pending,
            waiting,
            at + 2 + (byte % 8) as usize,
            depth,
            room,
        );
    }
    if byte < 160 {
        return fork(
            notes,
            pending,
            waiting,
            at + 1,
            at + 2 + (byte % 8) as usize,
            depth,
            room,
        );
    }
    let x = bytecode::fetch(words, at + 1) as usize;
    if byte < 168 {
        let to = at + 2 + (byte % 8) as usize * 256 + x;
        if to < 1024 {
            return Went::Stuck;
        }
        return visit(notes, pending, waiting, to - 1024, depth, room);
    }
    fork(
        notes,
        pending,
        waiting,
        at + 2,
        at + 2 + (byte % 4) as usize * 256 + x,
        depth,
        room,
    )
}

// A jump, or an instruction with further bytes.
fn far(code: Code, here: Position, notes: &mut [u8], pending: &mut [u16], waiting: usize) -> Went
    requires asks { Asks notes.old pending.old waiting code.room }
    requires stands { Here code.limits.now code.words.now (length notes.old) code.room here.at here.depth here.byte here.entry.0 }
    requires e_value { group_part here.entry.0 ≡ 2 }
    ensures { Expand code.entry.limits.now code.entry.words.now (length notes.old) code.entry.room here.at here.depth notes.old pending.old
        waiting notes.new pending.new result }
{
    if notes.len() < here.at + here.entry.bytes() {
        return Went::Stuck;
    }
    if here.byte < 144 {
        return extended(code, here, notes, pending, waiting);
    }
    jump(code, here, notes, pending, waiting)
}

// Examines the instruction at a position by the rules that need no objects, and visits what follows it.
pub fn expand(
    code: Code,
    here: Position,
    notes: &mut [u8],
    pending: &mut [u16],
    waiting: usize,
) -> Went
    requires asks { Asks notes.old pending.old waiting code.room }
    requires stands { Here code.limits.now code.words.now (length notes.old) code.room here.at here.depth here.byte here.entry.0 }
    ensures { Expand code.entry.limits.now code.entry.words.now (length notes.old) code.entry.room here.at here.depth notes.old pending.old
        waiting notes.new pending.new result }
{
    let group = here.entry.group();
    // two tests for the first two groups: four values tested one by one become a jump by a table, which is slower
    if group < 2 {
        if group == 0 {
            return plain(code, here, notes, pending, waiting);
        }
        if here.depth < here.entry.need() {
            return Went::Stuck;
        }
        return Went::Known(waiting, 0, 0);
    }
    if 2 < group {
        return Went::Stuck;
    }
    far(code, here, notes, pending, waiting)
}

// No note.
pub fn clear(notes: &mut [u8])
    ensures { notes.new ≡ replicate (length notes.old) 0 }
{
    notes.fill(0);
}
