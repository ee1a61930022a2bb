// Primitives 1 to 17 on two words. The definition is model's specs/Arithmetic.antt.
#![tactic(auto)]

ghost use Rattle.std.specs.Prelude.{◌≡◌, ◌≤◌, ◌%◌, ◌^◌, min, ◌&&◌, leb, pos, ◌*ℤ◌};
ghost use Rattle.std.specs.Int.Signed.{mag, quot_z, shr_z};
ghost use Rattle.model.specs.Limits.{largest_integer};
ghost use Rattle.model.specs.Word.{value_of, word_of};
ghost use Rattle.model.specs.Arithmetic.{arithmetic, number, truth, divided, exact_quotient, floor_quotient, floor_remainder, shifted, on_integers, on_bits};
ghost use Rattle.arithmetic.specs.Tagged.{tagged, Fitted};

// The integers that have a word.
const LEAST: i32 = -16384;

const MOST: i32 = 16383;

// The integer that a word holds.
fn value(w: u16) -> i32
    ensures { result ≡ value_of w }
{
    let n = (w as u32 + 32768) % 65536 / 2;
    n as i32 - 16384
}

// The word that holds an integer.
fn word(z: i32) -> u16
    requires { mag z ≤ largest_integer }
    ensures { result ≡ word_of z }
{
    let n = (z + 16384) as u32;
    ((2 * n + 32769) % 65536) as u16
}

// A number out of range fails.
fn number(z: i32) -> Option<u16>
    ensures { result ≡ number z }
{
    if (LEAST..=MOST).contains(&z) {
        Some(word(z))
    } else {
        None
    }
}

// The word of true or of false.
fn truth(x: bool) -> Option<u16>
    ensures { result ≡ truth x }
{
    Some(model::boolean_word(x))
}

// The quotient rounded down. The machine rounds toward zero: where the signs differ, the dividend is moved so that this is down.
fn floor_quotient(a: i32, b: i32) -> i32
    requires { (mag a ≤ largest_integer) × ((mag b ≤ largest_integer) × (b ≡ pos 0 → ⊥)) }
    ensures { result ≡ floor_quotient a b }
{
    if (a < 0) == (b < 0) {
        a / b
    } else if a < 0 {
        (a + 1) / b - 1
    } else {
        (a - b - 1) / b
    }
}

// Primitives 10 to 13: the quotient if nothing remains, the remainder and the quotient rounded down, the quotient toward zero.
fn divide(k: u8, a: i32, b: i32) -> Option<u16>
    requires { (mag a ≤ largest_integer) × (mag b ≤ largest_integer) × (10 ≤ k) × (k ≤ 13) }
    ensures { result ≡ on_integers k a b }
{
    if b == 0 {
        return None;
    }
    match k {
        10 => exact_quotient(a, b),
        11 => number(a - b * floor_quotient(a, b)),
        12 => number(floor_quotient(a, b)),
        _ => number(a / b),
    }
}

// The quotient, if nothing remains.
fn exact_quotient(a: i32, b: i32) -> Option<u16>
    requires { (mag a ≤ largest_integer) × ((mag b ≤ largest_integer) × (b ≡ pos 0 → ⊥)) }
    ensures { result ≡ exact_quotient a b }
{
    if a % b == 0 { number(a / b) } else { None }
}

// A longer shift gives what 15 places give: to the right no digit is left, to the left only 0 stays in range.
const MOST_PLACES: u32 = 15;

// A power of two.
fn power(n: u32) -> i32
    requires { n ≤ 15 }
    ensures { result ≡ pos (2 ^ n) }
{
    let one: u32 = 1;
    (one << n) as i32
}

// a × 2^n
fn left(a: i32, n: u32) -> Option<u16>
    requires { mag a ≤ largest_integer }
    ensures { result ≡ number (a *ℤ pos (2 ^ n)) }
{
    number(a * power(n.min(MOST_PLACES)))
}

// a / 2^n, rounded down
fn right(a: i32, n: u32) -> Option<u16>
    requires { mag a ≤ largest_integer }
    ensures { result ≡ number (shr_z a (2 ^ n)) }
{
    number(a >> (n.min(MOST_PLACES) as i32))
}

// To the left, or by a negative count to the right.
fn shift(a: i32, b: i32) -> Option<u16>
    requires { (mag a ≤ largest_integer) × (mag b ≤ largest_integer) }
    ensures { result ≡ number (shifted a b) }
{
    if b < 0 {
        right(a, (-b) as u32)
    } else {
        left(a, b as u32)
    }
}

// Primitive k on two integers.
fn on_integers(k: u8, a: i32, b: i32) -> Option<u16>
    requires { (mag a ≤ largest_integer) × (mag b ≤ largest_integer) }
    ensures { result ≡ on_integers k a b }
{
    match k {
        1 => number(a + b),
        2 => number(a - b),
        3 => truth(a < b),
        4 => truth(b < a),
        5 => truth(a <= b),
        6 => truth(b <= a),
        7 => truth(a == b),
        8 => truth(a != b),
        9 => number(a * b),
        10..=13 => divide(k, a, b),
        17 => shift(a, b),
        _ => None,
    }
}

// The primitives that work on bits.
fn is_bitwise(k: u8) -> bool
    ensures { result ≡ (leb 14 k && leb k 16) }
{
    (14..=16).contains(&k)
}

// In two's complement, on the words themselves. Exclusive or of two tags is zero, so the tag is added.
fn on_bits(k: u8, v: u16, w: u16) -> Option<u16>
    requires { (v % 2 ≡ 1) × (w % 2 ≡ 1) }
    ensures { result ≡ on_bits k v w }
{
    match k {
        14 => Some(v & w),
        15 => Some(v | w),
        _ => Some((v ^ w) + 1),
    }
}

// Primitive k on a receiver and an argument.
pub fn compute(k: u8, v: u16, w: u16) -> Option<u16>
    ensures { result ≡ arithmetic k v w }
{
    if v % 2 != 1 || w % 2 != 1 {
        return None;
    }
    if is_bitwise(k) {
        on_bits(k, v, w)
    } else {
        on_integers(k, value(v), value(w))
    }
}

// An integer's word as a signed number, twice the integer and 1. Order, sum and difference of two are those of the integers, but for the tag.
fn signed(w: u16) -> i32
    requires { w % 2 ≡ 1 }
    ensures { result ≡ tagged (value_of w) }
{
    ((w as u32 + 32768) % 65536) as i32 - 32768
}

// The word of such a number. One out of range fails.
fn fit(z: i32) -> Option<u16>
    ensures { Fitted z result }
{
    if (-32768..=32767).contains(&z) {
        Some(((z + 65536) as u32 % 65536) as u16)
    } else {
        None
    }
}

// The same in a second form, for speed: the run loop has it compiled in, with the frequent primitives at once and on the words, the others by a call.
pub fn arithmetic(k: u8, v: u16, w: u16) -> Option<u16>
    ensures { result ≡ arithmetic k v w }
{
    // One test, as it is quicker than two: both words are integers' exactly where the product of their last bits is 1.
    if v % 2 * (w % 2) != 1 {
        return None;
    }
    match k {
        1 => fit(signed(v) + signed(w) - 1),
        2 => fit(signed(v) - signed(w) + 1),
        3 => truth(signed(v) < signed(w)),
        4 => truth(signed(w) < signed(v)),
        5 => truth(signed(v) <= signed(w)),
        6 => truth(signed(w) <= signed(v)),
        7 => truth(v == w),
        8 => truth(v != w),
        9 => number(value(v) * value(w)),
        14 => Some(v & w),
        15 => Some(v | w),
        _ => compute(k, v, w),
    }
}
