// The line that step80 prints. Its definition is in specs/Text.antt of plain.
#![tactic(auto)]

ghost use Rattle.std.specs.Prelude.{◌≡◌, ◌++◌, ◌+◌, ◌≤◌, length, drop};
ghost use Rattle.std.proofs.lemmas.List.Edits.{sets};
ghost use Rattle.plain.specs.Program.{line, refusal};
ghost use Rattle.plain.specs.Text.{decimal, line_bytes};

// A text from `at` on, and the place behind it.
fn put_text(out: &mut [u8], at: usize, text: &[u8]) -> usize
    requires { at + length text.now ≤ length out.old }
    ensures { (result ≡ at + length text.now) × (out.new ≡ sets out.old at text.now) }
{
    let end = at + text.len();
    out[at..end].copy_from_slice(text);
    end
}

// A number in decimal digits from `at` on, and the place behind it.
// By hand: `write!` is no plainer here. It asks for a writer over the buffer, and its digits would have to be shown those of plain's specs/Text.antt.
fn put_number(out: &mut [u8], at: usize, n: u32) -> usize
    requires { at + length (decimal n) ≤ length out.old }
    ensures { (result ≡ at + length (decimal n)) × (out.new ≡ sets out.old at (decimal n)) }
{
    if n < 10 {
        out[at] = 48 + n as u8;
        return at + 1;
    }
    let end = put_number(out, at, n / 10);
    out[end] = 48 + (n % 10) as u8;
    end + 1
}

// `phase P count C value V` and a newline at the front, and how many bytes they are.
pub fn write_run(out: &mut [u8], phase: u16, count: u32, value: u16) -> usize
    requires { 64 ≤ length out.old }
    ensures { (result ≡ length (line_bytes (line phase count value))) × (out.new ≡ line_bytes (line phase count value) ++ drop result out.old) }
{
    let a = put_text(out, 0, b"phase ");
    let b = put_number(out, a, phase as u32);
    let c = put_text(out, b, b" count ");
    let d = put_number(out, c, count);
    let e = put_text(out, d, b" value ");
    let f = put_number(out, e, value as u32);
    put_text(out, f, b"\n")
}

// `refused K` and a newline at the front, and how many bytes they are.
pub fn write_refusal(out: &mut [u8], number: u32) -> usize
    requires { 64 ≤ length out.old }
    ensures { (result ≡ length (line_bytes (refusal number))) × (out.new ≡ line_bytes (refusal number) ++ drop result out.old) }
{
    let a = put_text(out, 0, b"refused ");
    let b = put_number(out, a, number);
    put_text(out, b, b"\n")
}
