// Numbers, lines and entries as text, written straight into a lent output. Inner: not a public call.
ghost use Rattle.std.specs.Prelude.{◌≡◌, ◌+◌, ◌≤◌, ◌<◌, length};
ghost use Rattle.std.proofs.lemmas.List.Edits.{sets};
ghost use Rattle.words.specs.Words.{string, trit_of};
ghost use Rattle.tables.specs.Values.{entries_of, GoodTable};
ghost use Rattle.text.specs.Text.{digit, decimal, line, entries_text};
ghost use Rattle.text.specs.Text.{character as character_of};
ghost use Rattle.text.specs.Printing.{Printed};

use tables::Table;

// ---- Words and numbers

// Copies a word into the output.
pub fn write(out: &mut [u8], at: usize, word: &[u8])
    requires { at + length word.now ≤ length out.old }
    ensures { out.new ≡ sets out.old at word.now }
{
    out[at..at + word.len()].copy_from_slice(word);
}

// How many digits a number below 1000 has.
pub fn digits(n: u32) -> usize
    ensures { result ≡ length (decimal n) }
{
    if n < 10 {
        1
    } else if n < 100 {
        2
    } else {
        3
    }
}

// The character of a digit.
fn digit(d: u32) -> u8
    requires { d < 10 }
    ensures { result ≡ digit d }
{
    b'0' + (d as u8)
}

// Writes a number below 1000 in decimal.
pub fn write_decimal(out: &mut [u8], at: usize, n: u32)
    requires { (n < 1000) × (at + length (decimal n) ≤ length out.old) }
    ensures { out.new ≡ sets out.old at (decimal n) }
{
    if n < 10 {
        out[at] = digit(n);
    } else if n < 100 {
        out[at] = digit(n / 10);
        out[at + 1] = digit(n % 10);
    } else {
        out[at] = digit(n / 100);
        out[at + 1] = digit(n / 10 % 10);
        out[at + 2] = digit(n % 10);
    }
}

// The length of a line of two words, of those lengths, each with a number.
pub fn line_length(v: usize, a: u32, w: usize, b: u32) -> usize
    requires { (v ≤ 9) × (w ≤ 9) }
    ensures { result ≡ v + (length (decimal a) + (w + (length (decimal b) + 1))) }
{
    v + (digits(a) + (w + (digits(b) + 1)))
}

// Writes a line of two words, each with a number.
pub fn write_line(out: &mut [u8], at: usize, v: &[u8], a: u32, w: &[u8], b: u32)
    requires { (a < 1000) × (b < 1000) × (at + length (line v.now a w.now b) ≤ length out.old) }
    ensures { out.new ≡ sets out.old at (line v.now a w.now b) }
{
    let first = at + v.len();
    let second = first + digits(a);
    let third = second + w.len();
    let end = third + digits(b);
    write(out, at, v);
    write_decimal(out, first, a);
    write(out, second, w);
    write_decimal(out, third, b);
    out[end] = b'\n';
}

// ---- Entries

// The character of a position, of its care and value bit.
fn character(care: u32, value: u32) -> u8
    ensures { result ≡ character_of (trit_of care value) }
{
    if care == 0 {
        b'*'
    } else if value == 0 {
        b'0'
    } else {
        b'1'
    }
}

// Writes an entry straight into the output: a character for each position, then a newline. The place after it.
fn write_entry(out: &mut [u8], at: usize, l: u32, care: u32, value: u32) -> usize
    requires { (l ≤ 32) × (at + (l + 1) ≤ length out.old) }
    ensures after { result ≡ at + (l + 1) }
    ensures printed { Printed (string l (record { care = care; value = value })) at out.old out.new }
{
    let last = at + l as usize;
    let after = last + 1;
    for i in 0..l {
        out[at + i as usize] = character((care >> i) % 2, (value >> i) % 2);
    }
    out[last] = b'\n';
    after
}

// Writes the entries of a table, a line each.
#[tactic(auto, using(tables::proofs::Checking::good_few))]
pub fn write_entries(out: &mut [u8], at: usize, t: Table)
    requires { GoodTable t × (at + length (entries_text (entries_of t)) ≤ length out.old) }
    ensures { out.new ≡ sets out.old at (entries_text (entries_of t)) }
{
    let l = t.l;
    let n = t.n;
    let mut here = at;
    for (&care, &value) in t.care[..n].iter().zip(&t.value[..n]) {
        here = write_entry(out, here, l, care, value);
    }
}
