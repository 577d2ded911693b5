// Numbers in byte buffers, low byte first: of 16 bits, and words of 16 or 32. Inner: not a public call.
#![tactic(auto)]

ghost use Rattle.std.specs.Prelude.{◌≡◌, ◌+◌, ◌*◌, ◌≤◌, ◌<◌, length, take, drop};
ghost use Rattle.std.proofs.lemmas.List.Edits.{sets};
ghost use Rattle.codec.specs.Numbers.{number_at, word_at, numbers, sum, with_zeros};
ghost use Rattle.codec.specs.Numbers.{WordSize, word_bytes, bytes};

// Room for the most tokens that an equation, or a list of equations, has.
pub const TOKENS: usize = 1024;

// Room for the tokens of a term that is short, as most are.
pub const FEW: usize = 32;

// A byte as a 16-bit number.
fn wide(x: u8) -> u16
    ensures { (result ≡ x) × (result < 256) }
{
    x as u16
}

// The number that stands at an index.
pub fn number_at(b: &[u8], at: usize) -> u16
    requires { at + 1 < length b.now }
    ensures { result ≡ number_at b.now at }
{
    wide(b[at]) + 256 * wide(b[at + 1])
}

// The word of k bytes that stands at an index.
pub fn word_at(b: &[u8], at: usize, k: usize) -> u32
    requires { WordSize k × (at + k ≤ length b.now) }
    ensures { result ≡ word_at k b.now at }
{
    let low = number_at(b, at) as u32;
    if k == 2 {
        return low;
    }
    low + 65536 * (number_at(b, at + 2) as u32)
}

// The n numbers from an index on, then zeros: tokens, in an array with room for N.
pub fn tokens_at<const N: usize>(b: &[u8], at: usize, n: usize) -> [u16; N]
    requires { (n ≤ N) × (at + 2 * n ≤ length b.now) }
    ensures { result ≡ with_zeros N (numbers n (drop at b.now)) }
{
    let mut out = [0u16; N];
    for i in 0..n {
        out[i] = number_at(b, at + 2 * i);
    }
    out
}

// The sum of the n numbers from an index on, a true sum.
pub fn sum_at(b: &[u8], at: usize, n: usize) -> usize
    requires { (n ≤ 128) × (at + 2 * n ≤ length b.now) }
    ensures { result ≡ sum (numbers n (drop at b.now)) }
{
    let mut total = 0usize;
    for i in 0..n {
        total += number_at(b, at + 2 * i) as usize;
    }
    total
}

// Stores a number, cut to 16 bits, at an index.
pub fn write_number(b: &mut [u8], at: usize, w: u32)
    requires { at + 1 < length b.old }
    ensures { b.new ≡ sets b.old at (word_bytes 2 w) }
{
    b[at] = (w % 256) as u8;
    b[at + 1] = (w / 256 % 256) as u8;
}

// Stores a word of k bytes at an index.
pub fn write_word(b: &mut [u8], at: usize, k: usize, w: u32)
    requires { WordSize k × (at + k ≤ length b.old) }
    ensures { b.new ≡ sets b.old at (word_bytes k w) }
{
    write_number(b, at, w);
    if k == 4 {
        write_number(b, at + 2, w / 65536);
    }
}

// Stores the first n words, k bytes for each, from an index on.
pub fn write_words(b: &mut [u8], at: usize, k: usize, ws: &[u32; 256], n: usize)
    requires { WordSize k × (n ≤ 256) × (at + k * n ≤ length b.old) }
    ensures { b.new ≡ sets b.old at (bytes k (take n ws.now)) }
{
    for (i, &w) in ws[..n].iter().enumerate() {
        write_word(b, at + k * i, k, w);
    }
}
