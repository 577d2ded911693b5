// Five positions to a byte: one entry packed to a row of bytes, and back, of any width to 32. Inner: not a public call.
#![tactic(auto)]

pub mod digits; // the two tables

ghost use Rattle.std.specs.Prelude.{◌≡◌, true, false, ◌+◌, ◌≤◌, length, MatchOption};
ghost use Rattle.std.proofs.lemmas.List.Edits.{sets};
ghost use Rattle.words.specs.Words.{care_of, value_of, string, Encodes};
ghost use Rattle.packing.specs.Packing.{row_length, packed, row_positions, all_packed, unpacked_row, Ruled};

use words::Entry;

// The positions of a row, five of each byte: care and value words of up to 35 bits.
#[derive(Clone, Copy, Debug, PartialEq, Eq)]
struct Positions {
    care: u64,
    value: u64,
}

// How many bytes an entry of l positions takes.
pub fn row_length(l: u32) -> usize
    requires { l ≤ 32 }
    ensures { result ≡ row_length l }
{
    ((l + 4) / 5) as usize
}

// The care and value words of the positions of up to 7 bytes, from the last byte down; none where one is 243 or more.
fn row_positions(table: &[u16; 256], row: &[u8]) -> Option<Positions>
    requires { Ruled table.now × (length row.now ≤ 7) }
    ensures { MatchOption result (all_packed row.now ≡ false) (λ p. (all_packed row.now ≡ true)
        × (p.care ≡ care_of (row_positions row.now)) × (p.value ≡ value_of (row_positions row.now))) }
{
    let mut care = 0u64;
    let mut value = 0u64;
    for &b in row.iter().rev() {
        let p = digits::positions(table, b);
        if p == digits::NONE {
            return None;
        }
        care = care * 32 + (p % 32) as u64;
        value = value * 32 + (p / 32) as u64;
    }
    Some(Positions { care, value })
}

// The entry of l positions that a row stands for: a byte of 243 or more is no good, nor is an unused digit that is not 0.
#[tactic(auto, unfolding(crate::specs::Packing::row_length))]
pub fn unpack(table: &[u16; 256], l: u32, row: &[u8]) -> Option<Entry>
    requires { Ruled table.now × (l ≤ 32) × (length row.now ≡ row_length l) }
    ensures { result ≡ unpacked_row l row.now }
{
    let p = row_positions(table, row)?;
    let unused = (5 * row.len()) as u32 - l;
    let last = (1u64 << unused) - 1;
    let used = 1u64 << l;
    // An unused position is fixed, and its value is 0.
    if ((p.care >> l) == last) & ((p.value >> l) == 0) {
        return Some(Entry {
            care: (p.care % used) as u32,
            value: (p.value % used) as u32,
        });
    }
    None
}

// Writes the row of an entry of l positions at an index.
pub fn pack(l: u32, e: Entry, b: &mut [u8], at: usize)
    requires { (l ≤ 32) × Encodes l e × (at + row_length l ≤ length b.old) }
    ensures { b.new ≡ sets b.old at (packed (string l e)) }
{
    let k = row_length(l);
    let mut ones = e.value;
    let mut stars = words::full(l) - e.care;
    for i in 0..k {
        b[at + i] = digits::powers(ones % 32) + 2 * digits::powers(stars % 32);
        ones /= 32;
        stars /= 32;
    }
}
