// The written forms of tables: words of 16 or 32 bits, low byte first, and packed rows. Public are `read_table`,
// `read_packed`, `write_table` and `write_packed`, from bytes to a table value and back. The rest is inner: not a public call.
#![tactic(auto)]

pub mod entries; // the entries of a table in a form, plain or packed

ghost use Rattle.std.specs.Prelude.{◌≡◌, true, ◌≤◌, length};
ghost use Rattle.model.specs.Growth.{Entries};
ghost use Rattle.tables.specs.Refusals.{Accepted};
ghost use Rattle.tables.specs.Values.{table_of, good_width};
ghost use Rattle.lists.specs.WorkingLists.{Holds};
ghost use Rattle.forms.specs.declared.Extent.TheVariants.{Whole, Front};
ghost use Rattle.forms.specs.declared.Layout.TheVariants.{Plain, Packed};
ghost use Rattle.forms.specs.TableForms.{form_length, front_length, fits, read_form, form_of, form_answer, written};
ghost use Rattle.forms.specs.Listings.{Reads};

use tables::{Answered, Refusal, Table};

// Where a form ends: it is all the bytes, or more may follow it. Contracts name it (`fits`), which a closure has not.
#[derive(Clone, Copy, Debug, PartialEq, Eq)]
pub enum Extent {
    Whole,
    Front,
}

// How a form has its entries: care and value words, or a row of bytes each, five positions to a byte. Contracts name it
// (`form_length`), which a closure has not.
#[derive(Clone, Copy, Debug, PartialEq, Eq)]
pub enum Layout {
    Plain,
    Packed,
}

// What a form that was read into a list has: l variables, and n entries of the list.
#[derive(Clone, Copy, Debug, PartialEq, Eq)]
pub struct Sizes {
    pub l: u32,
    pub n: usize,
}

// May a form of that length be read from so many bytes?
fn fits(extent: Extent, size: usize, room: usize) -> bool
    ensures { result ≡ fits extent size room }
{
    match extent {
        Extent::Whole => size == room,
        Extent::Front => size <= room,
    }
}

// The length of the form of n entries of l positions.
fn form_length(layout: Layout, l: u32, n: usize) -> usize
    requires { (l ≤ 32) × (n ≤ 256) }
    ensures { result ≡ form_length layout l n }
{
    match layout {
        Layout::Plain => 4 + 2 * (entries::word_length(l) * n),
        Layout::Packed => 4 + packing::row_length(l) * n,
    }
}

// Reads the entries of a form into a list: sizes present (1), 2, 3, length (1), 4 or, packed, 12 by entry.
pub fn read_list(
    layout: Layout,
    extent: Extent,
    b: &[u8],
    list: &mut [u64; 256],
) -> Result<Sizes, Refusal>
    ensures { Reads list.new result (read_form layout extent b.now) }
{
    if b.len() < 4 {
        return Err(Refusal::Torn);
    }
    let l = codec::number_at(b, 0) as u32;
    let n = codec::number_at(b, 2) as usize;
    if !tables::good_width(l) {
        return Err(Refusal::Width);
    }
    if Table::ENTRIES < n {
        return Err(Refusal::Entries);
    }
    if !fits(extent, form_length(layout, l, n), b.len()) {
        return Err(Refusal::Torn);
    }
    entries::read_listed(layout, l, n, b, list)
}

// Reads a table, as a value.
pub fn read(layout: Layout, extent: Extent, b: &[u8]) -> Answered
    ensures { result ≡ read_form layout extent b.now }
{
    let mut list = [0u64; 256];
    match read_list(layout, extent, b, &mut list) {
        Err(r) => tables::refused(r),
        Ok(Sizes { l, n }) => Answered {
            answer: Ok(()),
            table: lists::values::table(l, n, &list),
        },
    }
}

// Reads a plain form.
pub fn read_table(extent: Extent, b: &[u8]) -> Answered
    ensures { result ≡ read_form Plain extent b.now }
{
    read(Layout::Plain, extent, b)
}

// Reads a packed form.
pub fn read_packed(b: &[u8]) -> Answered
    ensures { result ≡ read_form Packed Whole b.now }
{
    read(Layout::Packed, Extent::Whole, b)
}

// The length of the plain form that reads at the front of bytes.
pub fn front_length(b: &[u8]) -> usize
    requires { (read_form Plain Front b.now).answer ≡ Accepted }
    ensures length { result ≡ front_length b.now }
    ensures within { result ≤ length b.now }
{
    let l = codec::number_at(b, 0) as u32;
    let n = codec::number_at(b, 2) as usize;
    form_length(Layout::Plain, l, n)
}

// Writes the form of the table whose n entries, of l positions, a list holds: 9 where the output is too short. A refusal
// writes nothing.
pub fn write_list(
    layout: Layout,
    l: u32,
    n: usize,
    list: &[u64; 256],
    out: &mut [u8],
) -> Result<(), Refusal>
    requires { (good_width l ≡ true) × ((τ : Entries) × Holds l list.now n τ) }
    ensures { (τ : Entries) → Holds l list.now n τ
        → (result ≡ form_answer layout (table_of l τ) (length out.old))
        × (out.new ≡ written result (form_of layout (table_of l τ)) out.old) }
{
    if out.len() < form_length(layout, l, n) {
        return Err(Refusal::Narrow);
    }
    codec::write_number(out, 0, l);
    codec::write_number(out, 2, n as u32);
    entries::write_listed(layout, l, n, list, out);
    Ok(())
}

// Writes the entries of a table as they are: 2, 3, 4, then 9. A refusal writes nothing.
pub fn write(layout: Layout, t: Table, out: &mut [u8]) -> Result<(), Refusal>
    ensures answer { result ≡ form_answer layout t (length out.old) }
    ensures bytes { out.new ≡ written result (form_of layout t) out.old }
{
    tables::check(t)?;
    let l = t.l;
    let n = t.n;
    let mut list = [0u64; 256];
    lists::values::load(&t, &mut list);
    write_list(layout, l, n, &list, out)
}

// Writes the plain form.
pub fn write_table(t: Table, out: &mut [u8]) -> Result<(), Refusal>
    ensures answer { result ≡ form_answer Plain t (length out.old) }
    ensures bytes { out.new ≡ written result (form_of Plain t) out.old }
{
    write(Layout::Plain, t, out)
}

// Writes the packed form.
pub fn write_packed(t: Table, out: &mut [u8]) -> Result<(), Refusal>
    ensures answer { result ≡ form_answer Packed t (length out.old) }
    ensures bytes { out.new ≡ written result (form_of Packed t) out.old }
{
    write(Layout::Packed, t, out)
}
