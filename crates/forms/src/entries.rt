// The entries of a table in a form: read into working lists and written, plain or packed. Inner: not a public call.
ghost use Rattle.std.specs.Prelude.{◌≡◌, true, List, [], ℕ, ◌≤◌, ◌<◌, length};
ghost use Rattle.std.proofs.Math.Option.{Option};
ghost use Rattle.std.proofs.lemmas.List.Edits.{sets};
ghost use Rattle.model.specs.Growth.{Entries, grow_all};
ghost use Rattle.tables.specs.Values.{table_of, good_width, zero_table, made_or_full, GoodTable};
ghost use Rattle.lists.specs.WorkingLists.{Holds, Makes};
ghost use Rattle.forms.specs.declared.Layout.TheVariants.{Plain, Packed};
ghost use Rattle.forms.specs.TableForms.{word_length, form_length, written_at, written_entries, all_well};
ghost use Rattle.forms.specs.TableForms.{read_entries, rows_of, entry_bytes};
ghost use Rattle.forms.specs.Listings.{Reads};

use crate::{Layout, Sizes};
use tables::{Answered, Refusal, Table};
use words::Entry;

// How many bytes a care or value word of entries of l positions has: so many that each position has a bit.
pub fn word_length(l: u32) -> usize
    ensures { result ≡ word_length l }
{
    if l <= 16 { 2 } else { 4 }
}

// The entry at an index of the n of a plain form.
fn entry_at(l: u32, n: usize, b: &[u8], i: usize) -> Entry
    requires { (i < n) × (n ≤ 256) × (form_length Plain l n ≤ length b.now) }
    ensures { result ≡ written_at l n b.now i }
{
    let k = word_length(l);
    let at = 4 + k * i;
    let c = codec::word_at(b, at, k);
    let v = codec::word_at(b, at + k * n, k);
    Entry { care: c, value: v }
}

// Is each of the n entries of a plain form clean: no bit above l, no value without care?
fn clean(l: u32, n: usize, b: &[u8]) -> bool
    requires { (l ≤ 32) × (n ≤ 256) × (form_length Plain l n ≤ length b.now) }
    ensures { result ≡ all_well Plain l n b.now }
{
    let full = words::full(l);
    let mut good = true;
    for i in 0..n {
        let e = entry_at(l, n, b, i);
        good &= (e.care <= full) & ((e.value & e.care) == e.value);
    }
    good
}

// Grows a list, from the empty one, by the n entries of a plain form, all clean, in order.
fn grow_plain(l: u32, n: usize, b: &[u8], list: &mut [u64; 256]) -> Option<usize>
    requires { (l ≤ 32) × (n ≤ 256) × (form_length Plain l n ≤ length b.now) × (all_well Plain l n b.now ≡ true) }
    ensures { Makes l list.new result (grow_all [] (written_entries Plain l n b.now)) }
{
    // As a slice its length is known.
    let whole: &[u64] = &*list;
    let mut k = 0;
    for i in 0..n {
        let y = u64::from(entry_at(l, n, b, i));
        k = lists::growth::grow(list, k, l, y)?;
    }
    Some(k)
}

// Reads the n written entries of a packed form as words. Is each row good: no byte of 243 or more, every unused digit 0?
fn read_rows(l: u32, n: usize, b: &[u8], row: &mut [u64; 256]) -> bool
    requires { (l ≤ 32) × (n ≤ 256) × (form_length Packed l n ≤ length b.now) }
    ensures clean { result ≡ all_well Packed l n b.now }
    ensures made { result ≡ true → Holds l row.new n (written_entries Packed l n b.now) }
{
    let table = packing::digits::table();
    let k = packing::row_length(l);
    for i in 0..n {
        let at = 4 + k * i;
        let Some(e) = packing::unpack(&table, l, &b[at..at + k]) else {
            return false;
        };
        row[i] = u64::from(e);
    }
    true
}

// What comes of reading where the entries were grown. It is never full: a form has at most 256 entries.
fn listed(l: u32, g: Option<usize>) -> Result<Sizes, Refusal>
    ensures { (list : List ℕ) (o : Option Entries) → good_width l ≡ true → Makes l list g o
        → Reads list result (made_or_full l zero_table o) }
{
    match g {
        Some(n) => Ok(Sizes { l: l, n: n }),
        None => Err(Refusal::Full),
    }
}

// Reads n plain entries: 4 by entry, then they are grown.
fn read_plain(l: u32, n: usize, b: &[u8], list: &mut [u64; 256]) -> Result<Sizes, Refusal>
    requires { (good_width l ≡ true) × (n ≤ 256) × (form_length Plain l n ≤ length b.now) }
    ensures { Reads list.new result (read_entries Plain l n b.now) }
{
    if !clean(l, n, b) {
        return Err(Refusal::Stray);
    }
    let g = grow_plain(l, n, b, list);
    listed(l, g)
}

// Reads n packed entries: 12 by entry, then they are grown.
fn read_packed(l: u32, n: usize, b: &[u8], list: &mut [u64; 256]) -> Result<Sizes, Refusal>
    requires { (good_width l ≡ true) × (n ≤ 256) × (form_length Packed l n ≤ length b.now) }
    ensures { Reads list.new result (read_entries Packed l n b.now) }
{
    // As a slice its length is known.
    let whole: &[u64] = &*list;
    let mut row = [0u64; 256];
    if !read_rows(l, n, b, &mut row) {
        return Err(Refusal::Digit);
    }
    let g = lists::growth::grow_each(list, 0, l, &row, n);
    listed(l, g)
}

// Reads n written entries into a list.
pub fn read_listed(
    layout: Layout,
    l: u32,
    n: usize,
    b: &[u8],
    list: &mut [u64; 256],
) -> Result<Sizes, Refusal>
    requires { (good_width l ≡ true) × (n ≤ 256) × (form_length layout l n ≤ length b.now) }
    ensures { Reads list.new result (read_entries layout l n b.now) }
{
    match layout {
        Layout::Plain => read_plain(l, n, b, list),
        Layout::Packed => read_packed(l, n, b, list),
    }
}

// Writes the care and the value words of the n entries of a list after the sizes.
fn write_plain(l: u32, n: usize, list: &[u64; 256], out: &mut [u8])
    requires { (n ≤ 256) × (form_length Plain l n ≤ length out.old) }
    ensures { (τ : Entries) → Holds l list.now n τ
        → out.new ≡ sets out.old 4 (entry_bytes Plain (table_of l τ)) }
{
    let k = word_length(l);
    let values = 4 + k * n;
    for (i, &y) in list[..n].iter().enumerate() {
        let e = Entry::from(y);
        codec::write_word(out, 4 + k * i, k, e.care);
        codec::write_word(out, values + k * i, k, e.value);
    }
}

// Writes the packed rows of the n entries of a list after the sizes.
fn write_rows(l: u32, n: usize, list: &[u64; 256], out: &mut [u8])
    requires { ((τ : Entries) × Holds l list.now n τ) × (form_length Packed l n ≤ length out.old) }
    ensures { (τ : Entries) → Holds l list.now n τ → out.new ≡ sets out.old 4 (rows_of τ) }
{
    let k = packing::row_length(l);
    for (i, &y) in list[..n].iter().enumerate() {
        let e = Entry::from(y);
        packing::pack(l, e, out, 4 + k * i);
    }
}

// Writes the entries of a list after the sizes.
pub fn write_listed(layout: Layout, l: u32, n: usize, list: &[u64; 256], out: &mut [u8])
    requires { ((τ : Entries) × Holds l list.now n τ) × (form_length layout l n ≤ length out.old) }
    ensures { (τ : Entries) → Holds l list.now n τ
        → out.new ≡ sets out.old 4 (entry_bytes layout (table_of l τ)) }
{
    match layout {
        Layout::Plain => write_plain(l, n, list, out),
        Layout::Packed => write_rows(l, n, list, out),
    }
}

// The table of n plain entries: 4 by entry, then they are grown.
fn plain_table(l: u32, n: usize, b: &[u8]) -> Answered
    requires { (l ≤ 32) × (n ≤ 256) × (form_length Plain l n ≤ length b.now) }
    ensures { result ≡ read_entries Plain l n b.now }
{
    if !clean(l, n, b) {
        return tables::refused(Refusal::Stray);
    }
    let mut list = [0u64; 256];
    let g = grow_plain(l, n, b, &mut list);
    lists::values::made_or_full(l, Table::zero(), g, &list)
}

// The table of n packed entries: 12 by entry, then they are grown.
fn packed_table(l: u32, n: usize, b: &[u8]) -> Answered
    requires { (l ≤ 32) × (n ≤ 256) × (form_length Packed l n ≤ length b.now) }
    ensures { result ≡ read_entries Packed l n b.now }
{
    let mut row = [0u64; 256];
    if !read_rows(l, n, b, &mut row) {
        return tables::refused(Refusal::Digit);
    }
    let mut list = [0u64; 256];
    let g = lists::growth::grow_each(&mut list, 0, l, &row, n);
    lists::values::made_or_full(l, Table::zero(), g, &list)
}

// The table of n written entries. It stays beside `read_listed` for its promise, the zero table at a refusal.
pub fn read(layout: Layout, l: u32, n: usize, b: &[u8]) -> Answered
    requires { (l ≤ 32) × (n ≤ 256) × (form_length layout l n ≤ length b.now) }
    ensures { result ≡ read_entries layout l n b.now }
{
    match layout {
        Layout::Plain => plain_table(l, n, b),
        Layout::Packed => packed_table(l, n, b),
    }
}

// Writes the entries of a good table after the sizes. It stays beside `write_listed` for its promise on a table value.
pub fn write(layout: Layout, t: Table, out: &mut [u8])
    requires { GoodTable t × (form_length layout t.l t.n ≤ length out.old) }
    ensures { out.new ≡ sets out.old 4 (entry_bytes layout t) }
{
    let l = t.l;
    let n = t.n;
    let mut list = [0u64; 256];
    lists::values::load(&t, &mut list);
    write_listed(layout, l, n, &list, out)
}
