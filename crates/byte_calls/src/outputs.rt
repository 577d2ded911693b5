// How the table or the reply of a call on byte buffers is handed back, and the two-buffer call. Inner: not a public call.
// A `u32` that is returned here is the number that C is handed.
ghost use Rattle.std.specs.Prelude.{◌≡◌};
ghost use Rattle.tables.specs.declared.Answered.{Answered as AnsweredTable};
ghost use Rattle.tables.specs.Values.{zero_table};
ghost use Rattle.lists.specs.Comings.{Comes};
ghost use Rattle.forms.specs.Listings.{Reads};
ghost use Rattle.questions.specs.Replies.{reply_number, reply_word};
ghost use Rattle.reasons.specs.Verdicts.{verdict_number, verdict_word, x_word, t_word};
ghost use Rattle.byte_calls.specs.Outputs.{Writable, output_number_as, output_bytes_as, output_number, output_bytes};
ghost use Rattle.byte_calls.specs.BufferParts.{lent, smaller_part};

use forms::{Extent, Layout, Sizes};
use lists::values::Came;
use reasons::Verdict;
use tables::{Answered, Refusal};

// Writes the table of an accepted call, plain or packed: 9 where the output is too short. The number of the answer.
pub fn write_as(layout: Layout, a: Answered, out: &mut [u8]) -> u32
    ensures number { result ≡ output_number_as layout a out.old }
    ensures bytes { out.new ≡ output_bytes_as layout a out.old }
{
    match a.answer {
        Err(r) => u32::from(r),
        Ok(()) => tables::answer_number(forms::write(layout, a.table, out)),
    }
}

// Writes what came of a call that was lent its list, where no table was given: the form of the table whose entries the list
// holds. The number of the answer.
pub fn write_came(
    layout: Layout,
    l: u32,
    came: Result<Came, Refusal>,
    list: &[u64; 256],
    out: &mut [u8],
) -> u32
    requires { Writable l list.now came }
    ensures { (a : AnsweredTable) → Comes l zero_table list.now came a
        → (result ≡ output_number_as layout a out.old)
        × (out.new ≡ output_bytes_as layout a out.old) }
{
    match came {
        Err(r) => u32::from(r),
        // The table all zero has no variables.
        Ok(Came::Same) => u32::from(Refusal::Width),
        Ok(Came::Count(n)) => tables::answer_number(forms::write_list(layout, l, n, list, out)),
    }
}

// Writes what was read into a list: the form of the table whose entries it holds. The number of the answer.
pub fn write_listed(
    layout: Layout,
    listed: Result<Sizes, Refusal>,
    list: &[u64; 256],
    out: &mut [u8],
) -> u32
    requires { (a : AnsweredTable) × Reads list.now listed a }
    ensures { (a : AnsweredTable) → Reads list.now listed a
        → (result ≡ output_number_as layout a out.old)
        × (out.new ≡ output_bytes_as layout a out.old) }
{
    match listed {
        Err(r) => u32::from(r),
        Ok(Sizes { l, n }) => tables::answer_number(forms::write_list(layout, l, n, list, out)),
    }
}

// Writes the plain form of the table of an accepted call.
pub fn write(a: Answered, out: &mut [u8]) -> u32
    ensures number { result ≡ output_number a out.old }
    ensures bytes { out.new ≡ output_bytes a out.old }
{
    write_as(Layout::Plain, a, out)
}

// Writes 1 for yes and 0 for no; nothing where the question is refused. The number of the answer.
pub fn reply(r: Result<bool, Refusal>, word: &mut u32) -> u32
    ensures number { result ≡ reply_number r }
    ensures word { word.new ≡ reply_word r word.old }
{
    *word = questions::reply_word(r, *word);
    questions::reply_number(r)
}

// Writes the three words of a verdict; nothing where the call is refused. The number of the answer.
pub fn verdict(
    v: Result<Verdict, Refusal>,
    word: &mut u32,
    x_entry: &mut u32,
    t_entry: &mut u32,
) -> u32
    ensures number { result ≡ verdict_number v }
    ensures word { word.new ≡ verdict_word v word.old }
    ensures entries { (x_entry.new ≡ x_word v x_entry.old) × (t_entry.new ≡ t_word v t_entry.old) }
{
    *word = reasons::verdict_word(v, *word);
    *x_entry = reasons::x_word(v, *x_entry);
    *t_entry = reasons::t_word(v, *t_entry);
    reasons::verdict_number(v)
}

// Of a positive and a negative form at the front of two buffers the one with fewer entries, as the part of the buffer that holds
// it.
pub fn smaller<'a>(p: &'a [u8], q: &'a [u8]) -> &'a [u8]
    ensures { lent result ≡ smaller_part (lent p.entry) (lent q.entry) }
{
    let a = forms::read_table(Extent::Front, p);
    let b = forms::read_table(Extent::Front, q);
    if let Err(_) = a.answer {
        return &p[..0];
    }
    if let Err(_) = b.answer {
        return &p[..0];
    }
    if a.table.l != b.table.l {
        return &p[..0];
    }
    let m = codec::number_at(p, 2) as usize;
    let n = codec::number_at(q, 2) as usize;
    if n < m {
        return &q[..forms::front_length(q)];
    }
    &p[..forms::front_length(p)]
}
