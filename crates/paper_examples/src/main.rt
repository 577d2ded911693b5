// A test program: the final results of Examples 2.6 to 4.6 of 002, compared as sets of groups (01, "Marked for proof").
// Each result is computed by the public calls on table values, and its groups are listed. The set that the paper prints is
// entered as the paper prints it, and asked to be equal in groups. What is proved is that the program is safe and ends; what
// it prints is held to its file `stdout`.
//
// All the paper's final results are right under 01's rules. What differs, and is not compared:
// - Definition 3.5 as printed makes 0 with `*` a 1; Example 3.8 and 01 make it `*`. Only so are 1010 and 1110 in the result
//   of Example 3.8.
// - Example 4.1 forms 0000 and takes it out again; 01 never grows the all-zero string. The negative set after Example 4.1
//   and the result of Example 4.4 cover 0000, which is no group, so this changes nothing.
// - Steps (ii) and (iii) of Example 4.4 are misprinted: the complement of {110*, 101*} is {0***, 100*, 111*}, and that of
//   its closure {0***, 100*}. The result (v) is right: it has the groups of Example 3.8, which starts from the same groups.
#![tactic(auto)]

ghost use Rattle.std.specs.Prelude.{◌≡◌, ◌+◌, ◌≤◌, ◌<◌, length};

use operations::Side;
use std::io;
use tables::{Answered, Refusal, Table};
use words::Entry;

// ---- Sets of strings, read from text as the paper prints them

// 1 where the byte is a digit, 0 where it is `*`.
fn care_bit(b: u8) -> u32 {
    if b == b'*' {
        return 0;
    }
    1
}

// 1 where the byte is the digit 1.
fn value_bit(b: u8) -> u32 {
    if b == b'1' {
        return 1;
    }
    0
}

// The string of l positions that begins at an index of the text. Its last position is the highest bit, so it is read first.
fn read_string(text: &[u8], at: usize, l: u32) -> Entry
    requires { (l ≤ 16) × (at + l ≤ length text.now) }
{
    let mut care = 0u32;
    let mut value = 0u32;
    for &b in text[at..at + l as usize].iter().rev() {
        care = (care << 1) | care_bit(b);
        value = (value << 1) | value_bit(b);
    }
    Entry {
        care: care,
        value: value,
    }
}

// The table of the strings of a text, which stand apart by a comma and a blank.
fn read_table(l: u32, text: &[u8]) -> Table
    requires { (0 < l) × (l ≤ 16) × (length text.now ≤ 254) }
    ensures { (result.n ≤ 256) × (length result.value ≡ 256) }
{
    let step = (l as usize) + 2;
    let n = (text.len() + 2) / step;
    let mut care = [0u32; 256];
    let mut value = [0u32; 256];
    for i in 0..n {
        let e = read_string(text, i * step, l);
        care[i] = e.care;
        value[i] = e.value;
    }
    Table {
        l: l,
        n: n,
        care: care,
        value: value,
    }
}

// The groups of a text, converted.
fn converted(l: u32, text: &[u8]) -> Answered
    requires { (0 < l) × (l ≤ 16) × (length text.now ≤ 254) }
{
    let t = read_table(l, text);
    let n = t.n;
    let words = t.value;
    operations::convert(l, &words[..n])
}

// ---- The groups of a table

// Does an entry of the table cover the group g? It does exactly where the positive join with g alone changes no group.
fn covers(t: Table, g: u32) -> Result<bool, Refusal> {
    let l = t.l;
    let one = operations::convert(l, &[g]);
    let alone = one.table;
    let both = operations::join(Side::Positive, t, alone);
    both.answer?;
    questions::equal(both.table, t)
}

// No for yes and yes for no.
fn opposite(reply: Result<bool, Refusal>) -> Result<bool, Refusal> {
    Ok(!reply?)
}

// Is g one of the groups of the table? Of a negative table it is where no entry covers it.
fn stands_for(side: Side, t: Table, g: u32) -> Result<bool, Refusal> {
    match side {
        Side::Positive => covers(t, g),
        Side::Negative => opposite(covers(t, g)),
    }
}

// The l lowest binary digits of k, the highest first, then zeros.
fn digits(l: u32, k: u32) -> [u8; 16]
    requires { l ≤ 16 }
    ensures { length result ≡ 16 }
{
    let mut out = [b'0'; 16];
    let mut left = k;
    for i in (0..l as usize).rev() {
        if left % 2 == 1 {
            out[i] = b'1';
        }
        left /= 2;
    }
    out
}

// ---- Printing

// Writes to standard output.
fn write(rt: &impl Print, s: &[u8]) -> io::Result<()> {
    rt.write_all(s)
}

// Writes the first n bytes.
fn write_front(rt: &impl Print, s: &[u8], n: usize) -> io::Result<()>
    requires { n ≤ length s.now }
{
    write(rt, &s[..n])
}

// Writes a refusal's number.
fn write_refusal(rt: &impl Print, r: Refusal) -> io::Result<()> {
    write(rt, b"refused ")?;
    rt.print(u32::from(r) as u64)
}

// Writes a set as the paper prints it, with its side where that is negative.
fn write_set(rt: &impl Print, side: Side, text: &[u8]) -> io::Result<()> {
    match side {
        Side::Positive => write(rt, b"{")?,
        Side::Negative => write(rt, b"negative {")?,
    }
    write(rt, text)?;
    write(rt, b"}")
}

// Writes the string of the l binary digits of k if it is one of the table's groups.
fn write_group(rt: &impl Print, side: Side, l: u32, t: Table, k: u32) -> io::Result<()>
    requires { l ≤ 16 }
{
    let space = digits(l, k);
    let text: &[u8] = &space;
    let g = read_string(text, 0, l);
    match stands_for(side, t, g.value) {
        Ok(true) => {
            write(rt, b" ")?;
            write_front(rt, text, l as usize)
        }
        Ok(false) => Ok(()),
        Err(r) => {
            write(rt, b" ")?;
            write_refusal(rt, r)
        }
    }
}

// Writes all groups of the table, in rising order of their strings.
fn write_groups(rt: &impl Print, side: Side, l: u32, t: Table) -> io::Result<()>
    requires { l ≤ 16 }
{
    write(rt, b"groups")?;
    for k in 1..1u32 << l {
        write_group(rt, side, l, t, k)?;
    }
    Ok(())
}

// Writes whether two tables of one side are equal in groups.
fn write_comparison(rt: &impl Print, t: Table, u: Table) -> io::Result<()> {
    match questions::equal(t, u) {
        Ok(true) => write(rt, b" : as in the paper, "),
        Ok(false) => write(rt, b" : not as in the paper, "),
        Err(r) => {
            write(rt, b" : ")?;
            write_refusal(rt, r)?;
            write(rt, b" beside the paper's ")
        }
    }
}

// Writes the groups of what was computed, and whether they are those of the set that the paper prints.
fn compare(rt: &impl Print, side: Side, l: u32, computed: Answered, paper: &[u8]) -> io::Result<()>
    requires { (0 < l) × (l ≤ 16) × (length paper.now ≤ 254) }
{
    let t = computed.table;
    match computed.answer {
        Err(r) => write_refusal(rt, r)?,
        Ok(()) => {
            write_groups(rt, side, l, t)?;
            write_comparison(rt, t, read_table(l, paper))?;
            write_set(rt, side, paper)?;
        }
    }
    write(rt, b"\n")
}

// Writes what is computed: the example, the set that it starts from, and what is done with it.
fn heading(rt: &impl Print, name: &[u8], side: Side, given: &[u8], done: &[u8]) -> io::Result<()> {
    write(rt, name)?;
    write(rt, b": ")?;
    write_set(rt, side, given)?;
    write(rt, done)?;
    write(rt, b"\n")
}

// ---- The examples

// X1 = f(X2, X3), as in Examples 2.6, 3.8 and 4.4: f is symbol 1 with two arguments.
fn equated(side: Side, t: Table) -> Answered {
    operations::equation(side, t, 1, &[32786, 2, 3])
}

// The projection onto X1, X2 and X3, as after Example 3.8 and in Example 4.6: the three lowest bits.
fn projected(side: Side, t: Table) -> Answered {
    operations::project(side, t, 7)
}

// Binary abstract unification.
fn example_2_6(rt: &impl Print) -> io::Result<()> {
    let given = b"1000, 0100, 0010, 0001";
    heading(
        rt,
        b"Example 2.6",
        Side::Positive,
        given,
        b", X1 = f(X2, X3)",
    )?;
    let start = converted(4, given);
    let t = start.table;
    compare(
        rt,
        Side::Positive,
        4,
        equated(Side::Positive, t),
        b"0001, 1100, 1010, 1110",
    )
}

// Conversion of groups to a positive table.
fn example_3_4(rt: &impl Print) -> io::Result<()> {
    let given = b"1000, 1001, 0100, 0101, 0010, 0001";
    heading(rt, b"Example 3.4", Side::Positive, given, b" converted")?;
    compare(
        rt,
        Side::Positive,
        4,
        converted(4, given),
        b"100*, 0010, 010*, *001",
    )
}

// Positive abstract unification.
fn example_3_8(rt: &impl Print) -> io::Result<()> {
    let given = b"100*, 010*, 0010, *001";
    heading(
        rt,
        b"Example 3.8",
        Side::Positive,
        given,
        b", X1 = f(X2, X3)",
    )?;
    let t = read_table(4, given);
    compare(
        rt,
        Side::Positive,
        4,
        equated(Side::Positive, t),
        b"0001, 110*, 101*, 111*",
    )
}

// Positive projection. The entry *001 is cut to *00, which also covers the all-zero string.
fn after_example_3_8(rt: &impl Print) -> io::Result<()> {
    let given = b"100*, 010*, 0010, *001";
    heading(
        rt,
        b"After Example 3.8",
        Side::Positive,
        given,
        b" projected onto X1, X2, X3",
    )?;
    let t = read_table(4, given);
    compare(
        rt,
        Side::Positive,
        3,
        projected(Side::Positive, t),
        b"100, 010, 001",
    )
}

// Conversion of groups to a negative table, by way of the positive one.
fn example_4_1(rt: &impl Print) -> io::Result<()> {
    let given = b"1000, 1001, 0100, 0010, 0101, 0001";
    heading(
        rt,
        b"Example 4.1",
        Side::Positive,
        given,
        b" converted, then changed to negative",
    )?;
    let start = converted(4, given);
    let t = start.table;
    let computed = operations::change_side(Side::Positive, t);
    compare(rt, Side::Negative, 4, computed, b"11**, 1*1*, *11*, **11")
}

// A set of three groups, as a positive and as a negative table.
fn after_example_4_1(rt: &impl Print) -> io::Result<()> {
    let given = b"1000, 1100, 1110";
    heading(
        rt,
        b"After Example 4.1",
        Side::Positive,
        given,
        b" converted",
    )?;
    let start = converted(4, given);
    let t = start.table;
    compare(rt, Side::Positive, 4, start, b"1*00, 1110")?;
    heading(
        rt,
        b"After Example 4.1",
        Side::Positive,
        given,
        b" converted, then changed to negative",
    )?;
    let computed = operations::change_side(Side::Positive, t);
    compare(
        rt,
        Side::Negative,
        4,
        computed,
        b"00**, 01**, 0*1*, 0**1, 1**1, *01*",
    )
}

// The paper says that 1001 satisfies the formula of the set of Example 4.1. Then it is one of the groups, and the join
// with it changes none.
fn after_definition_4_2(rt: &impl Print) -> io::Result<()> {
    let given = b"11**, 1*1*, *11*, **11";
    heading(
        rt,
        b"After Definition 4.2",
        Side::Negative,
        given,
        b" joined with 1001, which satisfies its formula",
    )?;
    let t = read_table(4, given);
    let one = converted(4, b"1001");
    let alone = one.table;
    let other = operations::change_side(Side::Positive, alone);
    let u = other.table;
    compare(
        rt,
        Side::Negative,
        4,
        operations::join(Side::Negative, t, u),
        given,
    )
}

// Negative abstract unification. The groups are also compared with those of Example 3.8, which starts from the same groups.
fn example_4_4(rt: &impl Print) -> io::Result<()> {
    let given = b"11**, 1*1*, *11*, **11";
    heading(
        rt,
        b"Example 4.4",
        Side::Negative,
        given,
        b", X1 = f(X2, X3)",
    )?;
    let computed = equated(Side::Negative, read_table(4, given));
    let t = computed.table;
    compare(rt, Side::Negative, 4, computed, b"01**, 0*1*, 0**0, 100*")?;
    write(
        rt,
        b"Example 4.4 changed to positive, beside the result of Example 3.8\n",
    )?;
    compare(
        rt,
        Side::Positive,
        4,
        operations::change_side(Side::Negative, t),
        b"0001, 110*, 101*, 111*",
    )
}

// Negative projection.
fn example_4_6(rt: &impl Print) -> io::Result<()> {
    let given = b"11**, 1*1*, *11*, **11";
    heading(
        rt,
        b"Example 4.6",
        Side::Negative,
        given,
        b" projected onto X1, X2, X3",
    )?;
    let t = read_table(4, given);
    compare(
        rt,
        Side::Negative,
        3,
        projected(Side::Negative, t),
        b"11*, 1*1, *11",
    )
}

fn main(rt: HostRuntime) -> io::Result<()> {
    example_2_6(&rt)?;
    example_3_4(&rt)?;
    example_3_8(&rt)?;
    after_example_3_8(&rt)?;
    example_4_1(&rt)?;
    after_example_4_1(&rt)?;
    after_definition_4_2(&rt)?;
    example_4_4(&rt)?;
    example_4_6(&rt)
}
