// Reads a positive table and then equations on standard input, and prints the table and what each equation makes of it.
#![tactic(auto)]

ghost use Rattle.std.specs.Prelude.{◌≤◌, length};

use std::io::{self, Read, Write};

// One byte more than an input may have (most_input): what follows it cannot change the answer.
const INPUT: usize = 8193;

// No text is longer than 65 tables of 256 lines of 33 bytes, each under a line of at most 25 (most_text).
const TEXT: usize = 552500;

// Reads until the buffer is full, the input ends or a read fails. The number of bytes that it put at the start of the buffer.
fn read_full<R: Read>(from: &mut R, into: &mut [u8]) -> usize
    ensures { result ≤ length into.new }
{
    // A `while`: a read gives as many bytes as it likes. `read_exact` does not say how many it read before the input ended.
    let mut done = 0;
    while done < into.len() {
        let n = from.read(&mut into[done..]).unwrap_or(0);
        if n == 0 {
            break;
        }
        done += n;
    }
    done
}

// Reads the input, and writes its report. `input` and `text` are room.
fn answer<R: Read, W: Write>(
    from: &mut R,
    to: &mut W,
    input: &mut [u8],
    text: &mut [u8],
) -> io::Result<()> {
    let n = read_full(from, input);
    let r = report::report(&input[..n], text);
    to.write_all(&text[..r.size])
}

fn main(rt: HostRuntime) -> io::Result<()> {
    let mut input = [0u8; INPUT];
    let mut text = [0u8; TEXT];
    answer(
        &mut rt.reader(),
        &mut io::writer(&rt),
        &mut input,
        &mut text,
    )
}
