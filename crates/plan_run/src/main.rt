// plan-run: reads a plan file on standard input and prints its plan line and the answer to each of its queries (document 01, "Program plan-run").
#![tactic(auto)]

ghost use Rattle.std.specs.Prelude.{◌≤◌, ◌<◌, ℕ, length, take, IfOk, OnErr, OnOk};
ghost use Rattle.std.specs.Io.KnownBytes.{Appends, Consumes, IsAtEnd};
ghost use Rattle.replies.specs.Printed.{printed, room};

use arrayvec::ArrayVec;
use std::io;
use std::io::{Read, Write};

// Reads to the end of the input, or until `file` is full: how many bytes came. A read that fails ends it, since what came before may look like a
// plan.
fn read_file<R: Read>(from: &mut R, file: &mut [u8]) -> io::Result<usize>
    ensures read { IfOk result (λ n. (n ≤ length file.new) × Consumes (R.remaining from.old) (R.remaining from.new) (take n file.new)
        × (n < length file.new → IsAtEnd (R.remaining from.new))) }
    ensures failed { OnErr result ((n : ℕ) × (n ≤ length file.new) × Consumes (R.remaining from.old) (R.remaining from.new) (take n file.new)) }
{
    // how much one read gives is not known before
    let mut len = 0;
    while len < file.len() {
        match from.read(&mut file[len..])? {
            0 => break,
            n => len += n,
        }
    }
    Ok(len)
}

// Writes the text of a file, piece by piece, up to the first that cannot be written: none may follow a part of another.
fn run<W: Write, const N: usize>(
    file: &[u8],
    page: &mut ArrayVec<u8, N>,
    to: &mut W,
) -> io::Result<()>
    requires { room ≤ N }
    ensures { OnOk result (Appends (W.contents to.old) (W.contents to.new) (printed file.now)) }
{
    // each piece says where the next begins
    let mut next = replies::first_piece(file, page);
    to.write_all(page.as_slice())?;
    while let Some(at) = next {
        next = replies::next_piece(file, at, page);
        to.write_all(page.as_slice())?;
    }
    Ok(())
}

fn main(rt: HostRuntime) {
    // one byte more than a plan file may have, so that a longer one is told by its length
    let mut file = [0u8; 65537];
    let Ok(n) = read_file(&mut rt.stdin(), &mut file) else {
        let _ = eprintln!(rt; "plan-run: standard input cannot be read");
        return;
    };
    // as long as the longest piece, a route's answer of 257 lanes and 4,096 points: there is no heap
    let mut page = ArrayVec::<u8, 141928>::new();
    let _ = run(&file[..n], &mut page, &mut rt.stdout());
}
