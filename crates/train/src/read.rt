// Standard input, chunk after chunk.
//
// No contract says which bytes a read gives. So it is promised that what is answered and stored is that of some bytes, read to their
// end, or to the read that failed.
ghost use Rattle.std.specs.Prelude.{◌≤◌, length, IfOk};
ghost use Rattle.lines.specs.Lines.{begun_with, ReadFrom};

use lines::{Input, begun, chunk, last};
use std::io;
use std::io::Read;

// Fills a buffer from standard input as far as that gives: how many bytes, and none at its end.
fn fill(rt: &HostRuntime, got: &mut [u8; 65536]) -> io::Result<usize>
    ensures { IfOk result (λ n. n ≤ length got.new) }
{
    rt.stdin().read(got)
}

// Reads the input to its end, or to a read that fails. A proved loop ends, so this one counts its turns up to a number that no run
// reaches. What has been read is promised also where a read fails, so it stands beside the Result.
pub fn read_input(
    rt: &HostRuntime,
    texts: &mut [u8],
    specials: &mut [u32],
    text: &mut [u8],
    words: &mut [u32],
    frequencies: &mut [u64],
) -> (Input, io::Result<()>)
    ensures { ReadFrom (begun_with texts.old specials.old text.old words.old frequencies.old) result.0 texts.new specials.new text.new words.new frequencies.new }
{
    let mut got = [0u8; 65536];
    let mut line = [0u8; 531];
    let mut input = begun();
    for _turn in 0..u64::MAX {
        let n = match fill(rt, &mut got) {
            Ok(n) => n,
            Err(e) => return (last(input), Err(e)),
        };
        if n == 0 {
            return (last(input), Ok(()));
        }
        input = chunk(
            input,
            &got[..n],
            &mut line,
            texts,
            specials,
            text,
            words,
            frequencies,
        );
    }
    (last(input), Ok(()))
}
