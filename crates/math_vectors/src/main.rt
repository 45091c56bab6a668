// The proved mathematics as a filter: a line in, a line out.
//
// In: `E`, `L` or `P` (exp, ln, ln_1p), a space, and the 16 digits of a float's bits. Out: the 16 digits of the result's
// bits. stdin and stdout beside src/ are the vectors, answers of the reference in tools/math; tools/math/accuracy.py asks
// many more. Every line of questions has 19 bytes and every answer 17, so that a block needs no search for line ends.
#![tactic(auto)]

ghost use Rattle.std.specs.Prelude.{◌+◌, ◌≤◌, length};

use reads::read_full;
use std::io;

// How many lines are read at a time.
const LINES: usize = 1000;

// The function of a letter, at x.
fn result(function: u8, x: f64) -> f64 {
    match function {
        b'E' => math::exp(x),
        b'L' => math::ln(x),
        _ => math::ln_1p(x),
    }
}

// The bits that answer a question; 0 where the digits are none.
fn answer(question: &[u8]) -> u64
    requires { 19 ≤ length question.now }
{
    match hexadecimal::read(question, 2, 16) {
        Some(bits) => math::bits(result(question[0], math::from_bits(bits))),
        None => 0,
    }
}

// Writes an answer and its line end.
fn tell(told: &mut [u8], bits: u64)
    requires { 17 ≤ length told.old }
{
    hexadecimal::write(told, 0, 16, bits);
    told[16] = b'\n';
}

// Answers the questions, one after the other.
fn block(asked: &[u8], told: &mut [u8]) {
    for (question, line) in asked.chunks_exact(19).zip(told.chunks_exact_mut(17)) {
        tell(line, answer(question));
    }
}

// Reads a block, answers it, and says whether there may be more.
fn turn(rt: &HostRuntime) -> io::Result<bool> {
    let mut asked = [0u8; 19000];
    let mut told = [0u8; 17000];
    let got = read_full(&mut rt.stdin(), &mut asked)?;
    let lines = got / 19;
    block(&asked[..got], &mut told);
    rt.write_all(&told[..lines * 17])?;
    Ok(lines == LINES)
}

// A proved loop ends, so this one has a number of turns that no run uses up.
fn main(rt: HostRuntime) -> io::Result<()> {
    for _ in 0..u64::MAX {
        if !turn(&rt)? {
            return Ok(());
        }
    }
    Ok(())
}
