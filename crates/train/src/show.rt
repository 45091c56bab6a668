// The answer as lines. They wait in a buffer until it is full or all is told.
use frames::Summary;
use refusal::Refusal;
use std::io;

// Writes what waits to standard output.
fn send(rt: &impl Print, out: &[u8], waiting: usize) -> io::Result<()> {
    let n = waiting.min(out.len());
    rt.write_all(&out[..n])
}

// Puts a line behind what waits; where it has no room there, what waits is written first.
fn put_line<F: Fn(&mut [u8], usize) -> Option<usize>>(
    rt: &impl Print,
    out: &mut [u8],
    waiting: usize,
    line: F,
) -> io::Result<usize>
    requires { F.IsAlwaysCallable line }
{
    if let Some(next) = line(out, waiting) {
        return Ok(next);
    }
    send(rt, out, waiting)?;
    Ok(line(out, 0).unwrap_or(0))
}

// Puts the i-th token.
fn put_nth(
    rt: &impl Print,
    out: &mut [u8],
    waiting: usize,
    bytes: &[u8],
    spans: &[u32],
    scores: &[f64],
    i: u32,
) -> io::Result<usize> {
    let k = i as usize;
    if spans.len() / 2 <= k || scores.len() <= k {
        return Ok(waiting);
    }
    let from = spans[2 * k] as usize;
    let to = from + spans[2 * k + 1] as usize;
    if bytes.len() < to {
        return Ok(waiting);
    }
    put_line(rt, out, waiting, |out, at| {
        frames::write_token(out, at, i, scores[k], &bytes[from..to])
    })
}

// Puts the first so many tokens.
fn put_tokens(
    rt: &impl Print,
    out: &mut [u8],
    waiting: usize,
    bytes: &[u8],
    spans: &[u32],
    scores: &[f64],
    count: u32,
) -> io::Result<usize> {
    let mut next = waiting;
    for i in 0..count {
        next = put_nth(rt, out, next, bytes, spans, scores, i)?;
    }
    Ok(next)
}

// Writes an answer, the tokens that it counts, and their count.
pub fn tell(
    rt: &impl Print,
    answer: Result<Summary, Refusal>,
    bytes: &[u8],
    spans: &[u32],
    scores: &[f64],
) -> io::Result<()> {
    let mut out = [0u8; 65536];
    let count = answer.map_or(0, |said| said.tokens);
    let first = frames::write_answer(&mut out, 0, answer).unwrap_or(0);
    let next = put_tokens(rt, &mut out, first, bytes, spans, scores, count)?;
    let last = put_line(
        rt,
        &mut out,
        next,
        |out, at| frames::write_count(out, at, count),
    )?;
    send(rt, &out, last)
}
