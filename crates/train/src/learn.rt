// The answer to the input, and what is told of it.
//
// Document 01 gives the program 65,536 result bytes. A token slot is there for each piece and each special.
use crate::show::tell;
use lines::Input;
use std::io;

// Answers an input that was read to its end, and tells.
pub fn learn(
    rt: &impl Print,
    input: Input,
    texts: &[u8],
    specials: &[u32],
    text: &[u8],
    words: &[u32],
    frequencies: &[u64],
) -> io::Result<()> {
    let mut bytes = [0u8; 65536];
    let mut tokens = [0u32; 2560];
    let mut scores = [0.0; 1280];
    let answer = room::answer(
        input,
        texts,
        specials,
        text,
        words,
        frequencies,
        &mut bytes,
        &mut tokens,
        &mut scores,
    );
    let many = input.stored.specials.count;
    let said = answer.map(|t| frames::trained(t.tokens, many, t.required, t.stalled));
    tell(rt, said, &bytes, &tokens, &scores)
}
