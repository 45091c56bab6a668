// Items copied over others; and a text, copied behind others that slices hold: its bytes to one slice, and to another where they
// begin and how many they are.
//
// So the crate `spans` reads them. Training's tokens are laid out like this, and so are the words of the frames.
#![tactic(auto)]

ghost use Rattle.std.specs.Prelude.{◌≡◌, length};
ghost use Rattle.copied.specs.Put.{Putting, Puts};

// The items of one slice over those of another, which has as many. The library's `copy_from_slice` does the same and calls
// `memmove`, which who calls the archives for C would have to bring; a loop calls nothing.
pub fn over<T: Copy>(to: &mut [T], from: &[T])
    requires { length to.old ≡ length from.now }
    ensures { to.new ≡ from.now }
{
    for k in 0..from.len() {
        to[k] = from[k];
    }
}

// Puts a text: its bytes from `at` on, its two numbers at a slot. Answers where the next text's bytes begin.
pub fn put(text: &[u8], bytes: &mut [u8], spans: &mut [u32], slot: usize, at: usize) -> usize
    requires { Putting text.now bytes.old spans.old slot at }
    ensures { Puts text.now bytes.old spans.old slot at bytes.new spans.new result }
{
    let next = at + text.len();
    over(&mut bytes[at..next], text);
    spans[2 * slot] = at as u32;
    spans[2 * slot + 1] = text.len() as u32;
    next
}
