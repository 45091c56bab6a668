// The frames in: "`01` vocab u32, seed flag u8 (0 or 1), seed u32 (0 if unset), length u8, min u64, shrink bits, EM u16,
// specials u16; `02` special: length u8, bytes; `03` word: frequency u64, length u8, bytes; `04` word count u32."
//
// The fields of a 01 are those of `settings::Settings`, so it is read as that, with the number of specials beside it. Whether a
// setting is within its bounds is not asked here.
ghost use Rattle.std.specs.Prelude.{◌≡◌, ◌+◌, ◌≤◌, ◌<◌, length};
ghost use Rattle.frames.specs.Frames.{number_at, seed_of, seed_fits, settings_of, settings_frame, special_frame, word_frame, count_frame, frame_of};

use settings::Settings;

// What a line's bytes are. The bytes of a special and of a word are so many of them, from the index `from` on.
#[derive(Clone, Copy, Debug, PartialEq)]
pub enum Frame {
    Settings {
        settings: Settings,
        specials: u16,
    },
    Special {
        from: usize,
        length: usize,
    },
    Word {
        frequency: u64,
        from: usize,
        length: usize,
    },
    Count(u32),
}

// The number in two bytes from an index on, most significant byte first.
fn two(bytes: &[u8], at: usize) -> u16
    requires { at + 2 ≤ length bytes.now }
    ensures { result ≡ number_at bytes.now at 2 }
{
    u16::from_be_bytes([bytes[at], bytes[at + 1]])
}

// The number in four bytes.
fn four(bytes: &[u8], at: usize) -> u32
    requires { at + 4 ≤ length bytes.now }
    ensures { result ≡ number_at bytes.now at 4 }
{
    u32::from_be_bytes([bytes[at], bytes[at + 1], bytes[at + 2], bytes[at + 3]])
}

// The number in eight bytes.
fn eight(bytes: &[u8], at: usize) -> u64
    requires { at + 8 ≤ length bytes.now }
    ensures { result ≡ number_at bytes.now at 8 }
{
    u64::from_be_bytes([
        bytes[at],
        bytes[at + 1],
        bytes[at + 2],
        bytes[at + 3],
        bytes[at + 4],
        bytes[at + 5],
        bytes[at + 6],
        bytes[at + 7],
    ])
}

// The seed's size, where the flag says that it is set.
fn seed_size(flag: u8, seed: u32) -> Option<usize>
    ensures { result ≡ seed_of flag seed }
{
    (flag != 0).then_some(seed as usize)
}

// Whether a flag and a seed go together: "seed flag u8 (0 or 1), seed u32 (0 if unset)" are rules of the frame.
fn seed_fits(flag: u8, seed: u32) -> bool
    ensures { result ≡ seed_fits flag seed }
{
    if flag == 0 { seed == 0 } else { flag == 1 }
}

// The settings of a 01, which has 31 bytes.
#[tactic(auto, unfolding(crate::specs::Frames::settings_of))]
fn settings(bytes: &[u8]) -> Settings
    requires { length bytes.now ≡ 31 }
    ensures { result ≡ settings_of bytes.now }
{
    let vocab_size = four(bytes, 1) as usize;
    let seed_size = seed_size(bytes[5], four(bytes, 6));
    let max_piece_chars = usize::from(bytes[10]);
    let min_frequency = eight(bytes, 11);
    let shrink_factor = math::from_bits(eight(bytes, 19));
    let em_iterations = usize::from(two(bytes, 27));
    Settings {
        vocab_size,
        seed_size,
        max_piece_chars,
        min_frequency,
        shrink_factor,
        em_iterations,
    }
}

// A 01, if the bytes are one.
#[tactic(auto, unfolding(crate::specs::Frames::settings_frame))]
fn first(bytes: &[u8]) -> Option<Frame>
    ensures { result ≡ settings_frame bytes.now }
{
    if bytes.len() != 31 {
        return None;
    }
    if !seed_fits(bytes[5], four(bytes, 6)) {
        return None;
    }
    let settings = settings(bytes);
    let specials = two(bytes, 29);
    Some(Frame::Settings { settings, specials })
}

// A 02.
#[tactic(auto, unfolding(crate::specs::Frames::special_frame))]
fn special(bytes: &[u8]) -> Option<Frame>
    ensures { result ≡ special_frame bytes.now }
{
    if bytes.len() < 2 {
        return None;
    }
    let length = usize::from(bytes[1]);
    if bytes.len() != 2 + length {
        return None;
    }
    Some(Frame::Special { from: 2, length })
}

// A 03.
#[tactic(auto, unfolding(crate::specs::Frames::word_frame))]
fn word(bytes: &[u8]) -> Option<Frame>
    ensures { result ≡ word_frame bytes.now }
{
    if bytes.len() < 10 {
        return None;
    }
    let length = usize::from(bytes[9]);
    if bytes.len() != 10 + length {
        return None;
    }
    let frequency = eight(bytes, 1);
    Some(Frame::Word {
        frequency,
        from: 10,
        length,
    })
}

// A 04.
#[tactic(auto, unfolding(crate::specs::Frames::count_frame))]
fn count(bytes: &[u8]) -> Option<Frame>
    ensures { result ≡ count_frame bytes.now }
{
    if bytes.len() != 5 {
        return None;
    }
    Some(Frame::Count(four(bytes, 1)))
}

// The frame that a line's bytes are, if they are one.
#[tactic(auto, using(crate::proofs::Framed::no_byte, crate::proofs::Framed::kinds))]
pub fn read(bytes: &[u8]) -> Option<Frame>
    ensures { result ≡ frame_of bytes.now }
{
    if bytes.is_empty() {
        return None;
    }
    match bytes[0] {
        1 => first(bytes),
        2 => special(bytes),
        3 => word(bytes),
        4 => count(bytes),
        _ => None,
    }
}
