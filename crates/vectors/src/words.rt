// Bytes as words of eight, little-endian, and parts of both.
ghost use Rattle.std.specs.Prelude.{◌*◌, ◌≤◌, ◌≡◌, length};

// A block's words.
pub fn room() -> [u64; 8192]
    ensures { 8192 ≡ length result }
{
    [0; 8192]
}

fn wide(b: u8) -> u64 {
    b as u64
}

fn word_of(b: &[u8]) -> u64
    requires { length b.now ≡ 8 }
{
    let low = wide(b[0]) | (wide(b[1]) << 8) | (wide(b[2]) << 16) | (wide(b[3]) << 24);
    let high = wide(b[4]) | (wide(b[5]) << 8) | (wide(b[6]) << 16) | (wide(b[7]) << 24);
    low | (high << 32)
}

fn fill_all(bytes: &[u8], words: &mut [u64])
    requires { 8 * length words.old ≤ length bytes.now }
{
    let n = words.len();
    for i in 0..n {
        let a = 8 * i;
        let b = a + 8;
        words[i] = word_of(&bytes[a..b]);
    }
}

// False, and nothing is written, where there are not as many bytes as words.
pub fn fill(bytes: &[u8], words: &mut [u64]) -> bool {
    if bytes.len() / 8 != words.len() {
        return false;
    }
    fill_all(bytes, words);
    true
}

// The word at a place, `more` words on; 0 past the end.
pub fn word(words: &[u64], at: usize, more: usize) -> u64 {
    if words.len() <= at {
        return 0;
    }
    if words.len() - at <= more {
        return 0;
    }
    let i = at + more;
    words[i]
}

// Empty where it does not lie inside.
pub fn part(words: &[u64], at: usize, n: usize) -> &[u64] {
    if words.len() < at {
        return &words[0..0];
    }
    if words.len() - at < n {
        return &words[0..0];
    }
    let end = at + n;
    &words[at..end]
}

// The bytes from a word's place on; empty where they do not lie inside.
pub fn bytes_part(bytes: &[u8], at: usize, n: usize) -> &[u8] {
    if bytes.len() / 8 < at {
        return &bytes[0..0];
    }
    let from = 8 * at;
    if bytes.len() - from < n {
        return &bytes[0..0];
    }
    let end = from + n;
    &bytes[from..end]
}

// Past every block; and so is what follows it.
pub const NOWHERE: usize = 18446744073709551615;

// The place n words on, where that is not past the end.
pub fn past(at: usize, n: usize, end: usize) -> usize {
    if end < at {
        return NOWHERE;
    }
    if end - at < n {
        return NOWHERE;
    }
    at + n
}
