//! Bytes cut at separators: lines at LF, words at spaces.
ghost use Rattle.std.specs.Prelude.{◌≡◌, ◌<◌, ◌≤◌, ◌==◌, ◌∷◌, [], length, drop, position, IfSome};
ghost use Rattle.mz_shell.specs.Lines.{lines_of, whole_lines};

/// The place of the first such byte. Cost: the bytes up to that place.
pub fn place_of(byte: u8, bytes: &[u8]) -> Option<usize>
    ensures place { result ≡ position (λ b. b == byte) bytes.now }
    ensures within { IfSome result (λ place. place < length bytes.now) }
{
    bytes.iter().position(|b| *b == byte)
}

/// The first line without its end, and the bytes behind it.
#[tactic(auto, using(crate::proofs::LineLemmas::lines_split, crate::proofs::LineLemmas::lines_last))]
pub fn first_line(bytes: &[u8]) -> (&[u8], &[u8])
    requires { 0 < length bytes.now }
    ensures lines { lines_of bytes.now ≡ result.0.now ∷ lines_of result.1.now }
    ensures shorter { length result.1.now < length bytes.now }
{
    match place_of(b'\n', bytes) {
        Some(end) => (&bytes[..end], &bytes[end + 1..]),
        None => (bytes, &[]),
    }
}

// How many bytes the whole lines have: up to the last LF, and with it.
fn whole_len(bytes: &[u8]) -> usize
    ensures value { result ≡ length (whole_lines bytes.now) }
    ensures within { result ≤ length bytes.now }
{
    let mut len = 0;
    for (place, byte) in bytes.iter().enumerate() {
        if *byte == b'\n' {
            len = place + 1;
        }
    }
    len
}

/// The whole lines, with their ends, and the bytes behind them. Cost: the bytes.
#[tactic(auto, using(crate::proofs::LineLemmas::whole_front, crate::proofs::LineLemmas::behind))]
pub fn split_whole(bytes: &[u8]) -> (&[u8], &[u8])
    ensures whole { result.0.now ≡ whole_lines bytes.now }
    ensures behind { result.1.now ≡ drop (length (whole_lines bytes.now)) bytes.now }
{
    let len = whole_len(bytes);
    (&bytes[..len], &bytes[len..])
}
