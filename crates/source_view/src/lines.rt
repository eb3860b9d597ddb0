// The lines of a source, which end at byte 10 or with the source.
ghost use Rattle.std.specs.Prelude.{◌≡◌, ◌≢◌, ◌<◌, ◌≤◌, ◌==◌, ℕ, List, [], ◌∷◌, length, position, count_by};
ghost use Rattle.syntax.specs.Texts.{is_end, lines};

/// The first line of a source that is not empty, and what stands behind its end.
pub(crate) fn first_line(source: &[u8]) -> (&[u8], &[u8])
    requires { source.now ≢ [] }
    ensures { lines source.now ≡ result.0.now ∷ lines result.1.now }
{
    match end_of_line(source) {
        Some(end) => (&source[..end], &source[end + 1..]),
        None => (source, &[]),
    }
}

/// Where the first line ends, if it does not end with the source.
fn end_of_line(source: &[u8]) -> Option<usize>
    ensures { result ≡ position is_end source.now }
{
    source.iter().position(|byte| *byte == 10)
}

/// As many as there are lines, or more.
pub(crate) fn room_for_lines(source: &[u8]) -> usize
    ensures { length (lines source.now) ≤ result }
{
    ends(source) + 1
}

/// How many bytes end a line.
fn ends(source: &[u8]) -> usize
    ensures count { result ≡ count_by is_end source.now }
    ensures most { result ≤ length source.now }
{
    source.iter().filter(|byte| **byte == 10).count()
}
