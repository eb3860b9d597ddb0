// The prefix of a name.
ghost use Rattle.std.specs.Prelude.{◌≤◌, length};

/// How many bytes stand up to the last `:`, it among them.
pub fn prefix_length(name: &[u8]) -> usize
    ensures { result ≤ length name.now }
{
    let mut found = 0;
    for (index, byte) in name.iter().enumerate() {
        if *byte == b':' {
            found = index + 1;
        }
    }
    found
}
