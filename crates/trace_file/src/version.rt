ghost use Rattle.std.specs.Prelude.{◌≡◌, ◌≢◌, MatchOption};
ghost use Rattle.trace_file.specs.TraceText.{header_of};
ghost use Rattle.trace_file.specs.declared.version.Version.{Version};

/// The first line of a trace of version 1, without its end.
const FIRST: &[u8] = b"balsadbg trace 1";

/// The first line of a trace of version 2, without its end.
pub(crate) const SECOND: &[u8] = b"balsadbg trace 2";

/// The versions of a trace, by the order in which its lines have the steps.
#[derive(Clone, Copy)]
pub(crate) enum Version {
    /// Any order in which the steps can be taken.
    First,
    /// The canonical order.
    Second,
}

/// The version of the traces with this first line, without its end.
pub(crate) fn version_of(line: &[u8]) -> Option<Version>
    ensures { MatchOption result ((v : Version) → line.now ≢ header_of v) (λ v. line.now ≡ header_of v) }
{
    if line == FIRST {
        Some(Version::First)
    } else if line == SECOND {
        Some(Version::Second)
    } else {
        None
    }
}
