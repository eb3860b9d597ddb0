// Parts of a source by their offsets.
use syntax::Span;

/// The part of the source, empty where it is not in it.
pub(crate) fn part_of(source: &[u8], span: Span) -> &[u8] {
    let (Ok(start), Ok(stop)) = (usize::try_from(span.start), usize::try_from(span.stop)) else {
        return b"";
    };
    match source.get(start..stop) {
        Some(part) => part,
        None => b"",
    }
}

/// The name without the numbers of calls before it.
pub(crate) fn own_name(name: &[u8]) -> &[u8] {
    match name.iter().rposition(|byte| *byte == b':') {
        Some(place) => name.get(place.saturating_add(1)..).unwrap_or(b""),
        None => name,
    }
}
