// Paths of files: one file may be written in more than one way.
ghost use Rattle.std.specs.Prelude.{◌≡◌, ◌<◌, ◌&&◌, ◌||◌, None, length, not, IfSome};
ghost use Rattle.dap_views.specs.Files as files;
ghost use Rattle.dap_views.specs.Paths as model;

/// Whether the path does not count from a folder: it begins with `/`, or with the letter of a drive.
pub fn is_rooted(path: &str) -> bool
    ensures { result ≡ model.is_rooted path.now }
{
    let first = path.starts_with("/");
    let drive = has_drive(path);
    first || drive
}

/// Whether the path begins with the letter of a drive, as `C:`.
fn has_drive(path: &str) -> bool
    ensures { result ≡ model.has_drive path.now }
{
    match path.as_bytes() {
        [letter, b':', ..] => letter.is_ascii_alphabetic(),
        _ => false,
    }
}

/// The name of a file that counts from a folder, without the sign for that folder.
pub fn own_name(name: &str) -> &str
    ensures { result.now ≡ model.own_name name.now }
{
    match name.strip_prefix("./") {
        Some(own) => own,
        None => name,
    }
}

/// The name of a file without the folders before it.
pub fn base_of(path: &str) -> &str {
    let name = match path.rsplit_once('/') {
        Some((_, base)) => base,
        None => path,
    };
    match name.rsplit_once('\\') {
        Some((_, base)) if has_drive(path) => base,
        _ => name,
    }
}

/// Whether both name one file, where the first may count from any folder. The signs `.` and `..` are followed, links
/// are not. Where one begins with the letter of a drive, a `\` stands between folders too, and large letters are as
/// small ones.
pub fn is_same_file(file: &str, path: &str) -> bool
    ensures { result ≡ files.same_file file.now path.now }
{
    let drives = has_drives(file, path);
    let free = may_count(file, path);
    same_names(
        drives,
        free,
        path.len().saturating_add(1),
        file.as_bytes(),
        path.as_bytes(),
    )
}

/// Whether one of them begins with the letter of a drive.
fn has_drives(file: &str, path: &str) -> bool
    ensures { result ≡ (model.has_drive file.now || model.has_drive path.now) }
{
    let first = has_drive(file);
    let second = has_drive(path);
    first || second
}

/// Whether the first may count from any folder.
fn may_count(file: &str, path: &str) -> bool
    ensures { result ≡ (not (model.is_rooted file.now) && not (files.is_nothing path.now)) }
{
    let rooted = is_rooted(file);
    let nothing = is_nothing(path.as_bytes());
    !rooted && !nothing
}

/// Whether nothing is there.
fn is_nothing(bytes: &[u8]) -> bool
    ensures { result ≡ files.is_nothing bytes.now }
{
    match bytes {
        [] => true,
        _ => false,
    }
}

/// Whether both have the same names, from the last one on, in so many steps.
fn same_names(drives: bool, free: bool, steps: usize, file: &[u8], path: &[u8]) -> bool
    ensures { result ≡ files.same_names drives free steps file.now path.now }
{
    let (mut left, mut right) = (file, path);
    for step in 0..steps {
        let (before, name) = cut_last(left, drives);
        let (before_other, other) = cut_last(right, drives);
        if is_nothing(name) {
            let nothing = is_nothing(other);
            return nothing || free;
        }
        if !is_same_name(name, other, drives) {
            return false;
        }
        left = before;
        right = before_other;
    }
    false
}

/// Whether both are one name of a folder or a file.
fn is_same_name(name: &[u8], other: &[u8], drives: bool) -> bool
    ensures { result ≡ files.same_name drives name.now other.now }
{
    if drives {
        name.eq_ignore_ascii_case(other)
    } else {
        name == other
    }
}

/// What stands before the last name of a path, and that name: signs for the same folder are passed over, and those for
/// the one above with a name each. Both are empty where no name is left.
fn cut_last(path: &[u8], drives: bool) -> (&[u8], &[u8])
    ensures before { result.0.now ≡ (files.cut_last drives path.now).0 }
    ensures name_is { result.1.now ≡ (files.cut_last drives path.now).1 }
{
    let mut rest = path;
    let mut above = 0u64;
    for step in 0..path.len() {
        let (before, name) = cut(rest, drives);
        match passing(above, name) {
            Some(more) => above = more,
            None => return (before, name),
        }
        rest = before;
    }
    (&[], &[])
}

/// How many names are to be passed over once this one is; `None` where it is the one that is looked for.
fn passing(above: u64, name: &[u8]) -> Option<u64>
    ensures { result ≡ files.passing above name.now }
{
    if name == b"..".as_slice() {
        Some(above.saturating_add(1))
    } else if is_nothing(name) || name == b".".as_slice() {
        Some(above)
    } else if above == 0 {
        None
    } else {
        Some(above - 1)
    }
}

/// What stands before the last sign between folders, and what behind it. Without one all stands behind it.
fn cut(path: &[u8], drives: bool) -> (&[u8], &[u8])
    ensures before { result.0.now ≡ files.front drives path.now }
    ensures behind { result.1.now ≡ files.back drives path.now }
{
    match last_sign(path, drives) {
        Some(index) => (&path[..index], &path[index + 1..]),
        None => (&[], path),
    }
}

/// The index of the last sign between folders.
fn last_sign(path: &[u8], drives: bool) -> Option<usize>
    ensures found { result ≡ files.last_sign drives 0 None path.now }
    ensures within { IfSome result (λ index. index < length path.now) }
{
    let mut found = None;
    for (index, byte) in path.iter().enumerate() {
        if is_sign(*byte, drives) {
            found = Some(index);
        }
    }
    found
}

/// Whether the byte stands between folders.
fn is_sign(byte: u8, drives: bool) -> bool
    ensures { result ≡ files.is_sign drives byte }
{
    byte == b'/' || (drives && byte == b'\\')
}
