ghost use Rattle.std.specs.Prelude.{◌≡◌, ◌++◌, OnOk};
ghost use Rattle.std.specs.Fmt.{decimal};
ghost use Rattle.dap_frames.specs.Frames.{header_of};

use std::alloc::AllocError;
use std::io::Write;

/// Adds the header of a body of so many bytes. Without memory a part of it may be there.
pub fn write_header(bytes: &mut Vec<u8>, length: usize) -> Result<(), AllocError>
    ensures { OnOk result (bytes.new.items ≡ bytes.old.items ++ header_of length) }
{
    bytes.extend_from_slice(b"Content-Length: ")?;
    write_number(bytes, length)?;
    bytes.extend_from_slice(b"\r\n\r\n")
}

/// Adds a number in decimal.
fn write_number(bytes: &mut Vec<u8>, number: usize) -> Result<(), AllocError>
    ensures { OnOk result (bytes.new.items ≡ bytes.old.items ++ decimal number) }
{
    write!(bytes, "{number}").map_err(|_| AllocError)
}
