//! Opens standard input, output and error if they are closed.

ghost use Rattle.std.specs.Prelude.{◌<ℤ◌, All, IfSome, pos};
ghost use Rattle.std.specs.Fd.{file_raw_fd};

use std::fs::File;
use std::os::fd::AsRawFd;

// The first file descriptor after standard input, output and error, which are 0, 1 and 2.
const NEXT: i32 = 3;

// Opens a folder, which gets the lowest descriptor that is closed. A folder can be neither read nor written
// as a file, so it behaves like a closed descriptor. Returns `None` if the three descriptors are open, or if
// the folder cannot be opened.
fn in_place(rt: &HostRuntime) -> Option<File>
    ensures { IfSome result (λ file. file_raw_fd file <ℤ pos 3) }
{
    let folder = File::open(rt, "/").ok()?;
    (folder.as_raw_fd() < NEXT).then_some(folder)
}

/// Opens folders in place of standard input, output and error, if they are closed. So a file or a connection
/// that is opened later gets none of the three descriptors, and text for standard output or standard error is
/// never written to it. Reads and writes of the folders fail, as with closed descriptors. The result has one
/// folder for each descriptor that was closed, unless the folder could not be opened, and `None` in the other
/// places. A program calls this function first, and keeps the result until it ends.
pub fn occupy_closed(rt: &HostRuntime) -> [Option<File>; 3]
    ensures { All (λ place. IfSome place (λ file. file_raw_fd file <ℤ pos 3)) result }
{
    [in_place(rt), in_place(rt), in_place(rt)]
}
