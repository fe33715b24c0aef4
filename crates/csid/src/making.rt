//! Makes a new file for tables, which only its owner may read and write.

use std::fs::{self, OpenOptions, Permissions};
use std::os::unix::fs::{OpenOptionsExt, PermissionsExt};

// The mode of a new file: only its owner may read and write it.
const OWNER: u32 = 0o600;

/// Makes a missing file with mode 0600, under any umask. The library of `sqlite` would make it with mode
/// 0644. An existing file is not changed. An error is ignored, since the opening reports it.
pub(crate) fn make_private(rt: &HostRuntime, path: &str) {
    if !matches!(fs::exists(rt, path), Ok(false)) {
        return;
    }
    let made = OpenOptions::new()
        .read(true)
        .write(true)
        .create_new(true)
        .mode(OWNER)
        .open(rt, path);
    if let Ok(file) = made {
        let _ = file.set_permissions(Permissions::from_mode(OWNER));
    }
}
