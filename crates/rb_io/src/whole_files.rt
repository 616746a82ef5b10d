// Writes regular files whole or not at all: under another name in the same folder, which is then renamed.

use std::alloc::Global;
use std::fs::{OpenFile, OpenOptions, Permissions};
use std::io::{ErrorKind, Write};
use std::os::unix::fs::{MetadataExt, OpenOptionsExt, PermissionsExt, chown};
use std::rt::Files;
use std::{fs, io};

// The permissions of owner, group and others. The set-user-ID and set-group-ID bits above them are never copied to a
// rewritten file, which may have another owner or group.
const RIGHTS: u32 = 0o777;

// The number of names that are tried for the temporary file. Existing ones are left over from killed processes, or
// belong to processes that are writing now.
const TRIES: u32 = 10_000;

// The file to replace: its path, the permissions that the new file gets (the system's default if `None`), and the
// numbers of its owner and group, if it exists.
#[derive(Drop)]
struct Target {
    path: String,
    rights: Option<u32>,
    owner: Option<(u32, u32)>,
}

/// The permissions of a file, if it exists.
pub(crate) fn rights_of<R: Files>(rt: &R, name: &str) -> Option<u32> {
    match fs::metadata(rt, name) {
        Ok(file) => Some(file.permissions().mode() & RIGHTS),
        Err(_) => None,
    }
}

/// Makes `bytes` the content of a file, and gives it `rights` if there are some and the system allows it.
///
/// A regular file, or one that doesn't exist, is replaced atomically: at each moment it has the old content or the new
/// one. An existing file keeps its owner and group if the system allows it, and its permissions, without the bits above
/// `RIGHTS`, if `rights` is `None`. A symbolic link is followed, and stays. Of a file with several hard links only this
/// name gets the new bytes. Other files, such as devices and pipes, are written in place and keep their permissions. So
/// are targets of links that don't exist, and files that the system allows to be written but not to be replaced.
pub(crate) fn write_file<R: Files + AllocGlobal>(
    rt: &R,
    name: &str,
    bytes: &[u8],
    rights: Option<u32>,
) -> io::Result<()> {
    if let Some(target) = target_of(rt, name, rights)?
        && replace(rt, &target, bytes)?
    {
        return Ok(());
    }
    write_in_place(rt, name, bytes, rights)
}

// The target that `name` refers to, if a new file can be renamed to it. An existing file has to be writable, as if it
// were written in place.
fn target_of<R: Files + AllocGlobal>(
    rt: &R,
    name: &str,
    rights: Option<u32>,
) -> io::Result<Option<Target>> {
    let Ok(old) = fs::metadata(rt, name) else {
        return Ok(new_target(rt, name, rights));
    };
    if !old.is_file() {
        return Ok(None);
    }
    OpenOptions::new().write(true).open(rt, name)?;
    let Ok(path) = fs::canonicalize(rt, name) else {
        return Ok(None);
    };
    Ok(Some(Target {
        path: path.into_string(),
        rights: Some(rights.unwrap_or(old.permissions().mode() & RIGHTS)),
        owner: Some((old.uid(), old.gid())),
    }))
}

// The target for a name without a file. `None` for a symbolic link whose target doesn't exist.
fn new_target<R: Files + AllocGlobal>(rt: &R, name: &str, rights: Option<u32>) -> Option<Target> {
    if fs::symlink_metadata(rt, name).is_ok() {
        return None;
    }
    let path = String::from_str(rt.alloc(), name).ok()?;
    Some(Target {
        path,
        rights,
        owner: None,
    })
}

// Writes a temporary file in the target's folder, and renames it. Returns false, with nothing changed, if the system
// doesn't allow creating or renaming the file, or memory for its name runs out.
fn replace<R: Files + AllocGlobal>(rt: &R, target: &Target, bytes: &[u8]) -> io::Result<bool> {
    for number in 0..TRIES {
        let Some(name) = name_beside(rt.alloc(), &target.path, number) else {
            return Ok(false);
        };
        match create(rt, &name, target.rights) {
            Ok(file) => return complete(rt, file, &name, target, bytes),
            Err(error) if error.kind() == ErrorKind::AlreadyExists => {}
            Err(_) => return Ok(false),
        }
    }
    Ok(false)
}

// A temporary name in the folder of `path`.
fn name_beside(alloc: Global, path: &str, number: u32) -> Option<String> {
    match path.rsplit_once('/') {
        Some((folder, _)) => format!(in alloc; "{folder}/.sudrepka-{number}").ok(),
        None => format!(in alloc; ".sudrepka-{number}").ok(),
    }
}

// Creates a file that never has more permissions than `rights`.
fn create<R: Files>(rt: &R, name: &str, rights: Option<u32>) -> io::Result<R::File> {
    let mut options = OpenOptions::new();
    options.write(true).create_new(true);
    if let Some(mode) = rights {
        options.mode(mode);
    }
    options.open(rt, name)
}

// Gives a new file its owner, fills it and renames it, or removes it.
fn complete<R: Files>(
    rt: &R,
    file: R::File,
    name: &str,
    target: &Target,
    bytes: &[u8],
) -> io::Result<bool> {
    if let Some((user, group)) = target.owner {
        let _ = chown(rt, name, Some(user), Some(group));
    }
    if let Err(error) = fill(file, target.rights, bytes) {
        let _ = fs::remove_file(rt, name);
        return Err(error);
    }
    let renamed = fs::rename(rt, name, target.path.as_str()).is_ok();
    if !renamed {
        let _ = fs::remove_file(rt, name);
    }
    Ok(renamed)
}

// Sets the permissions of a new file, which the process's mask may have reduced, and writes its bytes.
fn fill<F: OpenFile + Write + Drop>(
    mut file: F,
    rights: Option<u32>,
    bytes: &[u8],
) -> io::Result<()> {
    if let Some(mode) = rights {
        let _ = file.set_permissions(Permissions::from_mode(mode));
    }
    file.write_all(bytes)
}

// Overwrites the file that a name refers to. Only a regular file gets the permissions.
fn write_in_place<R: Files>(
    rt: &R,
    name: &str,
    bytes: &[u8],
    rights: Option<u32>,
) -> io::Result<()> {
    fs::write(rt, name, bytes)?;
    if let Some(mode) = rights
        && fs::metadata(rt, name)?.is_file()
    {
        let _ = fs::set_permissions(rt, name, Permissions::from_mode(mode));
    }
    Ok(())
}
