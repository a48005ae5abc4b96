//! Files as a list of paths with their bytes.
//!
//! The first file of a path is the one that counts.
ghost use Rattle.std.specs.Prelude.{◌≡◌, OnOk, OnErr, option_copied, string_bytes, position};
ghost use Rattle.std.specs.Str.{bytes_eq};
ghost use Rattle.px_outside.specs.MemFiles.{stored_of, contents_of, with_appended};

use px_text::NoMemory;

/// The bytes under the path, if there are any.
pub fn find<'a>(files: &'a [(String, Vec<u8>)], path: &str) -> Option<&'a [u8]>
    ensures { option_copied result ≡ contents_of (stored_of files.now) path.now }
{
    match place_of(files, path) {
        Some(place) => Some(files[place].1.as_slice()),
        None => None,
    }
}

/// Puts the bytes at the end of the file, or into a new one.
pub fn append(files: &mut Vec<(String, Vec<u8>)>, path: &str, bytes: &[u8]) -> Result<(), NoMemory>
    ensures ok { OnOk result (stored_of files.new.items ≡ with_appended (stored_of files.old.items) path.now bytes.now) }
    ensures err { OnErr result (stored_of files.new.items ≡ stored_of files.old.items) }
{
    match place_of(files.as_slice(), path) {
        Some(place) => {
            let file = &mut files[place];
            file.1.extend_from_slice(bytes)?;
        }
        None => {
            let alloc = *files.allocator();
            let name = String::from_str(alloc, path)?;
            files.push((name, Vec::from_slice(alloc, bytes)?))?;
        }
    }
    Ok(())
}

// Where the path's first file is.
fn place_of(files: &[(String, Vec<u8>)], path: &str) -> Option<usize>
    ensures { result ≡ position (λ file. bytes_eq (string_bytes file.0) path.now) files.now }
{
    files.iter().position(|file| file.0.as_str() == path)
}
