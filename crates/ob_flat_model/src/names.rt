//! Names. A component is known by one letter; those of the opening state and of devices are longer.

use std::alloc::{AllocError, Global};

/// A path. A letter that means no component by itself is `??`.
#[derive(Clone, Copy)]
pub struct FlatPath {
    /// The letters of the components before the last.
    pub way: &'static [u8],
    /// That of the last, where there is one.
    pub last: Option<u8>,
}

/// A name that commands have.
#[derive(Clone, Copy)]
pub struct FlatName {
    /// The value of the handle to whose object it is relative; none where it is absolute.
    pub root: Option<u32>,
    /// Its path.
    pub path: FlatPath,
}

/// The letters of all components of a path.
pub(crate) fn letters(alloc: Global, path: FlatPath) -> Result<Vec<u8>, AllocError> {
    let mut letters = path.way.to_vec(alloc)?;
    if let Some(last) = path.last {
        letters.push(last)?;
    }
    Ok(letters)
}

/// How a component is spelled.
pub(crate) fn spelled(letter: u8) -> &'static [u8] {
    match letter {
        b'A' => b"A",
        b'B' => b"B",
        b'C' => b"C",
        b'a' => b"a",
        b'b' => b"b",
        b'2' => b"2",
        b'3' => b"3",
        b'G' => b"GLOBAL??",
        b'L' => b"DosDevices",
        b'D' => b"Device",
        b'N' => b"BaseNamedObjects",
        b'S' => b"Sessions",
        b's' => b"Serial0",
        b't' => b"Serial1",
        b'p' => b"com1",
        b'q' => b"com2",
        _ => b"??",
    }
}

/// The absolute text of components: a backslash alone where there is none.
pub(crate) fn joined(alloc: Global, letters: &[u8]) -> Result<Vec<u8>, AllocError> {
    let mut text = Vec::new(alloc);
    for letter in letters {
        text.push(b'\\')?;
        text.extend_from_slice(spelled(*letter))?;
    }
    if letters.is_empty() {
        text.push(b'\\')?;
    }
    Ok(text)
}

/// The text of a name: no backslash is before a relative one. The only error is out of memory.
pub fn text(alloc: Global, name: FlatName) -> Result<Vec<u8>, AllocError> {
    let letters = letters(alloc, name.path)?;
    let text = joined(alloc, letters.as_slice())?;
    match name.root {
        Some(_) => text.get(1..).unwrap_or(&[]).to_vec(alloc),
        None => Ok(text),
    }
}
