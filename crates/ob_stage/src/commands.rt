//! The command that a line asks for.

use crate::lines::{bits_of, number_of, word_of};
use ob_base::{Handle, Proc};
use ob_core::{Bytes, Command, Place};
use std::alloc::Global;

/// The bytes of a word. Without memory there are none, and the step is answered otherwise than its line says.
fn bytes_of(alloc: Global, word: &str) -> Bytes {
    let mut bytes = Vec::new(alloc);
    let _ = bytes.extend_from_slice(word.as_bytes());
    Bytes::new(bytes)
}

/// The place that a name says.
fn place_of(alloc: Global, name: &str) -> Place {
    match name {
        "-" => Place::Unnamed,
        _ => Place::At {
            root: None,
            name: bytes_of(alloc, name),
        },
    }
}

/// The attributes that a line says.
fn attrs_of(line: &str) -> u32 {
    bits_of(word_of(line, 4))
}

/// The kind that a line names, of the first and the other one of a set; none where it names neither.
fn kind_of<K: Copy>(kinds: (K, K), line: &str) -> Option<K> {
    match word_of(line, 2) {
        "first" => Some(kinds.0),
        "other" => Some(kinds.1),
        _ => None,
    }
}

/// A create of an object, or of a directory where no kind is named.
fn make<K: Copy>(alloc: Global, kind: Option<K>, line: &str) -> Command<K> {
    let (place, attrs) = (place_of(alloc, word_of(line, 3)), attrs_of(line));
    match kind {
        Some(kind) => Command::CreateObject {
            place,
            attrs,
            kind,
            args: bytes_of(alloc, word_of(line, 5)),
        },
        None => Command::CreateDirectory { place, attrs },
    }
}

/// An open of a directory, of an object of a kind, or of any.
fn open<K: Copy>(alloc: Global, want: Option<K>, line: &str) -> Command<K> {
    let (root, attrs) = (None, attrs_of(line));
    let name = bytes_of(alloc, word_of(line, 3));
    match word_of(line, 2) {
        "directory" => Command::OpenDirectory { root, name, attrs },
        _ => Command::OpenObject {
            root,
            name,
            attrs,
            want,
        },
    }
}

/// A page of a directory that a line asks for.
fn page<K>(handle: Handle, line: &str) -> Command<K> {
    Command::QueryDirectory {
        handle,
        context: u64::from(number_of(word_of(line, 3))),
        room: number_of(word_of(line, 4)),
        single: word_of(line, 5) == "one",
        restart: word_of(line, 6) == "first",
    }
}

/// The command that a line asks of a handle; none where it asks for nothing.
fn on_handle<K>(handle: Handle, line: &str) -> Option<Command<K>> {
    match word_of(line, 1) {
        "close" => Some(Command::Close { handle }),
        "path" => Some(Command::QueryName { handle }),
        "temporary" => Some(Command::MakeTemporary { handle }),
        "permanent" => Some(Command::MakePermanent { handle }),
        "list" => Some(page(handle, line)),
        "duplicate" => Some(Command::Duplicate {
            handle,
            to: Proc(number_of(word_of(line, 3))),
            inherit: word_of(line, 4) == "inherit",
        }),
        _ => None,
    }
}

/// The command that a line asks for, where the handle is the one that it names; none where it asks for nothing.
pub(crate) fn command_of<K: Copy>(
    alloc: Global,
    kinds: (K, K),
    handle: Handle,
    line: &str,
) -> Option<Command<K>> {
    match word_of(line, 1) {
        "make" => Some(make(alloc, kind_of(kinds, line), line)),
        "open" => Some(open(alloc, kind_of(kinds, line), line)),
        "begin" => Some(Command::NewProcess {
            inherit: word_of(line, 2) == "inherit",
        }),
        "exit" => Some(Command::ExitProcess),
        _ => on_handle(handle, line),
    }
}
