//! The steps, each in a namespace of its own, in which the steps of `BEFORE` were made before.

use crate::asked::{Asked, What};
use ob_base::{Handle, Proc};

/// How a caller makes its step.
#[derive(Clone, Copy, PartialEq, Eq)]
pub(crate) enum How {
    /// It asks.
    Ask,
    /// It brings the parse of the open that is asked for, which another began.
    Bring,
    /// It seals the open segment, after another began the open that is asked for, which waits meanwhile.
    Seal,
}

/// A step: its name, the seat that makes it, 0 to 2, the process that asks, how it is made, and what is asked, of a name where one is asked for. Process 2 has no
/// handles. Seat 3 begins and gives up opens.
pub(crate) type Row = (&'static str, usize, Proc, How, Asked, &'static [u8]);

/// A directory, a link and a device that are created.
const DIRECTORY: Asked = Asked::Create(What::Directory);

const LINK: Asked = Asked::Create(What::Link);

const DEVICE: Asked = Asked::Create(What::Device);

/// A file that is opened.
const FILE: Asked = Asked::Open(What::Device);

/// The processes.
const ONE: Proc = Proc(1);

const TWO: Proc = Proc(2);

/// The objects that are made before each of the steps, by the handles 4 to 20: three directories, a device with the
/// file `x`, and a link; and process 2.
pub(crate) const BEFORE: [Row; 6] = [
    ("", 0, ONE, How::Ask, DIRECTORY, b"\\A"),
    ("", 1, ONE, How::Ask, DIRECTORY, b"\\B"),
    ("", 2, ONE, How::Ask, DIRECTORY, b"\\C"),
    ("", 0, ONE, How::Ask, DEVICE, b"\\A\\D"),
    ("", 1, ONE, How::Ask, LINK, b"\\L"),
    ("", 2, ONE, How::Ask, Asked::Child(false), b""),
];

/// The steps.
pub(crate) const ROWS: [Row; 27] = [
    (
        "a directory made by the first of four",
        0,
        ONE,
        How::Ask,
        DIRECTORY,
        b"\\E",
    ),
    (
        "a directory made by the third of four, in an empty one, for a process without handles",
        2,
        TWO,
        How::Ask,
        DIRECTORY,
        b"\\B\\E",
    ),
    (
        "a directory made where one is",
        1,
        ONE,
        How::Ask,
        DIRECTORY,
        b"\\A",
    ),
    ("a link made", 1, ONE, How::Ask, LINK, b"\\M"),
    ("a device made", 2, ONE, How::Ask, DEVICE, b"\\E"),
    (
        "a directory opened",
        2,
        ONE,
        How::Ask,
        Asked::Open(What::Directory),
        b"\\A",
    ),
    (
        "a link opened",
        2,
        ONE,
        How::Ask,
        Asked::Open(What::Link),
        b"\\L",
    ),
    (
        "a name that no object has opened",
        1,
        ONE,
        How::Ask,
        Asked::Open(What::Directory),
        b"\\X",
    ),
    (
        "an open of a file begun",
        0,
        ONE,
        How::Ask,
        FILE,
        b"\\A\\D\\x",
    ),
    (
        "an open of a file begun behind a link",
        2,
        ONE,
        How::Ask,
        FILE,
        b"\\L\\D\\x",
    ),
    (
        "the parse of a file brought by another",
        0,
        ONE,
        How::Bring,
        FILE,
        b"\\A\\D\\x",
    ),
    (
        "the parse of a file brought for a process without handles",
        1,
        TWO,
        How::Bring,
        FILE,
        b"\\A\\D\\x",
    ),
    (
        "a parse that was refused brought by another",
        2,
        ONE,
        How::Bring,
        FILE,
        b"\\A\\D\\y",
    ),
    (
        "a segment sealed while an open waits",
        1,
        ONE,
        How::Seal,
        FILE,
        b"\\A\\D\\x",
    ),
    (
        "a path asked for",
        1,
        ONE,
        How::Ask,
        Asked::Name(Handle(16)),
        b"",
    ),
    (
        "a target asked for",
        2,
        ONE,
        How::Ask,
        Asked::Target(Handle(20)),
        b"",
    ),
    (
        "a directory listed",
        2,
        ONE,
        How::Ask,
        Asked::List(Handle(4)),
        b"",
    ),
    (
        "a handle duplicated",
        0,
        ONE,
        How::Ask,
        Asked::Duplicate(Handle(4), Proc(1)),
        b"",
    ),
    (
        "a handle duplicated into another process",
        1,
        ONE,
        How::Ask,
        Asked::Duplicate(Handle(4), Proc(2)),
        b"",
    ),
    (
        "an object made permanent",
        2,
        ONE,
        How::Ask,
        Asked::Permanent(Handle(16)),
        b"",
    ),
    (
        "an object made temporary",
        2,
        ONE,
        How::Ask,
        Asked::Temporary(Handle(16)),
        b"",
    ),
    (
        "a directory mapped",
        0,
        ONE,
        How::Ask,
        Asked::Map(Handle(4)),
        b"",
    ),
    (
        "a child without handles",
        1,
        ONE,
        How::Ask,
        Asked::Child(false),
        b"",
    ),
    (
        "a child that inherits a handle",
        2,
        ONE,
        How::Ask,
        Asked::Child(true),
        b"",
    ),
    ("the end of a process", 2, TWO, How::Ask, Asked::Exit, b""),
    (
        "a handle closed",
        2,
        ONE,
        How::Ask,
        Asked::Close(Handle(12)),
        b"",
    ),
    (
        "a handle closed that isn't there",
        0,
        ONE,
        How::Ask,
        Asked::Close(Handle(400)),
        b"",
    ),
];
