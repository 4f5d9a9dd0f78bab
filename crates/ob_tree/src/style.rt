//! The characters that show how entries are nested.

ghost use Rattle.std.specs.Prelude.{◌≡◌};
ghost use Rattle.ob_tree.specs.Tree.{bar_text, connector_text};

/// The characters of a tree: of boxes, in UTF-8, or of ASCII alone. (this profile)
#[derive(Clone, Copy, PartialEq, Eq, Debug)]
pub enum Style {
    /// The characters of boxes.
    Boxes,
    /// `|`, `-` and the grave accent.
    Ascii,
}

/// Where a line is among those of its directory.
#[derive(Clone, Copy, PartialEq, Eq, Debug)]
pub(crate) enum Branch {
    /// In no directory.
    Top,
    /// Others of the directory follow.
    Middle,
    /// It is the last.
    Last,
}

impl Style {
    /// The text before the name of a line.
    pub(crate) fn connector(self, branch: Branch) -> &'static [u8]
        ensures { result.now ≡ connector_text self branch }
    {
        match (self, branch) {
            (_, Branch::Top) => b"",
            (Style::Boxes, Branch::Middle) => b"\xE2\x94\x9C\xE2\x94\x80\xE2\x94\x80 ",
            (Style::Boxes, Branch::Last) => b"\xE2\x94\x94\xE2\x94\x80\xE2\x94\x80 ",
            (Style::Ascii, Branch::Middle) => b"|-- ",
            (Style::Ascii, Branch::Last) => b"`-- ",
        }
    }

    /// The text before each line below it, in the same place.
    pub(crate) fn bar(self, branch: Branch) -> &'static [u8]
        ensures { result.now ≡ bar_text self branch }
    {
        match (self, branch) {
            (_, Branch::Top) => b"",
            (Style::Boxes, Branch::Middle) => b"\xE2\x94\x82   ",
            (Style::Ascii, Branch::Middle) => b"|   ",
            (_, Branch::Last) => b"    ",
        }
    }
}
