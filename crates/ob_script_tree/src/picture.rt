//! The forms in which a tree is written.

ghost use Rattle.std.specs.Prelude.{◌≡◌, IfOk};
ghost use Rattle.ob_script_tree.specs.Drawing.{picture_of};
ghost use Rattle.ob_tree.specs.Index.{Rise};

use ob_tree::{Style, Survey, tree_text};
use ob_tree_json::tree_json;
use std::alloc::{AllocError, Global};

/// The form in which a tree is written. (this profile)
#[derive(Clone, Copy, PartialEq, Eq, Debug)]
pub enum Picture {
    /// Lines, whose nesting these characters show.
    Lines(Style),
    /// One JSON value in one line.
    Json,
}

/// The tree of a survey in this form. The objects are by rising ids. The only error is out of memory. (this profile)
pub fn picture_text(alloc: Global, survey: &Survey, picture: Picture) -> Result<Vec<u8>, AllocError>
    requires { Rise survey.now.objects }
    ensures { IfOk result (λ text. text.items ≡ picture_of picture survey.now) }
{
    match picture {
        Picture::Lines(style) => tree_text(alloc, survey, style),
        Picture::Json => tree_json(alloc, survey),
    }
}
