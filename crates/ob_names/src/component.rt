//! Components: the texts between the separators of a text.

ghost use Rattle.std.specs.Prelude.{◌≡◌, ◌↔◌, [], ◌∷◌, ◌++◌, IsTrue};
ghost use Rattle.ob_model.specs.Names.{separator, next_component, after_component};
ghost use Rattle.ob_model.specs.Names.{IsComponent, IsRest, is_name};
ghost use Rattle.ob_names.specs.Component.{IsEmpty, IfOne};
ghost use Rattle.ob_names.specs.Splitting.{SplitsGoOn, SplitsAreUnique, IsFirstSeparator};

/// The byte that separates components, `\`.
pub(crate) const SEPARATOR: u8 = b'\\';

/// The beginning of a text after a separator.
#[derive(Clone, Copy, Debug)]
pub enum Component<'a> {
    /// No component: the text is empty, or begins with a separator.
    Empty,
    /// A component, `name`, of one or more bytes and no separator, and after it `rest`, which is
    /// empty or begins with a separator.
    One { name: &'a [u8], rest: &'a [u8] },
}

/// The first component of a text that follows a separator, and what follows it. The
/// text may have any length and any bytes.
///
/// Source: OBJECT_ATTRIBUTES structure (Windows Driver Kit), for names whose components are
/// separated by `\`; that the component may be empty, which callers refuse, is this profile.
#[tactic(auto, using(crate::proofs::Separators::split_off))]
pub fn first(text: &[u8]) -> Component<'_>
    ensures empty { IsEmpty result ↔ IsRest text.now }
    ensures no_component { IsEmpty result ↔ (next_component (separator ∷ text.now) ≡ []) }

    ensures whole { IfOne result (λ name rest. text.now ≡ name ++ rest) }
    ensures component { IfOne result (λ name _. IsComponent name) }
    ensures rest { IfOne result (λ _ rest. IsRest rest) }

    // The same, in the words of a walk: its rest is the text with the separator before it.
    ensures next { IfOne result (λ name _. name ≡ next_component (separator ∷ text.now)) }
    ensures after { IfOne result (λ _ rest. rest ≡ after_component (separator ∷ text.now)) }

    // Both parts of a name are names.
    ensures name { IsTrue (is_name text.now) → IfOne result (λ name _. IsTrue (is_name name)) }
    ensures rest_name { IsTrue (is_name text.now) → IfOne result (λ _ rest. IsTrue (is_name rest)) }
{
    let end = component_len(text);
    if end == 0 {
        return Component::Empty;
    }
    let (name, rest) = text.split_at(end);
    Component::One { name, rest }
}

// How many bytes come before the first separator, or in all where there is none.
fn component_len(text: &[u8]) -> usize
    ensures { IsFirstSeparator text.now result }
{
    text.iter()
        .position(|&byte| byte == SEPARATOR)
        .unwrap_or(text.len())
}

/// Splitting joins back. Where a text is some components and a rest, each after a separator, and
/// the rest has a next component, the text is those components, this one, and what follows
/// it; and no other components come before the same rest. So the components that `first` gives,
/// one after another, are the ones that the text is made of. Takes nothing and does nothing.
pub fn splitting_joins_back()
    ensures goes_on { SplitsGoOn }
    ensures unique { SplitsAreUnique }
{}
