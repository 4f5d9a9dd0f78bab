//! Verbs: the words that name requests, and the sorts of their operands.

ghost use Rattle.std.specs.Prelude.{◌≡◌, ◌≢◌, ◌≤◌, find, length, map, option_map, IfSome, IfNone};
ghost use Rattle.std.specs.Str.{bytes_eq};
ghost use Rattle.ob_lines.specs.declared.verb.Verb.{Verb};
ghost use Rattle.ob_lines.specs.Verbs.{all_verbs, row_of, row_seen, sorts_of, verb_text};

use ob_parts::{LastForm, PartForm};

// A verb, which names a request.
#[derive(Clone, Copy)]
pub enum Verb {
    // `dir`: a new directory.
    Dir,
    // `shadow`: a new directory with a shadow.
    Shadow,
    // `link`: a new symbolic link.
    Link,
    // `make`: a new object.
    Make,
    // `opendir`: a handle to a directory.
    OpenDir,
    // `openlink`: a handle to a symbolic link.
    OpenLink,
    // `open`: a handle to an object.
    Open,
    // `close`: a handle is closed.
    Close,
    // `target`: the target of a handle's symbolic link.
    Target,
    // `name`: the path of a handle's object.
    Name,
    // `list`: entries of a handle's directory.
    List,
    // `dup`: a handle is duplicated into a process.
    Dup,
    // `temp`: the object of a handle is made temporary.
    Temp,
    // `perm`: the object of a handle is made permanent.
    Perm,
    // `map`: the directory of a handle becomes the device map of the process.
    Map,
    // `new`: a new process.
    New,
    // `exit`: the requesting process ends. It has no operands.
    Exit,
}

// The sorts of parts that have a space after them, in order, and the sort of the last part.
pub type PartSorts = (&'static [PartForm], LastForm);

// The word and the operands of a verb.
#[derive(Clone, Copy)]
pub struct VerbRow {
    // The word that names the verb.
    pub word: &'static [u8],
    // The verb.
    pub verb: Verb,
    // The sorts of the operands. None: the verb has no operands.
    pub sorts: Option<PartSorts>,
}

// The rows of all verbs, each with another word.
static VERBS: [VerbRow; 17] = [
    VerbRow {
        word: b"dir",
        verb: Verb::Dir,
        sorts: Some((&[PartForm::Place, PartForm::Flags], LastForm::SetsVariable)),
    },
    VerbRow {
        word: b"shadow",
        verb: Verb::Shadow,
        sorts: Some((
            &[PartForm::Handle, PartForm::Place, PartForm::Flags],
            LastForm::SetsVariable,
        )),
    },
    VerbRow {
        word: b"link",
        verb: Verb::Link,
        sorts: Some((
            &[PartForm::Place, PartForm::Flags, PartForm::Text],
            LastForm::SetsVariable,
        )),
    },
    VerbRow {
        word: b"make",
        verb: Verb::Make,
        sorts: Some((
            &[
                PartForm::Kind,
                PartForm::Place,
                PartForm::Flags,
                PartForm::Text,
            ],
            LastForm::SetsVariable,
        )),
    },
    VerbRow {
        word: b"opendir",
        verb: Verb::OpenDir,
        sorts: Some((&[PartForm::Name, PartForm::Flags], LastForm::SetsVariable)),
    },
    VerbRow {
        word: b"openlink",
        verb: Verb::OpenLink,
        sorts: Some((&[PartForm::Name, PartForm::Flags], LastForm::SetsVariable)),
    },
    VerbRow {
        word: b"open",
        verb: Verb::Open,
        sorts: Some((
            &[PartForm::Want, PartForm::Name, PartForm::Flags],
            LastForm::SetsVariable,
        )),
    },
    VerbRow {
        word: b"close",
        verb: Verb::Close,
        sorts: Some((&[], LastForm::Handle)),
    },
    VerbRow {
        word: b"target",
        verb: Verb::Target,
        sorts: Some((&[], LastForm::Handle)),
    },
    VerbRow {
        word: b"name",
        verb: Verb::Name,
        sorts: Some((&[], LastForm::Handle)),
    },
    VerbRow {
        word: b"list",
        verb: Verb::List,
        sorts: Some((&[PartForm::Handle, PartForm::Room], LastForm::Mode)),
    },
    VerbRow {
        word: b"dup",
        verb: Verb::Dup,
        sorts: Some((
            &[PartForm::Handle, PartForm::Process, PartForm::Inherit],
            LastForm::SetsVariable,
        )),
    },
    VerbRow {
        word: b"temp",
        verb: Verb::Temp,
        sorts: Some((&[], LastForm::Handle)),
    },
    VerbRow {
        word: b"perm",
        verb: Verb::Perm,
        sorts: Some((&[], LastForm::Handle)),
    },
    VerbRow {
        word: b"map",
        verb: Verb::Map,
        sorts: Some((&[], LastForm::Handle)),
    },
    VerbRow {
        word: b"new",
        verb: Verb::New,
        sorts: Some((&[PartForm::Inherit], LastForm::SetsProcess)),
    },
    VerbRow {
        word: b"exit",
        verb: Verb::Exit,
        sorts: None,
    },
];

// The rows of all verbs.
fn verb_rows() -> &'static [VerbRow]
    ensures { map row_seen result.now ≡ map (λ verb. (verb, row_of verb)) all_verbs }
{
    &VERBS
}

// The verb of a word.
pub fn verb_of(word: &[u8]) -> Option<Verb>
    ensures found { IfSome result (λ verb. word.now ≡ verb_text verb) }
    ensures none { IfNone result ((verb : Verb) → word.now ≢ verb_text verb) }
{
    Some(row_of(word)?.verb)
}

// The row of the verb that a word names.
pub fn row_of(word: &[u8]) -> Option<VerbRow>
    ensures found { IfSome result (λ row. word.now ≡ verb_text row.verb) }
    ensures sorts { IfSome result (λ row.
        option_map (λ sorts. (sorts.0.now, sorts.1)) row.sorts ≡ sorts_of row.verb) }
    ensures few { IfSome result (λ row. IfSome row.sorts (λ sorts. length sorts.0.now ≤ 4)) }
    ensures none { IfNone result ((verb : Verb) → word.now ≢ verb_text verb) }
{
    row_in(verb_rows(), word)
}

// The first of these rows that has a word.
fn row_in(rows: &[VerbRow], word: &[u8]) -> Option<VerbRow>
    ensures { result ≡ find (λ row. bytes_eq row.word.now word.now) rows.now }
{
    rows.iter().copied().find(|row| row.word == word)
}
