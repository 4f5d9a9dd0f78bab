//! The names of types, read back.

ghost use Rattle.std.specs.Prelude.{◌≡◌, option_map};
ghost use Rattle.ob_reader.specs.Reading.{kind_for, type_name_for};

use either::Either;
use ob_device::DeviceKind;
use ob_key::KeyKind;
use ob_model::TypeName;
use ob_plain::PlainKind;
use ob_standard::StandardKind;

/// The kind whose type has this name: one of the six of the standard set. (this profile)
pub(crate) fn kind_of(word: &str) -> Option<StandardKind>
    ensures { result ≡ kind_for word.now }
{
    if word == "Event" {
        return Some(Either::Left(PlainKind::Event));
    }
    if word == "Mutant" {
        return Some(Either::Left(PlainKind::Mutant));
    }
    if word == "Section" {
        return Some(Either::Left(PlainKind::Section));
    }
    if word == "Device" {
        return Some(Either::Right(Either::Left(DeviceKind::Device)));
    }
    if word == "File" {
        return Some(Either::Right(Either::Left(DeviceKind::File)));
    }
    if word == "Key" {
        return Some(Either::Right(Either::Right(KeyKind::Key)));
    }
    None
}

/// The type's name that a word is: one of the eight. (this profile)
pub(crate) fn type_name_of(word: &str) -> Option<TypeName>
    ensures { result ≡ type_name_for word.now }
{
    let name = shared_name_of(word)?;
    Some(TypeName::new(name))
}

// The same, as a text that is shared with the program.
fn shared_name_of(word: &str) -> Option<&'static str>
    ensures { option_map (λ name. name.now) result ≡ type_name_for word.now }
{
    if word == "Directory" {
        return Some("Directory");
    }
    if word == "SymbolicLink" {
        return Some("SymbolicLink");
    }
    if word == "Event" {
        return Some("Event");
    }
    if word == "Mutant" {
        return Some("Mutant");
    }
    if word == "Section" {
        return Some("Section");
    }
    if word == "Device" {
        return Some("Device");
    }
    if word == "File" {
        return Some("File");
    }
    if word == "Key" {
        return Some("Key");
    }
    None
}
