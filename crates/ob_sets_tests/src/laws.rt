//! The laws of sets, handed over at types without parameters.

use crate::lives::Sum;
use ob_host::HostSet;
use ob_plain::{
    Counting, Plain, Recorder, Refusing, accepted_opens_are_noted, accepted_opens_count,
};
use ob_types::{
    TypeSet, a_parse_run_has_one_end, calls_go_to_their_part, laws, same_faces_end_alike,
};

// Hands over the laws of a set, and those of sets that are made of it.
fn hand_over_laws<T: TypeSet>() {
    laws::refused_open::<T>();
    laws::made_idle::<T>();
    laws::closed_idle::<T>();
    laws::one_kind::<T>();
    laws::own_kind::<T>();
    laws::equal_kinds::<T>();
    laws::front_is_used::<T>();
    laws::itself_at_end::<T>();
    laws::parsed_idle::<T>();
    laws::own_face::<T>();
    laws::same_answers::<T>();
    laws::is_lawful::<T>();
    a_parse_run_has_one_end::<T>();
    same_faces_end_alike::<T>();
    accepted_opens_count::<T>();
    accepted_opens_are_noted::<T>();
    calls_go_to_their_part::<T, T>();
}

/// Hands over the laws of plain objects, also where they are counted, recorded and refused, of a caller's own, and of a sum.
pub(crate) fn hand_over_all() {
    hand_over_laws::<Recorder<Counting<Plain>>>();
    hand_over_laws::<Refusing<Counting<Plain>>>();
    hand_over_laws::<HostSet>();
    hand_over_laws::<Sum>();
}
