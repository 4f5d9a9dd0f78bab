//! Pages of a directory, at their edges: the room, one entry alone, the context, and the order of refusals.

/// The events of the directory have rising stamps from 7 on. An entry has 4 bytes, those of the name, and the 5 of the type's name.
pub(super) const PAGES: &str = r"# pages end where the room does
1 make directory \D 10 | SUCCESS
1 make first \D\E 0    | SUCCESS
1 make first \D\F 0    | SUCCESS
1 make first \D\GH 0   | SUCCESS
1 list 0 0 31 all next      | SUCCESS EFH 9           | all entries fit
1 list 0 0 30 all next      | MORE_ENTRIES EF. 8      | the last lacks a byte
1 list 0 0 10 all next      | MORE_ENTRIES E.. 7      | the first fits alone
1 list 0 0 9 all next       | BUFFER_TOO_SMALL ... 0  | the first lacks a byte
1 list 0 8 10 all next      | BUFFER_TOO_SMALL ... 8  | a longer name lacks a byte
1 list 0 0 31 one next      | SUCCESS E.. 7           | one alone is asked for
1 list 0 7 31 one next      | SUCCESS F.. 8           | one alone behind the first
1 list 0 8 10 one first     | SUCCESS E.. 7           | it begins again
1 list 0 9 31 all next      | NO_MORE_ENTRIES ... 9   | none is left
1 list 0 0 1048576 all next | SUCCESS EFH 9           | the greatest room
1 list 9 0 1048577 all next | INVALID_PARAMETER ... 0 | the room is judged before the handle
1 list 1 0 31 all next      | OBJECT_TYPE_MISMATCH ... 0 | an event has no pages
all left | 10 4 3 0 0

# a page goes on behind an entry that went, and shows another that came under its name
1 make directory \D 10 | SUCCESS
1 make first \D\E 0    | SUCCESS
1 make first \D\F 0    | SUCCESS
1 make first \D\GH 0   | SUCCESS
1 list 0 0 20 all next | MORE_ENTRIES EF. 8
1 close 2              | SUCCESS
1 make first \D\F 0    | SUCCESS
1 list 0 8 31 all next | SUCCESS HF. 10
all left | 10 4 4 1 1";
