//! Names that come and go.

/// They are counted, and those that go are listed.
pub(super) const NAMES: &str =
    r"# a name goes with the last handle of a temporary object, also that of a directory which a permanent name keeps
all names            | 5 0
1 make first \E 0    | SUCCESS
1 make directory \D 0 | SUCCESS
1 make first \D\F 10 | SUCCESS
1 make first - 0     | SUCCESS
all names            | 8 0
all from 7           | 7 E 6 1
all from 8           | 8 D 7 1
all from 9           | 9 F 8 8
all from 10          | 10 . 0 0
all from 11          | 0 . 0 0
1 close 1            | SUCCESS
all names            | 7 1
all removed 0        | 7 6
1 close 2            | SUCCESS
all names            | 6 2
all removed 1        | 8 7
1 temporary 3        | SUCCESS
1 close 3            | SUCCESS
all names            | 5 3
all removed 2        | 9 8
all left | 7 1 3 2 2";

/// A name that is taken back, since the set refuses, is listed, and its stamp comes once more.
pub(super) const REFUSED: &str = r"# the second object is refused
1 make first \E 0 | SUCCESS
1 make first \F 0 | TYPE_REFUSED 6
all names | 6 1
all removed 0 | 8 7
1 close 0 | SUCCESS
all names | 5 2";
