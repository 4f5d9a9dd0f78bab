//! The calls of a set are recorded as commands make them, in their order.

/// All have room.
pub(super) const ALL: &str = r"# an object's life
1 make first \E 0 2 | SUCCESS
1 open first \E 0   | SUCCESS
1 open any \E 0     | TYPE_REFUSED 2
1 close 0           | SUCCESS
1 close 1           | SUCCESS
all calls 0 1 | created 1 up
all calls 1 1 | opened 1 up
all calls 2 1 | closed 1 up 1 1
all calls 3 1 | closed 1 up 0 0
all calls 4 1 | deleted 1 up
all recorded | 5 0

# an exit closes in the order of opening, and deletes from the last back
1*1000 make first - 0      | SUCCESS
1 exit                     | SUCCESS
all calls 0 1000    | created 1 up
all calls 1000 1000 | closed 1 up 0 0
all calls 2000 1000 | deleted 1000 down
all left | 6 0 1000 1000 1000";

/// Four have.
pub(super) const FOUR: &str = r"# the first four
1 make first \E 0 2 | SUCCESS
1 open first \E 0   | SUCCESS
1 open any \E 0     | TYPE_REFUSED 2
1 close 0           | SUCCESS
1 close 1           | SUCCESS
all calls 0 1 | created 1 up
all calls 1 1 | opened 1 up
all calls 2 1 | closed 1 up 1 1
all calls 3 1 | closed 1 up 0 0
all recorded | 4 1";

/// One has.
pub(super) const ONE: &str = r"# the first
1 make first \E 0 2 | SUCCESS
1 open first \E 0   | SUCCESS
1 open any \E 0     | TYPE_REFUSED 2
1 close 0           | SUCCESS
1 close 1           | SUCCESS
all calls 0 1 | created 1 up
all recorded | 1 4";

/// None has.
pub(super) const NONE: &str = r"# none
1 make first \E 0 2 | SUCCESS
1 open first \E 0   | SUCCESS
1 open any \E 0     | TYPE_REFUSED 2
1 close 0           | SUCCESS
1 close 1           | SUCCESS
all recorded | 0 5";
