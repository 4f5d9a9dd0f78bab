//! The calls of a set of types of its own.

/// Doors are of the first kind and can be made and opened; walls are of the other.
pub(super) const DOORS: &str = r"# nothing is called at first
all left | 6 0 0 0 0

# an open object is refused to a second open by its set
1 make first \E 0     | SUCCESS
1 open any \E 0       | TYPE_REFUSED 9
1 open first \E 0     | TYPE_REFUSED 9
1 open other \E 0     | OBJECT_TYPE_MISMATCH
1 open directory \E 0 | OBJECT_TYPE_MISMATCH
1 path 0              | SUCCESS
all left | 7 1 1 0 0

# the last close closes and deletes it
1 make first \E 0     | SUCCESS
1 close 0             | SUCCESS
1 close 0             | INVALID_HANDLE
1 open any \E 0       | OBJECT_NAME_NOT_FOUND
all left | 6 0 1 1 1

# a new object whose open is refused is deleted, and its name goes
1 make first \E 0 l   | TYPE_REFUSED 5
1 open any \E 0       | OBJECT_NAME_NOT_FOUND
all left | 6 0 0 0 1

# an object that isn't made changes nothing
1 make other \E 0     | TYPE_REFUSED 7
1 open any \E 0       | OBJECT_NAME_NOT_FOUND
all left | 6 0 0 0 0

# an object without a name goes with its handle
1 make first - 0      | SUCCESS
1 make first \E 0     | SUCCESS
1 close 0             | SUCCESS
all left | 7 1 2 1 1";
