//! The results where a set refuses an open, wherever a handle is opened: no handle and no object.

/// The set accepts two opens.
pub(super) const TWO: &str = r"# a child gets no handle whose open is refused, and is there
1 make first \E 2    | SUCCESS
1 make first \F 2    | SUCCESS
1 begin inherit      | SUCCESS
2 has                | 0
2 path 2             | INVALID_HANDLE
1 has                | 2
all left | 8 2 2 0 0

# a duplicate may be the last one
1 make first \E 2    | SUCCESS
1 duplicate 0 1 not  | SUCCESS
1 begin inherit      | SUCCESS
2 has                | 0
all left | 7 2 2 0 0

# one of two is accepted
1 make first \E 2    | SUCCESS
1 begin inherit      | SUCCESS
2 has                | 1
2 path 1             | SUCCESS
1 duplicate 0 2 not  | TYPE_REFUSED 6
1 open first \E 0    | TYPE_REFUSED 6
2 has                | 1
all left | 7 2 2 0 0

# what is made goes again, with its name
1 make first \E 0    | SUCCESS
1 open first \E 0    | SUCCESS
1 make other \F 0    | TYPE_REFUSED 6
1 open any \F 0      | OBJECT_NAME_NOT_FOUND
1 close 0            | SUCCESS
all left | 7 1 2 1 1

# no directory asks the set
1 make first \E 0    | SUCCESS
1 open first \E 0    | SUCCESS
1 make directory \D 0 | SUCCESS
all left | 8 3 2 0 0";

/// It accepts one.
pub(super) const ONE: &str = r"# what a parse made is deleted where its open is refused
1 make first \Device\D 0 x | SUCCESS
1 open any \Device\D\x 0 | waits 8 \x
parse run | waits 8 \x
parse resume | TYPE_REFUSED 6
1 has                      | 1
all left | 7 1 1 0 1

# so is the file of the whole device, and the device stays
1 make first \Device\D 0 x | SUCCESS
1 open any \Device\D 0 | waits 8
parse run | waits 8
parse resume | TYPE_REFUSED 6
1 path 0                   | SUCCESS
all left | 7 1 1 0 1";
