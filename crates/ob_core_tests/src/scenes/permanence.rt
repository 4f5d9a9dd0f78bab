//! Objects that are made temporary and permanent.

/// They stay or go by their permanence.
pub(super) const PERMANENCE: &str =
    r"# a permanent object that is made temporary stays while it is open, and goes then
1 make first \E 10 | SUCCESS
1 temporary 0      | SUCCESS
1 open any \E 0    | SUCCESS
1 close 0          | SUCCESS
1 open any \E 0    | SUCCESS
1 close 2          | SUCCESS
1 close 4          | SUCCESS
1 open any \E 0    | OBJECT_NAME_NOT_FOUND
all left | 6 0 3 3 1

# a handle that was closed, and a process that never was, turn nothing
1 make first \E 10 | SUCCESS
2 temporary 0      | PROCESS_GONE
1 close 0          | SUCCESS
1 temporary 0      | INVALID_HANDLE
1 permanent 0      | INVALID_HANDLE
1 open any \E 0    | SUCCESS
all left | 7 1 2 1 0

# a temporary object that is made permanent stays without handles, and may be turned again
1 make first \E 0  | SUCCESS
1 permanent 0      | SUCCESS
1 permanent 0      | SUCCESS
1 close 0          | SUCCESS
1 open any \E 0    | SUCCESS
1 temporary 4      | SUCCESS
1 permanent 4      | SUCCESS
1 close 4          | SUCCESS
all left | 7 0 2 2 0

# an object without a name goes with its last handle, though it is made permanent
1 make first - 10  | SUCCESS
1 permanent 0      | SUCCESS
1 close 0          | SUCCESS
all left | 6 0 1 1 1

# a directory that is made temporary loses its name at once, and stays while it holds names
1 make directory \D 10 | SUCCESS
1 make first \D\E 10   | SUCCESS
1 temporary 0          | SUCCESS
1 open any \D\E 0      | SUCCESS
1 close 0              | SUCCESS
1 open any \D\E 0      | OBJECT_PATH_NOT_FOUND
1 make directory \D 0  | SUCCESS
all left | 9 3 2 0 0

# it goes with the last name in it
1 make directory \D 10 | SUCCESS
1 make first \D\E 10   | SUCCESS
1 temporary 0          | SUCCESS
1 close 0              | SUCCESS
1 temporary 1          | SUCCESS
1 close 1              | SUCCESS
all left | 6 0 1 1 1

# the root stays, whatever it is made
1 open any \ 0     | SUCCESS
1 temporary 0      | SUCCESS
1 permanent 0      | SUCCESS
1 close 0          | SUCCESS
1 open any \ 0     | SUCCESS
all left | 6 1 0 0 0";
