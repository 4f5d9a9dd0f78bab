//! Processes: what they inherit, duplicate and close, and how many they and their handles may be.

/// Processes share objects by their handles.
pub(super) const SHARED: &str =
    r"# an inherited handle keeps its object, and the exit of the child closes it
1 make first \E 2 | SUCCESS
1 begin inherit   | SUCCESS
1 close 0         | SUCCESS
2 path 1          | SUCCESS
2 exit            | SUCCESS
2 path 1          | PROCESS_GONE
all left | 6 0 2 2 1

# a child that inherits nothing has no handle, nor one that isn't marked
1 make first \E 2 | SUCCESS
1 open first \E 0 | SUCCESS
1 begin not       | SUCCESS
2 path 0          | INVALID_HANDLE
1 begin inherit   | SUCCESS
3 path 0          | SUCCESS
3 path 1          | INVALID_HANDLE
all left | 7 3 3 0 0

# what was inherited is inherited again
1 make first \E 2 | SUCCESS
1 begin inherit   | SUCCESS
2 begin inherit   | SUCCESS
1 exit            | SUCCESS
2 exit            | SUCCESS
3 path 2          | SUCCESS
3 close 2         | SUCCESS
all left | 6 0 3 3 1

# an exclusive object is its holder's alone, and free again after its exit
1 begin not          | SUCCESS
1 make first \E 30   | SUCCESS
1 open first \E 20   | SUCCESS
1 open first \E 0    | SUCCESS
1 open first \E 2    | INVALID_PARAMETER
2 open first \E 0    | ACCESS_DENIED
1 duplicate 1 2 not  | ACCESS_DENIED
1 duplicate 1 1 not  | SUCCESS
1 exit               | SUCCESS
2 open first \E 20   | SUCCESS
all left | 7 1 5 4 0

# exclusive is refused where the object isn't
1 make first \E 0    | SUCCESS
1 open first \E 20   | INVALID_PARAMETER
all left | 7 1 1 0 0

# a duplicate goes to a live process, and has its own mark
1 make first \E 2    | SUCCESS
1 begin not          | SUCCESS
1 duplicate 0 2 not  | SUCCESS
2 begin inherit      | SUCCESS
3 path 2             | INVALID_HANDLE
2 exit               | SUCCESS
1 duplicate 0 2 not  | PROCESS_GONE
1 duplicate 6 1 not  | INVALID_HANDLE
all left | 7 1 2 1 0

# a process that was never made, and one that ended, are gone
0 begin inherit   | PROCESS_GONE
2 exit            | PROCESS_GONE
1 exit            | SUCCESS
1 exit            | PROCESS_GONE
1 begin not       | PROCESS_GONE
all left | 6 0 0 0 0

# a handle leads to its object until it is closed, and no other process by it
1 make directory \D 0      | SUCCESS
1 make first \E 0          | SUCCESS
1 open directory \ 0       | SUCCESS
1 open any \DosDevices 100 | SUCCESS
1 leads 0                  | directory 7
1 leads 1                  | object 8
1 leads 2                  | directory 1
1 leads 3                  | link 3
2 leads 1                  | nothing
1 close 0                  | SUCCESS
1 leads 0                  | nothing
all left | 7 3 1 0 0

# a value that was given up is used again for another handle
1 make first \E 0 | SUCCESS
1 open first \E 0 | SUCCESS
1 close 0         | SUCCESS
1 close 1         | SUCCESS
1 make first \E 0 | SUCCESS
1 path 4          | SUCCESS
1 close 4         | SUCCESS
1 close 4         | INVALID_HANDLE
all left | 6 0 3 3 2

# a child of a process with 1,000 handles begins and ends
1 make first \E 2     | SUCCESS
1*999 open first \E 2 | SUCCESS
1 begin inherit       | SUCCESS
1 exit                | SUCCESS
1 has                 | 0
2 has                 | 1000
2 holds 4             | true
2 holds 6             | false
2 holds 4000          | true
2 holds 4004          | false
1 holds 4             | false
2 exit                | SUCCESS
all left | 6 0 2000 2000 1";

/// There are 1,024 processes of 65,535 handles at most.
pub(super) const FULL: &str = r"# a process that ends makes room for another
1*1023 begin inherit | SUCCESS
1 begin inherit      | INSUFFICIENT_RESOURCES
1024 exit            | SUCCESS
1 begin inherit      | SUCCESS
all left | 6 0 0 0 0

# a full table has room for a handle where one was closed, under its value
1*65535 open directory \ 0 | SUCCESS
1 has                      | 65535
2 has                      | 0
1 open directory \ 0       | INSUFFICIENT_RESOURCES
1 close 0                  | SUCCESS
1 holds 262140             | false
1 open directory \ 0       | SUCCESS
1 holds 262140             | true
all left | 6 65535 0 0 0";
