//! Opens that wait for a parse: they go on when it is brought, in the state as it is then, or are given up. The object that they pin stays until then.

/// In each there is a device of the files `com1` and `a\b`, to which process 1 gets the handle 4, and a child without handles. The ticket of the
/// first open that waits is 8, after the six objects of a new namespace and the device.
pub(super) const WAITING: &str = r"# a file that the device has
1 make first \Device\Serial0 0 com1;a\b | SUCCESS
1 begin not | SUCCESS
1 open any \Device\Serial0\com1 0 | waits 8 \com1
parse run | waits 8 \com1
all waits 8 | 32
all counts | 7 1
parse resume | SUCCESS
1 holds 8 | true
all counts | 8 2

# a file two components deep
1 make first \Device\Serial0 0 com1;a\b | SUCCESS
1 begin not | SUCCESS
1 open any \Device\Serial0\a\b 0 | waits 8 \a\b
parse run | waits 8 \a\b
all waits 8 | 32
all counts | 7 1
parse resume | SUCCESS
1 holds 8 | true
all counts | 8 2

# the device itself
1 make first \Device\Serial0 0 com1;a\b | SUCCESS
1 begin not | SUCCESS
1 open any \Device\Serial0 0 | waits 8
parse run | waits 8
all waits 8 | 32
all counts | 7 1
parse resume | SUCCESS
1 holds 8 | true
all counts | 8 2

# a file that it hasn't
1 make first \Device\Serial0 0 com1;a\b | SUCCESS
1 begin not | SUCCESS
1 open any \Device\Serial0\com2 0 | waits 8 \com2
parse run | waits 8 \com2
all waits 8 | 32
all counts | 7 1
parse resume | TYPE_REFUSED 3
all counts | 7 1

# an empty component
1 make first \Device\Serial0 0 com1;a\b | SUCCESS
1 begin not | SUCCESS
1 open any \Device\Serial0\ 0 | waits 8 \
parse run | waits 8 \
all waits 8 | 32
all counts | 7 1
parse resume | TYPE_REFUSED 3
all counts | 7 1

# an open of another process
1 make first \Device\Serial0 0 com1;a\b | SUCCESS
1 begin not | SUCCESS
2 open any \Device\Serial0\com1 0 | waits 8 \com1
parse run | waits 8 \com1
all waits 8 | 32
all counts | 7 1
parse resume | SUCCESS
2 holds 4 | true
all counts | 8 2

# the device is pinned, though its last handle is closed and its name goes
1 make first \Device\Serial0 0 com1;a\b | SUCCESS
1 begin not | SUCCESS
2 open any \Device\Serial0\com1 0 | waits 8 \com1
parse run | waits 8 \com1
1 close 0 | SUCCESS
all waits 8 | 32
all counts | 7 0
parse resume | SUCCESS
2 holds 4 | true
all counts | 7 1

# the process that asked ends, and is judged when the parse is brought
1 make first \Device\Serial0 0 com1;a\b | SUCCESS
1 begin not | SUCCESS
2 open any \Device\Serial0\com1 0 | waits 8 \com1
parse run | waits 8 \com1
2 exit | SUCCESS
all waits 8 | 32
all counts | 7 1
parse resume | PROCESS_GONE
all counts | 7 1

# a stranger's parse is handed back
1 make first \Device\Serial0 0 com1;a\b | SUCCESS
1 begin not | SUCCESS
1 open any \Device\Serial0\com1 0 | waits 8 \com1
parse run | waits 8 \com1
there 1 make first \Device\Serial0 0 com1;a\b | SUCCESS
there 1 begin not | SUCCESS
there 1 open any \Device\Serial0\a\b 0 | waits 8 \a\b
there parse run | waits 8 \a\b
parse swap |
parse resume | stranger
parse drop | kept
all waits 8 | 32
all counts | 7 1
parse swap |
parse resume | SUCCESS
1 holds 8 | true
all counts | 8 2

# the parse of an open that was given up by another like it is a stranger's
1 make first \Device\Serial0 0 com1;a\b | SUCCESS
1 begin not | SUCCESS
1 open any \Device\Serial0\com1 0 | waits 8 \com1
parse run | waits 8 \com1
there 1 make first \Device\Serial0 0 com1;a\b | SUCCESS
there 1 begin not | SUCCESS
there 1 open any \Device\Serial0\com1 0 | waits 8 \com1
there parse run | waits 8 \com1
parse swap |
parse drop | given
all waits 8 | none
all counts | 7 1
parse swap |
parse resume | stranger
parse drop | kept
all counts | 7 1

# what an open pins stays until it is given up
1 make first \Device\Serial0 0 com1;a\b | SUCCESS
1 begin not | SUCCESS
1 open any \Device\Serial0\a\b 0 | waits 8 \a\b
1 close 0 | SUCCESS
all waits 8 | 32
all counts | 7 0
parse drop | given
all counts | 6 0";
