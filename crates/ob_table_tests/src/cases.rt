//! Worked cases: scripts whose rows are a line, and after a bar its reply. An empty line ends a case, and each begins in the opening state.

/// The cases.
pub(crate) const CASES: &str = r#"# directories are made, opened and closed
p1 dir "\A" - =a | SUCCESS
p1 opendir "\A" - =b | SUCCESS
p1 opendir "\a" - =c | OBJECT_NAME_NOT_FOUND
p1 close b | SUCCESS
p1 close a | SUCCESS

# names are judged
p1 dir "\A" - =a | SUCCESS
p1 opendir "\" - =r | SUCCESS
p1 opendir "" - =x | OBJECT_PATH_SYNTAX_BAD
p1 opendir "A" - =x | OBJECT_PATH_SYNTAX_BAD
p1 opendir "\A\" - =x | OBJECT_NAME_INVALID
p1 opendir "\A\\B" - =x | OBJECT_NAME_INVALID
p1 opendir a:"" - =x | SUCCESS
p1 opendir a:"\B" - =x | OBJECT_PATH_SYNTAX_BAD

# a path or a name is missing
p1 dir "\No\X" - =x | OBJECT_PATH_NOT_FOUND
p1 opendir "\No" - =x | OBJECT_NAME_NOT_FOUND
p1 opendir "\No\" - =x | OBJECT_PATH_NOT_FOUND

# of several spellings the first is found
p1 make Event "\Foo" - "" =a | SUCCESS
p1 make Event "\foo" - "" =b | SUCCESS
p1 open Event "\FOO" C =c | SUCCESS
p1 name c | SUCCESS "\Foo"
p1 close c | SUCCESS
p1 close a | SUCCESS
p1 open Event "\FOO" C =c | SUCCESS
p1 name c | SUCCESS "\foo"
p1 make Event "\FOO" C "" =d | OBJECT_NAME_COLLISION

# 32 links are followed, and a link to itself isn't
p1 dir "\A" - =a | SUCCESS
p1 link "\L32" - "\A" =l32 | SUCCESS
p1 link "\L1" - "\L2" =l1 | SUCCESS
p1 link "\L2" - "\L3" =l2 | SUCCESS
p1 link "\L3" - "\L4" =l3 | SUCCESS
p1 link "\L4" - "\L5" =l4 | SUCCESS
p1 link "\L5" - "\L6" =l5 | SUCCESS
p1 link "\L6" - "\L7" =l6 | SUCCESS
p1 link "\L7" - "\L8" =l7 | SUCCESS
p1 link "\L8" - "\L9" =l8 | SUCCESS
p1 link "\L9" - "\L10" =l9 | SUCCESS
p1 link "\L10" - "\L11" =l10 | SUCCESS
p1 link "\L11" - "\L12" =l11 | SUCCESS
p1 link "\L12" - "\L13" =l12 | SUCCESS
p1 link "\L13" - "\L14" =l13 | SUCCESS
p1 link "\L14" - "\L15" =l14 | SUCCESS
p1 link "\L15" - "\L16" =l15 | SUCCESS
p1 link "\L16" - "\L17" =l16 | SUCCESS
p1 link "\L17" - "\L18" =l17 | SUCCESS
p1 link "\L18" - "\L19" =l18 | SUCCESS
p1 link "\L19" - "\L20" =l19 | SUCCESS
p1 link "\L20" - "\L21" =l20 | SUCCESS
p1 link "\L21" - "\L22" =l21 | SUCCESS
p1 link "\L22" - "\L23" =l22 | SUCCESS
p1 link "\L23" - "\L24" =l23 | SUCCESS
p1 link "\L24" - "\L25" =l24 | SUCCESS
p1 link "\L25" - "\L26" =l25 | SUCCESS
p1 link "\L26" - "\L27" =l26 | SUCCESS
p1 link "\L27" - "\L28" =l27 | SUCCESS
p1 link "\L28" - "\L29" =l28 | SUCCESS
p1 link "\L29" - "\L30" =l29 | SUCCESS
p1 link "\L30" - "\L31" =l30 | SUCCESS
p1 link "\L31" - "\L32" =l31 | SUCCESS
p1 opendir "\L1" - =x | SUCCESS
p1 link "\L0" - "\L1" =l0 | SUCCESS
p1 opendir "\L0" - =x | REPARSE_LIMIT
p1 link "\S" - "\S" =s | SUCCESS
p1 opendir "\S" - =x | REPARSE_LIMIT
p1 opendir "\S" L =x | OBJECT_TYPE_MISMATCH
p1 openlink "\S" - =x | SUCCESS
p1 target x | SUCCESS "\S"

# a target ends in a backslash, or is no absolute name
p1 dir "\A" - =a | SUCCESS
p1 dir "\A\B" - =b | SUCCESS
p1 link "\K" - "\A\" =k | SUCCESS
p1 link "\M" - "A" =m | SUCCESS
p1 opendir "\K\B" - =x | SUCCESS
p1 opendir "\K" - =x | OBJECT_NAME_INVALID
p1 opendir "\M\B" - =x | OBJECT_PATH_SYNTAX_BAD

# a file is opened through a link to its device, which takes some names alone
p1 make Device "\Device\D" - "x\\y\" =d | SUCCESS
p1 link "\DosDevices\C:" - "\Device\D" =l | SUCCESS
p1 open File "\DosDevices\C:\x\\y\" - =f | SUCCESS
p1 name f | SUCCESS ""
p1 open File "\DosDevices\C:\x" - =g | TYPE_REFUSED 3
p1 open File "\DosDevices\C:" - =g | SUCCESS
p1 open Device "\Device\D" - =h | OBJECT_TYPE_MISMATCH

# a key leads on to an object
p1 make Key "\K" - "S\L>\BaseNamedObjects\E" =k | SUCCESS
p1 make Event "\BaseNamedObjects\E" - "" =m | SUCCESS
p1 open Event "\K\S\L" - =e | SUCCESS
p1 name e | SUCCESS "\BaseNamedObjects\E"
p1 open Key "\K\S" - =s | SUCCESS
p1 open Event s:"L" - =t | SUCCESS
p1 open Key s:"X" - =u | TYPE_REFUSED 3

# a device map comes before the common names
p1 dir "\Sessions\1" - =s | SUCCESS
p1 map s | SUCCESS
p1 link "\GLOBAL??\C:" - "\Device" =g | SUCCESS
p1 link "\??\C:" - "\Sessions" =l | SUCCESS
p1 openlink "\??\C:" - =x | SUCCESS
p1 target x | SUCCESS "\Sessions"
p1 close x | SUCCESS
p1 close l | SUCCESS
p1 openlink "\??\C:" - =x | SUCCESS
p1 target x | SUCCESS "\Device"
p1 opendir "\??" - =y | SUCCESS
p1 name y | SUCCESS "\Sessions\1"

# an exclusive object is its holder's
p1 make Mutant "\M" E "" =m | SUCCESS
p1 new plain =q | SUCCESS
q open Mutant "\M" - =x | ACCESS_DENIED
p1 open Mutant "\M" IE =x | INVALID_PARAMETER
p1 open Mutant "\M" I =x | INVALID_PARAMETER
p1 open Mutant "\M" E =x | SUCCESS
p1 dup m q plain =w | ACCESS_DENIED
p1 make Event "\V" - "" =v | SUCCESS
p1 open Event "\V" E =x | INVALID_PARAMETER

# a directory loses its name with its last handle
p1 dir "\T" - =t | SUCCESS
p1 make Event "\T\E" - "" =e | SUCCESS
p1 close t | SUCCESS
p1 opendir "\T" - =x | OBJECT_NAME_NOT_FOUND
p1 name e | SUCCESS ""
p1 close e | SUCCESS

# a listing goes on where it stopped
p1 dir "\D" - =d | SUCCESS
p1 make Event "\D\a" - "" =a | SUCCESS
p1 make Event "\D\b" - "" =b | SUCCESS
p1 list d 10 first | MORE_ENTRIES "a" Event
p1 close a | SUCCESS
p1 make Event "\D\c" - "" =c | SUCCESS
p1 list d 3 next | BUFFER_TOO_SMALL
p1 list d 10 next | MORE_ENTRIES "b" Event
p1 list d 10 next | SUCCESS "c" Event
p1 list d 10 next | NO_MORE_ENTRIES
p1 list d 19 first | MORE_ENTRIES "b" Event
p1 list d 20 first | SUCCESS "b" Event "c" Event
p1 list d 20 first1 | SUCCESS "b" Event

# the low bits of a handle don't count
p1 make Event "\E" - "" =e | SUCCESS
p1 name e+3 | SUCCESS "\E"
p1 close e+1 | SUCCESS
p1 close e | INVALID_HANDLE

# OPENIF opens what is there
p1 dir "\A" O =a | SUCCESS
p1 dir "\A" O =b | OBJECT_NAME_EXISTS
p1 dir "\A" - =c | OBJECT_NAME_COLLISION
p1 make Event "\A" O "" =c | OBJECT_TYPE_MISMATCH
p1 dir "\??" - =c | OBJECT_NAME_COLLISION
p1 opendir "\" - =r | SUCCESS
p1 dir r:"??" - =c | OBJECT_NAME_INVALID

# a type refuses
p1 make Event "\E" - "1" =a | SUCCESS
p1 open Event "\E" - =b | TYPE_REFUSED 2
p1 make Event "\F" - "0" =c | TYPE_REFUSED 1
p1 make Event "\F" - "01" =c | TYPE_REFUSED 1
p1 make Event "\F" - "65536" =c | TYPE_REFUSED 1
p1 make File none - "" =c | TYPE_REFUSED 5"#;
