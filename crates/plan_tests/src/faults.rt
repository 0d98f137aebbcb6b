//! Plans that are refused, each with the line and the words of its first fault, by the rules of the language.
use crate::texts::all_hold;

/// Lines, words and their places.
const WORDS: &str = "\
1 bad word : ^
1 bad name : @@
3 bad word : |#x|^
4 bad name : @|#x||a$ count
1 bad name : a/b count from t
1 bad word : a
1 bad word : a Count from t
1 bad word : a count form t
1 bad word : a count from
1 bad word : a count from t u
1 bad word : a count from t whre
1 bad name : a count from t@@
1 bad name : a count from .t
1 bad name : a count from t/u
1 bad word : a sum from t.orc
1 bad word : a rows from t.orc
1 bad name : a rows x, y from t
1 bad name : a rows x,,y from t
1 bad name : a rows x, from t
1 bad name : a rows ,x from t
1 bad name : a sum x,y from t
1 bad word : a count from t where
1 bad word : a count from t where x
1 bad word : a count from t where x =
1 bad word : a count from t where x == 1
1 bad word : a count from t where x is
1 bad word : a count from t where x is nul
1 bad word : a count from t where x is not
1 bad word : a count from t where x is not nul
1 bad word : a count from t where x null
1 bad word : a count from t where x = 1 or y = 2
1 bad word : a count from t where x = 1 and
1 bad name : a count from t where x = 1 and $
1 bad word : a count from t after
1 bad word : a merge
1 unknown fragment : a merge from t";

/// Literals and quotes.
const LITERALS: &str = "\
1 bad literal : a count from t where x = 01
1 bad literal : a count from t where x = 00
1 bad literal : a count from t where x = -01
1 bad literal : a count from t where x = -
1 bad literal : a count from t where x = +1
1 bad literal : a count from t where x = 1.5
1 bad literal : a count from t where x = 1a
1 bad literal : a count from t where x = 0x1
1 bad literal : a count from t where x = True
1 bad literal : a count from t where x = null
1 bad literal : a count from t where x = 9223372036854775808
1 bad literal : a count from t where x = -9223372036854775809
1 bad literal : a count from t where x = 99999999999999999999999999999999999999999999
1 bad literal : a count from t where x < true
1 bad literal : a count from t where x >= false
1 bad literal : a count from t where x <= true q
1 bad literal : a count from t where x = 'a'b
1 bad literal : a count from t where x = 'a'and y = 1
1 bad literal : a count from t where x = 1'
1 bad literal : a count from t where x = a'b'
1 bad word : a count from t where x = '
1 bad word : a count from t where x = 'a
1 bad word : a count from t where x = 'a''
1 bad word : a count from t where x = 'a''b
1 bad word : a count from t where x = 'a|b'
1 bad name : 'a' count from t
1 bad word : a 'count' from t
1 bad name : a count from 't'
1 bad name : a count from t where 'x' = 1
1 bad word : a count from t where x '=' 1";

/// Earlier lines, shapes and the order of faults.
const EARLIER: &str = "\
2 bad name : a count from t|a count from t
2 bad name : a count from t|a zzz
1 unknown fragment : a merge a
1 unknown fragment : a count from t after a
2 unknown fragment : a count from t.orc|m merge a,z|z count from t.orc
2 unknown fragment : a count from t|m merge a,b q
2 bad word : a count from t|m merge a q
2 bad name : a count from t|m merge z,a$
2 bad name : a count from t|m merge a,
2 unknown fragment : a count from t|m merge a,z after y$
1 bad word : a coun from t|b$ count from t
1 bad literal : a sum x from t where x = 1a|b coun
3 shape differs : a count from t|b sum x from t|m merge a,b
3 shape differs : a sum x from t|b group x from t|m merge a,b
3 shape differs : a group x from t|b count from t|m merge a,b
3 shape differs : a rows x from t|b count from t|m merge a,b
3 shape differs : a rows x from t|b rows x,y from t|m merge a,b
3 shape differs : a rows x from t|b rows x,x from t|m merge a,b
4 shape differs : a count from t|b merge a|c sum x from t|m merge b,c
3 bad word : a count from t|b sum x from t|m merge a,b q
3 unknown fragment : a count from t|b sum x from t|m merge a,b after z
1 too many : x rows a,b,c,d,e,f,g,h,i,j,k,l,m,n,o,p,q from t
1 too many : x rows a,b,c,d,e,f,g,h,i,j,k,l,m,n,o,p from t where q ? 1
1 bad name : x rows a,b,c,d,e,f,g,h,i,j,k,l,m,n,o,p,q,$ from t
1 bad name : x rows a,b,c,d,e,f,g,h,i,j,k,l,m,n,o,p from t where $ ? 1";

#[test]
fn the_first_fault_is_answered(rt: HostRuntime) {
    assert!(rt; all_hold(rt.alloc(), WORDS));
    assert!(rt; all_hold(rt.alloc(), LITERALS));
    assert!(rt; all_hold(rt.alloc(), EARLIER));
}
