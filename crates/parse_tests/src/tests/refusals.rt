//! Where units are refused, and why.
use crate::tests::answers::check;
use std::test::Fail;

// The place is that of the first complaint of gcc 12, clang 14 or pycparser 3.0 too, but where a comment says why not.
#[test]
fn broken_units(rt: HostRuntime) -> Result<(), Fail> {
    let units = [
        ("", "Syntax 1:1"),
        ("int main(void){return 0}", "Syntax 1:24"),
        ("int main(void){", "Syntax 1:16"),
        ("int main(void)", "Syntax 1:15"),
        // gcc complains of the whole unit
        ("int", "Syntax 1:4"),
        ("int x", "Syntax 1:6"),
        ("int x;;", "Syntax 1:7"),
        ("x;", "Syntax 1:1"),
        // gcc warns alone; 6.7.2p2 wants a type
        ("static;", "Syntax 1:7"),
        ("const x;", "Syntax 1:7"),
        ("struct;", "Syntax 1:7"),
        // an extension of gcc and clang; 6.7.2.1 wants a member
        ("struct s{};", "Syntax 1:10"),
        ("struct s{int};", "Syntax 1:13"),
        // bit-fields are not in the profile
        ("struct s{int x:3;};", "Syntax 1:15"),
        ("enum{};", "Syntax 1:6"),
        ("enum{A,,B};", "Syntax 1:8"),
        ("enum{1};", "Syntax 1:6"),
        ("int a[;", "Syntax 1:7"),
        ("int a[2;", "Syntax 1:8"),
        ("int f(int;", "Syntax 1:10"),
        ("int f(,int);", "Syntax 1:7"),
        ("int f(int,);", "Syntax 1:11"),
        ("int f(...);", "Syntax 1:7"),
        ("int f(a);", "Syntax 1:7"),
        ("int *;", "Syntax 1:6"),
        ("int (x;", "Syntax 1:7"),
        ("int x=;", "Syntax 1:7"),
        // an extension of gcc and clang; 6.7.9 wants an item
        ("int x={};", "Syntax 1:8"),
        ("int x={1,,};", "Syntax 1:10"),
        ("int x={.=1};", "Syntax 1:9"),
        ("int x={[1]2};", "Syntax 1:11"),
        ("int x=1+;", "Syntax 1:9"),
        ("int x=(1;", "Syntax 1:9"),
        ("int x=a b;", "Syntax 1:9"),
        // gcc complains of f before, which is not declared
        ("int x=f(1,);", "Syntax 1:11"),
        ("int x=a.;", "Syntax 1:9"),
        ("int x=a->;", "Syntax 1:10"),
        ("int x=a?b;", "Syntax 1:10"),
        ("int x=sizeof;", "Syntax 1:13"),
        // an extension of gcc and clang; 6.5.3.4 wants the name of a type
        ("int x=_Alignof(a);", "Syntax 1:16"),
        ("int x=(int);", "Syntax 1:12"),
        // gcc and clang refuse it by its type; what is assigned to is a unary expression (6.5.16)
        ("int x=a+b=c;", "Syntax 1:10"),
        ("int main(void){if(1)}", "Syntax 1:21"),
        ("int main(void){if 1;}", "Syntax 1:19"),
        ("int main(void){else;}", "Syntax 1:16"),
        ("int main(void){while()1;}", "Syntax 1:22"),
        ("int main(void){do;while(1)}", "Syntax 1:27"),
        ("int main(void){for(;;);", "Syntax 1:24"),
        ("int main(void){for(;)1;}", "Syntax 1:21"),
        // the switch of the profile has a block
        ("int main(void){switch(1);}", "Syntax 1:25"),
        ("int main(void){case 1:;}", "Syntax 1:16"),
        ("int main(void){switch(1){case 1;}}", "Syntax 1:32"),
        ("int main(void){break}", "Syntax 1:21"),
        ("int main(void){return return;}", "Syntax 1:23"),
        ("int main(void){int x;}}", "Syntax 1:23"),
        ("int main(void){;};", "Syntax 1:18"),
        // labels are not in the profile
        ("int main(void){a:;}", "Syntax 1:17"),
        ("int x{return;}", "Syntax 1:6"),
        ("int f(void),g(void){}", "Syntax 1:20"),
        ("_Static_assert(1);", "Syntax 1:17"),
        ("_Static_assert(1,2);", "Syntax 1:18"),
        ("int T;T x;", "Syntax 1:7"),
        ("typedef int T;int main(void){int T;T x;}", "Syntax 1:38"),
    ];
    check(&rt, rt.alloc(), &units)
}
