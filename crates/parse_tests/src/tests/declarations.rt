//! Declarations (6.7): specifiers, declarators and initializers.
use crate::tests::answers::check;
use std::test::Fail;

#[test]
fn specifiers(rt: HostRuntime) -> Result<(), Fail> {
    let units = [
        ("int ; int x , y ;", "(declare [int]) (declare [int] x y)"),
        (
            "static const unsigned long int x ; long volatile extern y ;",
            "(declare [static const unsigned long int] x) (declare [long volatile extern] y)",
        ),
        (
            "auto short a ; register signed char b ; _Bool c ;",
            "(declare [auto short] a) (declare [register signed char] b) (declare [_Bool] c)",
        ),
        (
            "int static typedef T ; T x ;",
            "(declare [int static typedef] T) (declare [T] x)",
        ),
    ];
    check(&rt, rt.alloc(), &units)
}

#[test]
fn one_type_alone(rt: HostRuntime) -> Result<(), Fail> {
    let units = [
        // A basic type word stands beside no typedef name: T is declared.
        (
            "typedef int T ; unsigned T ;",
            "(declare [typedef int] T) (declare [unsigned] T)",
        ),
        // Nothing is declared.
        (
            "typedef int T ; const T ;",
            "(declare [typedef int] T) (declare [const T])",
        ),
        (
            "typedef int T ; T T ;",
            "(declare [typedef int] T) (declare [T] T)",
        ),
        // Declared before each unit.
        ("size_t n ;", "(declare [size_t] n)"),
    ];
    check(&rt, rt.alloc(), &units)
}

#[test]
fn structures_and_unions(rt: HostRuntime) -> Result<(), Fail> {
    let units = [
        (
            "struct s ; struct s x ;",
            "(declare [struct:s]) (declare [struct:s] x)",
        ),
        (
            "struct s { int a , * b ; char c [ 2 ] ; } x ;",
            "(declare [{struct s ([int] a (pointer b)) ([char] (array c 2))}] x)",
        ),
        // A member's name hides no type.
        (
            "typedef int T ; union { int T ; T x ; } ;",
            "(declare [typedef int] T) (declare [{union _ ([int] T) ([T] x)}])",
        ),
        (
            "union u { struct { int ; } a ; } ;",
            "(declare [{union u ([{struct _ ([int])}] a)}])",
        ),
    ];
    check(&rt, rt.alloc(), &units)
}

#[test]
fn enumerations(rt: HostRuntime) -> Result<(), Fail> {
    let units = [
        (
            "enum e ; enum e x ;",
            "(declare [enum:e]) (declare [enum:e] x)",
        ),
        (
            "enum e { A , B = A , } ;",
            "(declare [{enum e A (= B A) ,}])",
        ),
        // The enumerator is in scope behind its value.
        (
            "typedef char T ; enum { T = sizeof ( T ) } ;",
            "(declare [typedef char] T) (declare [{enum _ (= T (sizeof-type ([T] _)))}])",
        ),
        // And there the name is no type.
        (
            "typedef int T ; enum { T , U = sizeof ( T ) } ;",
            "(declare [typedef int] T) (declare [{enum _ T (= U (sizeof (paren T)))}])",
        ),
        (
            "struct { enum { A } m ; } x = { A } ;",
            "(declare [{struct _ ([{enum _ A}] m)}] (= x {A}))",
        ),
    ];
    check(&rt, rt.alloc(), &units)
}

#[test]
fn pointers_arrays_functions(rt: HostRuntime) -> Result<(), Fail> {
    let units = [
        (
            "int * a [ 3 ] ; int ( * b ) [ 3 ] ;",
            "(declare [int] (pointer (array a 3))) (declare [int] (array (paren (pointer b)) 3))",
        ),
        (
            "int * const * volatile p ;",
            "(declare [int] (pointer const (pointer volatile p)))",
        ),
        (
            "int a [ ] [ 2 ] = { { 1 , 2 } , } ;",
            "(declare [int] (= (array (array a) 2) {{1 2} ,}))",
        ),
        (
            "int ( ( x ) ) , f ( ) , g ( void ) ;",
            "(declare [int] (paren (paren x)) (function f) (function g ([void] _)))",
        ),
        (
            "int f ( const char * , ... ) ;",
            "(declare [int] (function f ([const char] (pointer _)) ...))",
        ),
        (
            "char * ( * f ) ( int a , char * * restrict b ) ;",
            "(declare [char] (pointer (function (paren (pointer f)) ([int] a) ([char] (pointer (pointer restrict b))))))",
        ),
        // A pointer to a function that answers a pointer to an array.
        (
            "int (*(*f)(int a, int (*b)[3]))[5];",
            "(declare [int] (array (paren (pointer (function (paren (pointer f)) ([int] a) ([int] (array (paren (pointer b)) 3))))) 5))",
        ),
    ];
    check(&rt, rt.alloc(), &units)
}

#[test]
fn abstract_declarators(rt: HostRuntime) -> Result<(), Fail> {
    let units = [
        (
            "int x = sizeof ( int * ( * ) [ 3 ] ) ;",
            "(declare [int] (= x (sizeof-type ([int] (pointer (array (paren (pointer _)) 3))))))",
        ),
        // A function type, and no parentheses around nothing.
        (
            "int x = sizeof ( int ( ) ) ;",
            "(declare [int] (= x (sizeof-type ([int] (function _)))))",
        ),
        (
            "int x = ( int ( * ) ( void ) ) a ;",
            "(declare [int] (= x (cast ([int] (function (paren (pointer _)) ([void] _))) a)))",
        ),
        (
            "typedef int T ; int x = sizeof ( int ( T ) [ 2 ] ) ;",
            "(declare [typedef int] T) (declare [int] (= x (sizeof-type ([int] (array (function _ ([T] _)) 2)))))",
        ),
    ];
    check(&rt, rt.alloc(), &units)
}

#[test]
fn lists(rt: HostRuntime) -> Result<(), Fail> {
    let units = [
        (
            "int a [ 2 ] = { 1 , 2 } , b [ 1 ] = { ( 1 , 2 ) } ;",
            "(declare [int] (= (array a 2) {1 2}) (= (array b 1) {(paren (, 1 2))}))",
        ),
        (
            "struct s x = { . a = 1 , . b = { [ 2 ] = 3 , } } ;",
            "(declare [struct:s] (= x {(.a 1) (.b {([2] 3) ,})}))",
        ),
        // A name is in scope in its own initializer.
        (
            "typedef int T ; int T = sizeof ( T ) ;",
            "(declare [typedef int] T) (declare [int] (= T (sizeof (paren T))))",
        ),
        (
            "typedef int T ; int a [ sizeof ( T ) ] , T = 1 , b [ T ] ;",
            "(declare [typedef int] T) (declare [int] (array a (sizeof-type ([T] _))) (= T 1) (array b T))",
        ),
    ];
    check(&rt, rt.alloc(), &units)
}

#[test]
fn assertions(rt: HostRuntime) -> Result<(), Fail> {
    let units = [
        (
            "_Static_assert ( 1 , \"a\" \"b\" ) ;",
            "(assert 1 <97><98>)",
        ),
        (
            "_Static_assert ( sizeof ( enum { A } ) == 4 , L\"\" ) ; int x = A ;",
            "(assert (== (sizeof-type ([{enum _ A}] _)) 4) L<>) (declare [int] (= x A))",
        ),
    ];
    check(&rt, rt.alloc(), &units)
}
