//! Statements (6.8) and functions (6.9.1).
use crate::tests::answers::check;
use std::test::Fail;

#[test]
fn if_and_else(rt: HostRuntime) -> Result<(), Fail> {
    let units = [
        // An else belongs to the nearest if.
        (
            "void f ( void ) { if ( a ) if ( b ) ; else ; }",
            "(define [void] (function f ([void] _)) (if a (if b (evaluate) (evaluate))))",
        ),
        (
            "void f ( void ) { if ( a ) { if ( b ) ; } else ; }",
            "(define [void] (function f ([void] _)) (if a (block (if b (evaluate))) (evaluate)))",
        ),
        (
            "void f ( void ) { if ( a ) while ( b ) if ( c ) ; else ; else d ; }",
            "(define [void] (function f ([void] _)) (if a (while b (if c (evaluate) (evaluate))) (evaluate d)))",
        ),
        (
            "void f ( void ) { if ( a ) do if ( b ) ; while ( c ) ; else ; }",
            "(define [void] (function f ([void] _)) (if a (do (if b (evaluate)) c) (evaluate)))",
        ),
        (
            "int main(void){if(1)if(2);else;}",
            "(define [int] (function main ([void] _)) (if 1 (if 2 (evaluate) (evaluate))))",
        ),
    ];
    check(&rt, rt.alloc(), &units)
}

#[test]
fn switches(rt: HostRuntime) -> Result<(), Fail> {
    let units = [
        // Labels are items of their own.
        (
            "void f ( void ) { switch ( a ) { case 1 : case 2 + 3 : b ; break ; default : } }",
            "(define [void] (function f ([void] _)) (switch a (case 1) (case (+ 2 3)) (evaluate b) (break) (default)))",
        ),
        (
            "void f ( void ) { switch ( a ) { int b ; case 1 ? 2 : 3 : { continue ; } } }",
            "(define [void] (function f ([void] _)) (switch a (declare [int] b) (case (? 1 2 3)) (block (continue))))",
        ),
    ];
    check(&rt, rt.alloc(), &units)
}

#[test]
fn loops(rt: HostRuntime) -> Result<(), Fail> {
    let units = [
        (
            "void f ( void ) { while ( a ) b ; }",
            "(define [void] (function f ([void] _)) (while a (evaluate b)))",
        ),
        (
            "void f ( void ) { do { } while ( a , b ) ; }",
            "(define [void] (function f ([void] _)) (do (block) (, a b)))",
        ),
        (
            "void f ( void ) { for ( ; ; ) ; }",
            "(define [void] (function f ([void] _)) (for - - - (evaluate)))",
        ),
        (
            "void f ( void ) { for ( a ; b ; c ) continue ; return ; }",
            "(define [void] (function f ([void] _)) (for a b c (continue)) (return))",
        ),
        // The declaration of a for opens its scope.
        (
            "typedef int T ; void f ( void ) { for ( int T = 0 ; T ; T ++ ) T * a ; T * a ; }",
            "(declare [typedef int] T) (define [void] (function f ([void] _)) (for (declare [int] (= T 0)) T (post++ T) (evaluate (* T a))) (declare [T] (pointer a)))",
        ),
    ];
    check(&rt, rt.alloc(), &units)
}

#[test]
fn blocks(rt: HostRuntime) -> Result<(), Fail> {
    let units = [(
        "void f ( void ) { _Static_assert ( 1 , \"\" ) ; int a ; { ; } return a ; }",
        "(define [void] (function f ([void] _)) (assert 1 <>) (declare [int] a) (block (evaluate)) (return a))",
    )];
    check(&rt, rt.alloc(), &units)
}

#[test]
fn definitions(rt: HostRuntime) -> Result<(), Fail> {
    let units = [
        (
            "int main ( void ) { return 0 ; }",
            "(define [int] (function main ([void] _)) (return 0))",
        ),
        (
            "static inline void ( f ) ( void ) { }",
            "(define [static inline void] (function (paren f) ([void] _)))",
        ),
        (
            "int ( * f ( int a ) ) ( int b ) { return a ; }",
            "(define [int] (function (paren (pointer (function f ([int] a)))) ([int] b)) (return a))",
        ),
        // A parameter is in scope in the body.
        (
            "typedef int T ; int f ( int T ) { T * T ; } T x ;",
            "(declare [typedef int] T) (define [int] (function f ([int] T)) (evaluate (* T T))) (declare [T] x)",
        ),
        (
            "int f ( int f ) { return f ; } int g ( void ) { return f ( 1 ) ; }",
            "(define [int] (function f ([int] f)) (return f)) (define [int] (function g ([void] _)) (return (call f 1)))",
        ),
    ];
    check(&rt, rt.alloc(), &units)
}
