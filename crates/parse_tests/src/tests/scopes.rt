//! What a name is, by the scopes that it stands in (6.2.1).
use crate::tests::answers::check;
use std::test::Fail;

#[test]
fn a_typedef_name_in_a_parameter(rt: HostRuntime) -> Result<(), Fail> {
    let units = [
        // A function that takes a T.
        (
            "typedef int T ; int f ( int ( T ) ) ;",
            "(declare [typedef int] T) (declare [int] (function f ([int] (function _ ([T] _)))))",
        ),
        // A parameter T.
        (
            "int T ; int f ( int ( T ) ) ;",
            "(declare [int] T) (declare [int] (function f ([int] (paren T))))",
        ),
        // A parameter T.
        (
            "typedef int T ; int f ( int ( * T ) ) ;",
            "(declare [typedef int] T) (declare [int] (function f ([int] (paren (pointer T)))))",
        ),
        (
            "typedef int T ; int f ( int ( ( T ) ) , int T ) ;",
            "(declare [typedef int] T) (declare [int] (function f ([int] (paren (function _ ([T] _)))) ([int] T)))",
        ),
        // No parameter: T is declared.
        (
            "typedef int T ; int ( T ) ;",
            "(declare [typedef int] T) (declare [int] (paren T))",
        ),
    ];
    check(&rt, rt.alloc(), &units)
}

#[test]
fn parameters_in_their_list(rt: HostRuntime) -> Result<(), Fail> {
    let units = [
        // T is a parameter in the list, and a type again behind it.
        (
            "typedef int T ; int f ( T T , int a [ sizeof ( T ) ] ) ; T x ;",
            "(declare [typedef int] T) (declare [int] (function f ([T] T) ([int] (array a (sizeof (paren T)))))) (declare [T] x)",
        ),
        (
            "typedef int T ; int f ( int g ( int T ) , T x ) ;",
            "(declare [typedef int] T) (declare [int] (function f ([int] (function g ([int] T))) ([T] x)))",
        ),
    ];
    check(&rt, rt.alloc(), &units)
}

#[test]
fn a_cast_by_scope(rt: HostRuntime) -> Result<(), Fail> {
    let units = [
        // A cast, since T is a type.
        (
            "typedef int T ; int x = ( T ) - a ;",
            "(declare [typedef int] T) (declare [int] (= x (cast ([T] _) (- a))))",
        ),
        // A difference, since T is none.
        (
            "int T ; int x = ( T ) - a ;",
            "(declare [int] T) (declare [int] (= x (- (paren T) a)))",
        ),
    ];
    check(&rt, rt.alloc(), &units)
}

#[test]
fn a_product_or_a_declaration(rt: HostRuntime) -> Result<(), Fail> {
    let units = [
        // A declaration.
        (
            "typedef int a ; void f ( void ) { a * b ; }",
            "(declare [typedef int] a) (define [void] (function f ([void] _)) (declare [a] (pointer b)))",
        ),
        // A product.
        (
            "int a ; void f ( void ) { a * b ; }",
            "(declare [int] a) (define [void] (function f ([void] _)) (evaluate (* a b)))",
        ),
        // The innermost declaration decides.
        (
            "typedef int T ; void f ( void ) { { int T ; T * a ; } T * a ; }",
            "(declare [typedef int] T) (define [void] (function f ([void] _)) (block (declare [int] T) (evaluate (* T a))) (declare [T] (pointer a)))",
        ),
        (
            "typedef int T ; void f ( void ) { T ( a ) ; }",
            "(declare [typedef int] T) (define [void] (function f ([void] _)) (declare [T] (paren a)))",
        ),
        (
            "int T ; void f ( void ) { T ( a ) ; }",
            "(declare [int] T) (define [void] (function f ([void] _)) (evaluate (call T a)))",
        ),
        (
            "typedef int a;int main(void){int a;a*b;}",
            "(declare [typedef int] a) (define [int] (function main ([void] _)) (declare [int] a) (evaluate (* a b)))",
        ),
    ];
    check(&rt, rt.alloc(), &units)
}

#[test]
fn enumerators_in_expressions(rt: HostRuntime) -> Result<(), Fail> {
    let units = [
        (
            "int x = ( enum { A } ) 0 + A ;",
            "(declare [int] (= x (+ (cast ([{enum _ A}] _) 0) A)))",
        ),
        // An expression statement is no block.
        (
            "typedef int T ; void f ( void ) { sizeof ( enum { T } ) ; T * a ; }",
            "(declare [typedef int] T) (define [void] (function f ([void] _)) (evaluate (sizeof-type ([{enum _ T}] _))) (evaluate (* T a)))",
        ),
        // An if statement is one.
        (
            "typedef int T ; void f ( void ) { if ( sizeof ( enum { T } ) ) T * a ; T * a ; }",
            "(declare [typedef int] T) (define [void] (function f ([void] _)) (if (sizeof-type ([{enum _ T}] _)) (evaluate (* T a))) (declare [T] (pointer a)))",
        ),
    ];
    check(&rt, rt.alloc(), &units)
}
