//! Expressions (6.5): precedence, association and the shape of each operator.
use crate::tests::answers::check;
use std::test::Fail;

#[test]
fn precedence_of_each_pair(rt: HostRuntime) -> Result<(), Fail> {
    let units = [
        // Each operator binds tighter than the one before it.
        (
            "int x = a || b && c | d ^ e & f == g < h << i + j * k ;",
            "(declare [int] (= x (|| a (&& b (| c (^ d (& e (== f (< g (<< h (+ i (* j k))))))))))))",
        ),
        // Each operator binds tighter than the one behind it.
        (
            "int x = a * b + c << d < e == f & g ^ h | i && j || k ;",
            "(declare [int] (= x (|| (&& (| (^ (& (== (< (<< (+ (* a b) c) d) e) f) g) h) i) j) k)))",
        ),
        (
            "int x = ( a || b ) && c ;",
            "(declare [int] (= x (&& (paren (|| a b)) c)))",
        ),
        (
            "int x = ( a + b ) * c ;",
            "(declare [int] (= x (* (paren (+ a b)) c)))",
        ),
    ];
    check(&rt, rt.alloc(), &units)
}

#[test]
fn association_to_the_left(rt: HostRuntime) -> Result<(), Fail> {
    let units = [
        (
            "int x = a * b / c % d ;",
            "(declare [int] (= x (% (/ (* a b) c) d)))",
        ),
        ("int x = a + b - c ;", "(declare [int] (= x (- (+ a b) c)))"),
        (
            "int x = a - ( b - c ) ;",
            "(declare [int] (= x (- a (paren (- b c)))))",
        ),
        (
            "int x = a << b >> c ;",
            "(declare [int] (= x (>> (<< a b) c)))",
        ),
        (
            "int x = a < b > c <= d >= e ;",
            "(declare [int] (= x (>= (<= (> (< a b) c) d) e)))",
        ),
        (
            "int x = a == b != c ;",
            "(declare [int] (= x (!= (== a b) c)))",
        ),
    ];
    check(&rt, rt.alloc(), &units)
}

#[test]
fn association_to_the_right(rt: HostRuntime) -> Result<(), Fail> {
    let units = [
        (
            "int x = a = b *= c /= d %= e += f ;",
            "(declare [int] (= x (= a (*= b (/= c (%= d (+= e f)))))))",
        ),
        (
            "int x = a -= b <<= c >>= d &= e ^= f |= g ;",
            "(declare [int] (= x (-= a (<<= b (>>= c (&= d (^= e (|= f g))))))))",
        ),
        (
            "int x = a ? b : c ? d : e ;",
            "(declare [int] (= x (? a b (? c d e))))",
        ),
        (
            "int x = ( a ? b : c ) ? d : e ;",
            "(declare [int] (= x (? (paren (? a b c)) d e)))",
        ),
        // A comma stands between the question mark and the colon.
        (
            "int x = a || b ? c , d : e ;",
            "(declare [int] (= x (? (|| a b) (, c d) e)))",
        ),
        (
            "int x = a = b ? c : d ;",
            "(declare [int] (= x (= a (? b c d))))",
        ),
    ];
    check(&rt, rt.alloc(), &units)
}

#[test]
fn unary_and_postfix(rt: HostRuntime) -> Result<(), Fail> {
    let units = [
        ("int x = - a ++ ;", "(declare [int] (= x (- (post++ a))))"),
        (
            "int x = ( - a ) ++ ;",
            "(declare [int] (= x (post++ (paren (- a)))))",
        ),
        (
            "int x = ! ~ + & * a -- ;",
            "(declare [int] (= x (! (~ (+ (& (* (post-- a))))))))",
        ),
        (
            "int x = ++ * -- a ;",
            "(declare [int] (= x (pre++ (* (pre-- a)))))",
        ),
        (
            "int x = a . b -> c [ 1 ] ( d ) ;",
            "(declare [int] (= x (call ([] (-> (. a b) c) 1) d)))",
        ),
        (
            "int x = a [ b , c ] [ d ] ;",
            "(declare [int] (= x ([] ([] a (, b c)) d)))",
        ),
    ];
    check(&rt, rt.alloc(), &units)
}

#[test]
fn types_in_parentheses(rt: HostRuntime) -> Result<(), Fail> {
    let units = [
        // A product, and no cast under sizeof.
        (
            "int x = sizeof ( int ) * p ;",
            "(declare [int] (= x (* (sizeof-type ([int] _)) p)))",
        ),
        (
            "int x = sizeof ( a ) * p ;",
            "(declare [int] (= x (* (sizeof (paren a)) p)))",
        ),
        (
            "int x = sizeof a + _Alignof ( long int ) ;",
            "(declare [int] (= x (+ (sizeof a) (_Alignof ([long int] _)))))",
        ),
        (
            "int x = - ( int ) a + b ;",
            "(declare [int] (= x (+ (- (cast ([int] _) a)) b)))",
        ),
        (
            "int x = ( int ) ( a + b ) ;",
            "(declare [int] (= x (cast ([int] _) (paren (+ a b)))))",
        ),
    ];
    check(&rt, rt.alloc(), &units)
}

#[test]
fn arguments(rt: HostRuntime) -> Result<(), Fail> {
    let units = [
        ("int x = f ( ) ;", "(declare [int] (= x (call f)))"),
        (
            "int x = f ( a , b = c ) ;",
            "(declare [int] (= x (call f a (= b c))))",
        ),
        (
            "int x = f ( ( a , b ) ) ;",
            "(declare [int] (= x (call f (paren (, a b)))))",
        ),
        (
            "void f ( void ) { a , b = c ; }",
            "(define [void] (function f ([void] _)) (evaluate (, a (= b c))))",
        ),
    ];
    check(&rt, rt.alloc(), &units)
}

#[test]
fn constants_and_literals(rt: HostRuntime) -> Result<(), Fail> {
    let units = [
        ("int x = 'a' + L'a' ;", "(declare [int] (= x (+ '97 L'97)))"),
        // Adjacent literals are one node.
        (
            "int x = \"a\" \"bc\" ;",
            "(declare [int] (= x <97><98 99>))",
        ),
        (
            "int x = L\"\" L\"\\x3e8\" ;",
            "(declare [int] (= x L<>L<1000>))",
        ),
    ];
    check(&rt, rt.alloc(), &units)
}
