//! Whole programs. The expected trees are those of another parser (pycparser 3.0), in whose trees no parentheses stand.
use crate::tests::answers::check_bare;
use std::test::Fail;

#[test]
fn programs(rt: HostRuntime) -> Result<(), Fail> {
    let units = [
        (
            "int main(void){return 0;}",
            "(define [int] (function main ([void] _)) (return 0))",
        ),
        (
            "int main(void){return 263;}",
            "(define [int] (function main ([void] _)) (return 263))",
        ),
        (
            "int main(void){int x=2147483647;return x+1;}",
            "(define [int] (function main ([void] _)) (declare [int] (= x 2147483647)) (return (+ x 1)))",
        ),
        (
            "int main(void){int a[3];a[3]=1;return 0;}",
            "(define [int] (function main ([void] _)) (declare [int] (array a 3)) (evaluate (= ([] a 3) 1)) (return 0))",
        ),
        (
            "int main(void){int a[3];int*p=&a[3];return p-a;}",
            "(define [int] (function main ([void] _)) (declare [int] (array a 3)) (declare [int] (= (pointer p) (& ([] a 3)))) (return (- p a)))",
        ),
        (
            "int main(void){int a[3];a[4]=1;return 0;}",
            "(define [int] (function main ([void] _)) (declare [int] (array a 3)) (evaluate (= ([] a 4) 1)) (return 0))",
        ),
        (
            "int main(void){int*p=0;return*p;}",
            "(define [int] (function main ([void] _)) (declare [int] (= (pointer p) 0)) (return (* p)))",
        ),
        (
            "struct s{int m;};int main(void){struct s*p=0;return p->m;}",
            "(declare [{struct s ([int] m)}]) (define [int] (function main ([void] _)) (declare [struct:s] (= (pointer p) 0)) (return (-> p m)))",
        ),
        (
            "int main(void){int*p;{int x=1;p=&x;}return*p;}",
            "(define [int] (function main ([void] _)) (declare [int] (pointer p)) (block (declare [int] (= x 1)) (evaluate (= p (& x)))) (return (* p)))",
        ),
        (
            "int main(void){int*p=malloc(4);free(p);return*p;}",
            "(define [int] (function main ([void] _)) (declare [int] (= (pointer p) (call malloc 4))) (evaluate (call free p)) (return (* p)))",
        ),
        (
            "int main(void){char*s=\"ab\";s[0]=1;return 0;}",
            "(define [int] (function main ([void] _)) (declare [char] (= (pointer s) <97 98>)) (evaluate (= ([] s 0) 1)) (return 0))",
        ),
        (
            "int main(void){const int x=1;*(int*)&x=2;return 0;}",
            "(define [int] (function main ([void] _)) (declare [const int] (= x 1)) (evaluate (= (* (cast ([int] (pointer _)) (& x))) 2)) (return 0))",
        ),
        (
            "struct s{const int m;};int main(void){struct s v={1};*(int*)&v.m=2;return 0;}",
            "(declare [{struct s ([const int] m)}]) (define [int] (function main ([void] _)) (declare [struct:s] (= v {1})) (evaluate (= (* (cast ([int] (pointer _)) (& (. v m)))) 2)) (return 0))",
        ),
        (
            "int f(int x){return x;}int main(void){return((int(*)(void))f)();}",
            "(define [int] (function f ([int] x)) (return x)) (define [int] (function main ([void] _)) (return (call (cast ([int] (function (pointer _) ([void] _))) f))))",
        ),
        (
            "void h(void){}int main(void){set_constraint_handler_s((constraint_handler_t)h);strcpy_s(0,1,\"a\");return 0;}",
            "(define [void] (function h ([void] _))) (define [int] (function main ([void] _)) (evaluate (call set_constraint_handler_s (cast ([constraint_handler_t] _) h))) (evaluate (call strcpy_s 0 1 <97>)) (return 0))",
        ),
        (
            "int main(void){char c[3]={'a','b','c'};return strlen(c);}",
            "(define [int] (function main ([void] _)) (declare [char] (= (array c 3) {'97 '98 '99})) (return (call strlen c)))",
        ),
        (
            "int main(void){return strlen(NULL);}",
            "(define [int] (function main ([void] _)) (return (call strlen NULL)))",
        ),
        (
            "int main(void){char c[3];return strlen(c);}",
            "(define [int] (function main ([void] _)) (declare [char] (array c 3)) (return (call strlen c)))",
        ),
        (
            "int main(void){char d[4]={1,1,1,1};const char s[5]={2,2,2,2,2};set_constraint_handler_s(ignore_handler_s);int r=memcpy_s(d,4,s,5);printf(\"%d %d%d%d%d\\n\",r,d[0],d[1],d[2],d[3]);return 0;}",
            "(define [int] (function main ([void] _)) (declare [char] (= (array d 4) {1 1 1 1})) (declare [const char] (= (array s 5) {2 2 2 2 2})) (evaluate (call set_constraint_handler_s ignore_handler_s)) (declare [int] (= r (call memcpy_s d 4 s 5))) (evaluate (call printf <37 100 32 37 100 37 100 37 100 37 100 10> r ([] d 0) ([] d 1) ([] d 2) ([] d 3))) (return 0))",
        ),
        (
            "int main(void){char d[4]={1,1,1,1};set_constraint_handler_s(ignore_handler_s);memcpy_s(d,8,\"ab\",9);return 0;}",
            "(define [int] (function main ([void] _)) (declare [char] (= (array d 4) {1 1 1 1})) (evaluate (call set_constraint_handler_s ignore_handler_s)) (evaluate (call memcpy_s d 8 <97 98> 9)) (return 0))",
        ),
        (
            "char d[8];int n;\nvoid h(const char*m,void*o,errno_t e){printf(\"in %d [%s]\\n\",n,d);n=n+1;\nif(n<3){strcpy_s(d,2,\"long\");}printf(\"out %d\\n\",n);}\nint main(void){set_constraint_handler_s(h);d[0]='x';strcpy_s(d,2,\"long\");return 0;}",
            "(declare [char] (array d 8)) (declare [int] n) (define [void] (function h ([const char] (pointer m)) ([void] (pointer o)) ([errno_t] e)) (evaluate (call printf <105 110 32 37 100 32 91 37 115 93 10> n d)) (evaluate (= n (+ n 1))) (if (< n 3) (block (evaluate (call strcpy_s d 2 <108 111 110 103>)))) (evaluate (call printf <111 117 116 32 37 100 10> n))) (define [int] (function main ([void] _)) (evaluate (call set_constraint_handler_s h)) (evaluate (= ([] d 0) '120)) (evaluate (call strcpy_s d 2 <108 111 110 103>)) (return 0))",
        ),
        (
            "void h(const char*m,void*o,errno_t e){set_constraint_handler_s(0);}int main(void){set_constraint_handler_s(h);strcpy_s(0,1,\"a\");strcpy_s(0,1,\"a\");return 0;}",
            "(define [void] (function h ([const char] (pointer m)) ([void] (pointer o)) ([errno_t] e)) (evaluate (call set_constraint_handler_s 0))) (define [int] (function main ([void] _)) (evaluate (call set_constraint_handler_s h)) (evaluate (call strcpy_s 0 1 <97>)) (evaluate (call strcpy_s 0 1 <97>)) (return 0))",
        ),
        (
            "int main(void){char a[]=\"a,,b\";char b[]=\"x;y\";rsize_t m=5,k=4;char*p;char*q;\nchar*t=strtok_s(a,&m,\",\",&p);printf(\"%s %d\\n\",t,(int)m);\nt=strtok_s(b,&k,\";\",&q);printf(\"%s %d\\n\",t,(int)k);\nt=strtok_s(0,&m,\",\",&p);printf(\"%s %d\\n\",t,(int)m);\nt=strtok_s(0,&k,\";\",&q);printf(\"%s %d\\n\",t,(int)k);\nt=strtok_s(0,&m,\",\",&p);printf(\"%d %d\\n\",t==0,(int)m);return 0;}",
            "(define [int] (function main ([void] _)) (declare [char] (= (array a) <97 44 44 98>)) (declare [char] (= (array b) <120 59 121>)) (declare [rsize_t] (= m 5) (= k 4)) (declare [char] (pointer p)) (declare [char] (pointer q)) (declare [char] (= (pointer t) (call strtok_s a (& m) <44> (& p)))) (evaluate (call printf <37 115 32 37 100 10> t (cast ([int] _) m))) (evaluate (= t (call strtok_s b (& k) <59> (& q)))) (evaluate (call printf <37 115 32 37 100 10> t (cast ([int] _) k))) (evaluate (= t (call strtok_s 0 (& m) <44> (& p)))) (evaluate (call printf <37 115 32 37 100 10> t (cast ([int] _) m))) (evaluate (= t (call strtok_s 0 (& k) <59> (& q)))) (evaluate (call printf <37 115 32 37 100 10> t (cast ([int] _) k))) (evaluate (= t (call strtok_s 0 (& m) <44> (& p)))) (evaluate (call printf <37 100 32 37 100 10> (== t 0) (cast ([int] _) m))) (return 0))",
        ),
        (
            "int main(void){char d[4];set_constraint_handler_s(ignore_handler_s);int r=strncpy_s(d,4,\"abcd\",3);printf(\"%d %s\\n\",r,d);r=strncpy_s(d,4,\"abcd\",4);printf(\"%d [%s]\\n\",r,d);return 0;}",
            "(define [int] (function main ([void] _)) (declare [char] (array d 4)) (evaluate (call set_constraint_handler_s ignore_handler_s)) (declare [int] (= r (call strncpy_s d 4 <97 98 99 100> 3))) (evaluate (call printf <37 100 32 37 115 10> r d)) (evaluate (= r (call strncpy_s d 4 <97 98 99 100> 4))) (evaluate (call printf <37 100 32 91 37 115 93 10> r d)) (return 0))",
        ),
        (
            "int main(void){putchar('x');while(1);}",
            "(define [int] (function main ([void] _)) (evaluate (call putchar '120)) (while 1 (evaluate)))",
        ),
        (
            "int main(void){int c;while((c=getchar())!=EOF)putchar(c);return 0;}",
            "(define [int] (function main ([void] _)) (declare [int] c) (while (!= (= c (call getchar)) EOF) (evaluate (call putchar c))) (return 0))",
        ),
        (
            "int main(void){putchar('x');return 0;}",
            "(define [int] (function main ([void] _)) (evaluate (call putchar '120)) (return 0))",
        ),
        (
            "int main(void){char s[5];int r=strerror_s(s,5,22);printf(\"%s %d %d\\n\",s,r!=0,(int)strerrorlen_s(22));return 0;}",
            "(define [int] (function main ([void] _)) (declare [char] (array s 5)) (declare [int] (= r (call strerror_s s 5 22))) (evaluate (call printf <37 115 32 37 100 32 37 100 10> s (!= r 0) (cast ([int] _) (call strerrorlen_s 22)))) (return 0))",
        ),
        (
            "int main(void){return(malloc(84)==0)+2*(malloc(1)==0);}",
            "(define [int] (function main ([void] _)) (return (+ (== (call malloc 84) 0) (* 2 (== (call malloc 1) 0)))))",
        ),
        (
            "int main(void){/**/return 0;}",
            "(define [int] (function main ([void] _)) (return 0))",
        ),
        (
            "typedef int a;int main(void){a*b;b=0;return 0;}",
            "(declare [typedef int] a) (define [int] (function main ([void] _)) (declare [a] (pointer b)) (evaluate (= b 0)) (return 0))",
        ),
        (
            "int a=1;int main(void){a*b;return 0;}",
            "(declare [int] (= a 1)) (define [int] (function main ([void] _)) (evaluate (* a b)) (return 0))",
        ),
        (
            "#define __STDC_WANT_LIB_EXT1__ 1\n#include <stdio.h>\n#include <string.h>\n#include <stdlib.h>\n/* sums the numbers of each line */\nstatic int number(const char *s)\n{\n    int v = 0;\n    while (*s >= '0' && *s <= '9') { v = v * 10 + (*s - '0'); s++; }\n    return v;\n}\nint main(void)\n{\n    char line[64];\n    rsize_t n = 0;\n    int c;\n    set_constraint_handler_s(ignore_handler_s);\n    while ((c = getchar()) != EOF) {\n        if (c != '\\n' && n < sizeof line - 1) { line[n++] = (char)c; continue; }\n        line[n] = '\\0';\n        rsize_t left = sizeof line;\n        char *next;\n        int sum = 0, count = 0;\n        char *word = strtok_s(line, &left, \" ,\", &next);\n        while (word != NULL) {\n            sum += number(word);\n            count++;\n            word = strtok_s(NULL, &left, \" ,\", &next);\n        }\n        printf(\"%3d numbers, sum %d\\n\", count, sum);\n        n = 0;\n    }\n    return EXIT_SUCCESS;\n}",
            "(define [static int] (function number ([const char] (pointer s))) (declare [int] (= v 0)) (while (&& (>= (* s) '48) (<= (* s) '57)) (block (evaluate (= v (+ (* v 10) (- (* s) '48)))) (evaluate (post++ s)))) (return v)) (define [int] (function main ([void] _)) (declare [char] (array line 64)) (declare [rsize_t] (= n 0)) (declare [int] c) (evaluate (call set_constraint_handler_s ignore_handler_s)) (while (!= (= c (call getchar)) EOF) (block (if (&& (!= c '10) (< n (- (sizeof line) 1))) (block (evaluate (= ([] line (post++ n)) (cast ([char] _) c))) (continue))) (evaluate (= ([] line n) '0)) (declare [rsize_t] (= left (sizeof line))) (declare [char] (pointer next)) (declare [int] (= sum 0) (= count 0)) (declare [char] (= (pointer word) (call strtok_s line (& left) <32 44> (& next)))) (while (!= word NULL) (block (evaluate (+= sum (call number word))) (evaluate (post++ count)) (evaluate (= word (call strtok_s NULL (& left) <32 44> (& next)))))) (evaluate (call printf <37 51 100 32 110 117 109 98 101 114 115 44 32 115 117 109 32 37 100 10> count sum)) (evaluate (= n 0)))) (return EXIT_SUCCESS))",
        ),
        (
            "int main(void){int*p=0;unsigned char*b=(unsigned char*)&p;b[0]=90;return*p;}",
            "(define [int] (function main ([void] _)) (declare [int] (= (pointer p) 0)) (declare [unsigned char] (= (pointer b) (cast ([unsigned char] (pointer _)) (& p)))) (evaluate (= ([] b 0) 90)) (return (* p)))",
        ),
        (
            "int f(void){}int main(void){return f();}",
            "(define [int] (function f ([void] _))) (define [int] (function main ([void] _)) (return (call f)))",
        ),
        (
            "int main(void){char a[4]=\"abc\";memcpy(a+1,a,2);return 0;}",
            "(define [int] (function main ([void] _)) (declare [char] (= (array a 4) <97 98 99>)) (evaluate (call memcpy (+ a 1) a 2)) (return 0))",
        ),
        (
            "int f(void){return f();}int main(void){return f();}",
            "(define [int] (function f ([void] _)) (return (call f))) (define [int] (function main ([void] _)) (return (call f)))",
        ),
        (
            "int main(void){wchar_t d[4];int r=wcscpy_s(d,4,L\"abc\");printf(\"%d %d\\n\",r,(int)wcsnlen_s(d,4));char c;int t=7;r=wctomb_s(&t,&c,1,L'A');printf(\"%d %d %c\\n\",r,t,c);r=wctomb_s(&t,&c,1,300);printf(\"%d %d\\n\",r,t);return 0;}",
            "(define [int] (function main ([void] _)) (declare [wchar_t] (array d 4)) (declare [int] (= r (call wcscpy_s d 4 L<97 98 99>))) (evaluate (call printf <37 100 32 37 100 10> r (cast ([int] _) (call wcsnlen_s d 4)))) (declare [char] c) (declare [int] (= t 7)) (evaluate (= r (call wctomb_s (& t) (& c) 1 L'65))) (evaluate (call printf <37 100 32 37 100 32 37 99 10> r t c)) (evaluate (= r (call wctomb_s (& t) (& c) 1 300))) (evaluate (call printf <37 100 32 37 100 10> r t)) (return 0))",
        ),
        (
            "int main(void){int*p=calloc(2,4);p=realloc(p,12);return p[0]+(p==0);}",
            "(define [int] (function main ([void] _)) (declare [int] (= (pointer p) (call calloc 2 4))) (evaluate (= p (call realloc p 12))) (return (+ ([] p 0) (== p 0))))",
        ),
        (
            "int main(void){set_constraint_handler_s(ignore_handler_s);strcpy_s(0,1,\"a\");return 0;}",
            "(define [int] (function main ([void] _)) (evaluate (call set_constraint_handler_s ignore_handler_s)) (evaluate (call strcpy_s 0 1 <97>)) (return 0))",
        ),
    ];
    check_bare(&rt, rt.alloc(), &units)
}
