//! Sources that are refused over any domain, by cause, each with the whole text that is written.

use crate::checks::are_refused;

/// Bytes and literals that are none.
static UNREADABLE: [(&str, &str); 5] = [
    ("int main(void){ $ }", "refused 2 BadByte at 1:17\n"),
    (
        "int main(void){ long x=9223372036854775808; }",
        "refused 3 BadLiteral at 1:24\n",
    ),
    (
        "int main(void){ long x=0x8000000000000000; }",
        "refused 3 BadLiteral at 1:24\n",
    ),
    (
        "int main(void){ long x=08; }",
        "refused 3 BadLiteral at 1:24\n",
    ),
    (
        "int main(void){ long x=1z; }",
        "refused 3 BadLiteral at 1:24\n",
    ),
];

/// Sources that end too early.
static UNFINISHED: [(&str, &str); 9] = [
    ("in", "refused 4 Syntax at 1:1\n"),
    ("int", "refused 4 Syntax at 1:4\n"),
    ("int main(vo", "refused 4 Syntax at 1:10\n"),
    (
        "int main(void){ long x; x = 3; assert(x >= 3); ",
        "refused 4 Syntax at 1:48\n",
    ),
    ("int main(void){ /*", "refused 4 Syntax at 1:17\n"),
    ("int main(void){;else", "refused 4 Syntax at 1:17\n"),
    (
        "int main(void){ assert(input()<input()<",
        "refused 4 Syntax at 1:39\n",
    ),
    (
        "int main(void){ for(long i=0;",
        "refused 4 Syntax at 1:30\n",
    ),
    ("int main(void){ for(;;;", "refused 4 Syntax at 1:23\n"),
];

/// Tokens that no rule takes.
static MISSHAPEN: [(&str, &str); 10] = [
    (
        "int main(void){ long x; x = (x<1)+1; }",
        "refused 4 Syntax at 1:31\n",
    ),
    (
        "int main(void){ if(1) long x; }",
        "refused 4 Syntax at 1:23\n",
    ),
    ("int main(void){ if() }", "refused 4 Syntax at 1:20\n"),
    ("int main(void){ while }", "refused 4 Syntax at 1:23\n"),
    ("int main(void){ while() }", "refused 4 Syntax at 1:23\n"),
    ("int main(void){ break }", "refused 4 Syntax at 1:23\n"),
    ("long g=1+1; int main(void){}", "refused 4 Syntax at 1:9\n"),
    (
        "void f(long){} int main(void){}",
        "refused 4 Syntax at 1:13\n",
    ),
    (
        "int f(void a){} int main(void){}",
        "refused 4 Syntax at 1:12\n",
    ),
    (
        "void f(void,long a){} int main(void){}",
        "refused 4 Syntax at 1:12\n",
    ),
];

/// Names that nothing declares before.
static UNKNOWN: [(&str, &str); 9] = [
    (
        "int main(void){ x = 1; }",
        "refused 7 UnknownName at 1:17\n",
    ),
    (
        "int main(void){ long x = y; }",
        "refused 7 UnknownName at 1:26\n",
    ),
    ("int main(void){ y++; }", "refused 7 UnknownName at 1:17\n"),
    (
        "int main(void){ assert(y); }",
        "refused 7 UnknownName at 1:24\n",
    ),
    ("int main(void){ f(); }", "refused 7 UnknownName at 1:17\n"),
    (
        "int main(void){ x = 1; break; }",
        "refused 7 UnknownName at 1:17\n",
    ),
    (
        "void f(void){ g=1; } long g; int main(void){}",
        "refused 7 UnknownName at 1:15\n",
    ),
    (
        "void g(void); int main(void){ g(); }",
        "refused 7 UnknownName at 1:31\n",
    ),
    (
        "int main(void){ f(); } void g(void){}",
        "refused 7 UnknownName at 1:17\n",
    ),
];

/// Names declared twice in one scope.
static DOUBLED: [(&str, &str); 8] = [
    (
        "int main(void){ long x; long x; }",
        "refused 8 DuplicateName at 1:30\n",
    ),
    (
        "int main(void){ long x, x; }",
        "refused 8 DuplicateName at 1:25\n",
    ),
    (
        "int main(void){} int main(void){}",
        "refused 8 DuplicateName at 1:22\n",
    ),
    (
        "void f(long x, long x){} int main(void){}",
        "refused 8 DuplicateName at 1:21\n",
    ),
    (
        "void f(void){} long f(void){} int main(void){}",
        "refused 8 DuplicateName at 1:21\n",
    ),
    (
        "long g; long g; int main(void){}",
        "refused 8 DuplicateName at 1:14\n",
    ),
    (
        "long f; void f(void){} int main(void){}",
        "refused 8 DuplicateName at 1:14\n",
    ),
    (
        "void f(long x){ long x; } int main(void){}",
        "refused 8 DuplicateName at 1:22\n",
    ),
];

/// Calls that fit no function, `break` and `continue` outside loops, and recursion.
static MISUSED: [(&str, &str); 16] = [
    ("int main(void){ main(1); }", "refused 9 BadCall at 1:17\n"),
    ("int main(void){ break; }", "refused 10 Misplaced at 1:17\n"),
    (
        "int main(void){ continue; }",
        "refused 10 Misplaced at 1:17\n",
    ),
    (
        "int main(void){ while(1) ; if(1) break; }",
        "refused 10 Misplaced at 1:34\n",
    ),
    (
        "int main(void){ break; x = 1; }",
        "refused 10 Misplaced at 1:17\n",
    ),
    (
        "int main(void){ main(); }",
        "refused 11 Recursive at 1:17\n",
    ),
    (
        "int main(void){ long x=main(); break; }",
        "refused 10 Misplaced at 1:32\n",
    ),
    (
        "int main(void){ long x=1; x=main(); return main(); }",
        "refused 11 Recursive at 1:29\n",
    ),
    (
        "int main(void){ long x=main(); }",
        "refused 11 Recursive at 1:24\n",
    ),
    (
        "int main(void){ long x; for(;;x=main()) ; }",
        "refused 11 Recursive at 1:33\n",
    ),
    (
        "int main(void){ long x; for(x=main();;) ; }",
        "refused 11 Recursive at 1:31\n",
    ),
    (
        "void f(void){} int main(void){ f(1); }",
        "refused 9 BadCall at 1:32\n",
    ),
    (
        "void f(void){} int main(void){ long x=f(); }",
        "refused 9 BadCall at 1:39\n",
    ),
    (
        "void f(void){ return 1; } int main(void){}",
        "refused 9 BadCall at 1:15\n",
    ),
    (
        "void f(void){ f(); } int main(void){}",
        "refused 11 Recursive at 1:15\n",
    ),
    (
        "void f(void){ g(); } void g(void){ f(); } int main(void){ f(); }",
        "refused 11 Recursive at 1:15\n",
    ),
];

/// Sources without a `main` of no parameters.
static NO_MAIN: [(&str, &str); 3] = [
    ("", "refused 6 NoMain at 1:1\n"),
    ("/* */", "refused 6 NoMain at 1:6\n"),
    ("void main(long x){}", "refused 6 NoMain at 1:20\n"),
];

#[test]
fn sources_are_refused(rt: HostRuntime) {
    are_refused(&rt, rt.alloc(), &UNREADABLE);
    are_refused(&rt, rt.alloc(), &UNFINISHED);
    are_refused(&rt, rt.alloc(), &MISSHAPEN);
    are_refused(&rt, rt.alloc(), &UNKNOWN);
    are_refused(&rt, rt.alloc(), &DOUBLED);
    are_refused(&rt, rt.alloc(), &MISUSED);
    are_refused(&rt, rt.alloc(), &NO_MAIN);
}
