//! Runs over programs with arrays: the order in which elements are read and written, which accesses are in bounds, what
//! is computed there, names that arrays hide, and what is refused of them.

use crate::checks::{Line, are_refused, have_lines};
use crate::memory::BOXES;
use lra_commands::Status;

/// The index is computed before the call that gives the element its value.
const WAITED: &str =
    "long a[3]; long f(long k){ a[k]=7; return k; } int main(void){ long i=1; a[i]=f(i+1); i=a[i]; assert(i==1); }";

/// What an element gets is computed, and converted if it holds an `int`.
const CONVERTED: &str =
    "int main(void){ int a[4], i; for(i=0;i<4;i=i+1) a[i]=i*i; long s=a[0]+a[1]; a[2]=s; }";

/// An array hides a variable, which keeps its own value and name.
const HIDDEN: &str = "int main(void){ long x=1; { long x[2]; long x2=x[1]; x[x2]=0; } x=x+1; }";

/// 63 indexes within one another.
const NESTED: &str =
    "int main(void){ long a[2], x; x=a[a[a[a[a[a[a[a[a[a[a[a[a[a[a[a[a[a[a[a[a[a[a[a[a[a[a[a[\
    a[a[a[a[a[a[a[a[a[a[a[a[a[a[a[a[a[a[a[a[a[a[a[a[a[a[a[a[a[a[a[a[a[a[a[0]]]]]]]]]]]]]]]]]\
    ]]]]]]]]]]]]]]]]]]]]]]]]]]]]]]]]]]]]]]]]]]]]]]; }";

/// An array that is filled, then read and written after the loop.
const FILLED: &str = "int main(void){ long a[10], i; for(i=0;i<10;i=i+1) a[i]=i; i=a[9]; a[i]=0; }";

/// Three accesses in a condition, of which one is the index of another.
const INNER: &str = "int a[3]; int main(void){ int i=input(); if(i>=0 && i<3 && a[i]>a[a[0]]) ; }";

/// An access that is evaluated if the index is inside, and one that always is.
const EITHER: &str =
    "int main(void){ long a[4], i=input(); if(i<0 || i>=4 || a[i]>0) ; a[i]=a[3]; }";

/// A remainder as an index, and with a name.
const REMAINDER: &str =
    "int main(void){ long x=input(), a[8]; assume(x>=0); a[x%8]=1; x=x%8; a[x]=1; }";

/// Indexes of two variables.
const TWO: &str = "int main(void){ long a[4], i, j; assume(i>=0 && i<=j && j<=3); a[j-i]=a[i+j]; }";

/// Accesses in an argument, a `return`, the value of a `switch` and a case.
const PLACES: &str = "long a[2]; long f(long k){ return a[k]; } \
    int main(void){ long s=f(a[1]); switch(a[s]){ case 1: s=a[2]; } return a[0]; }";

/// An access to which no run comes.
const AFTER: &str = "int main(void){ long a[1]; while(1){} a[5]=0; }";

/// An index whose tests pass 64 bits.
const FAR: &str =
    "int main(void){ long a[2], i=input(); if(i==0) a[i-9223372036854775807-1+i]=0; }";

/// Three accesses, as JSON.
const WRITTEN: &str = "int main(void){ int a[2]; a[1]=a[0]; a[2]=1; }";

const POLYHEDRA: &str = "lra analyse";

const OCTAGONS: &str = "lra analyse --domain oct";

const AS_JSON: &str = "lra analyse --domain box --json";

/// Lines over boxes.
static OVER_BOXES: [Line; 14] = [
    (
        BOXES,
        WAITED,
        Status::Unknown,
        "point 3 main/f@1:79 1:28\n  row i = 1\n  row k = 2\n",
    ),
    (
        BOXES,
        WAITED,
        Status::Unknown,
        "assert 7 main 1:95 unknown\naccess 2 main 1:74 in bounds\n\
        access 3 main/f@1:79 1:28 in bounds\naccess 6 main 1:89 in bounds\n\
        verdicts proved 3 unknown 1\n",
    ),
    (
        "lra analyse --domain box --fits",
        CONVERTED,
        Status::Proved,
        "fit 5 main 1:42 fits\nfit 6 main 1:49 may overflow\n\
        fit 7 main 1:64 may overflow\nfit 8 main 1:77 may overflow\n\
        access 6 main 1:49 in bounds\naccess 7 main 1:66 in bounds\n\
        access 7 main 1:71 in bounds\naccess 8 main 1:77 in bounds\n\
        verdicts proved 4 unknown 0\n",
    ),
    (
        BOXES,
        HIDDEN,
        Status::Unknown,
        "point 3 main 1:45\n  row x = 1\n",
    ),
    (
        BOXES,
        HIDDEN,
        Status::Unknown,
        "point 4 main 1:54\n  row x = 1\n",
    ),
    (
        BOXES,
        HIDDEN,
        Status::Unknown,
        "point 7 main 1:72\n  row x = 2\n",
    ),
    (
        BOXES,
        HIDDEN,
        Status::Unknown,
        "access 3 main 1:48 in bounds\naccess 4 main 1:54 unknown\n\
        verdicts proved 1 unknown 1\n",
    ),
    (
        BOXES,
        NESTED,
        Status::Unknown,
        "verdicts proved 1 unknown 62\n",
    ),
    (
        BOXES,
        INNER,
        Status::Unknown,
        "access 2 main 1:60 in bounds\naccess 2 main 1:67 in bounds\n\
        access 2 main 1:65 unknown\nverdicts proved 2 unknown 1\n",
    ),
    (
        BOXES,
        EITHER,
        Status::Unknown,
        "access 3 main 1:57 in bounds\naccess 5 main 1:67 unknown\n\
        access 5 main 1:72 in bounds\nverdicts proved 2 unknown 1\n",
    ),
    (
        BOXES,
        PLACES,
        Status::Unknown,
        "access 1 main 1:68 in bounds\naccess 2 main/f@1:66 1:35 unknown\n\
        access 4 main 1:82 unknown\naccess 5 main 1:99 unknown\n\
        access 6 main 1:114 in bounds\nverdicts proved 2 unknown 3\n",
    ),
    (
        BOXES,
        AFTER,
        Status::Proved,
        "access 4 main 1:39 in bounds\nverdicts proved 1 unknown 0\n",
    ),
    (
        BOXES,
        FAR,
        Status::Unknown,
        "access 4 main 1:48 unknown\nverdicts proved 0 unknown 1\n",
    ),
    (
        BOXES,
        TWO,
        Status::Unknown,
        "access 5 main 1:64 unknown\naccess 5 main 1:71 unknown\n",
    ),
];

/// Lines over other domains, of a certificate, and as JSON.
static OVER_OTHERS: [Line; 6] = [
    (
        POLYHEDRA,
        FILLED,
        Status::Unknown,
        "access 6 main 1:52 in bounds\naccess 7 main 1:62 in bounds\n\
        access 8 main 1:68 unknown\nverdicts proved 2 unknown 1\n",
    ),
    (
        POLYHEDRA,
        REMAINDER,
        Status::Unknown,
        "access 4 main 1:53 unknown\naccess 6 main 1:70 in bounds\n\
        verdicts proved 1 unknown 1\n",
    ),
    (
        OCTAGONS,
        TWO,
        Status::Unknown,
        "access 5 main 1:64 in bounds\naccess 5 main 1:71 unknown\n",
    ),
    ("lra certify", FILLED, Status::Proved, "\npoint 9\n"),
    (
        AS_JSON,
        WRITTEN,
        Status::Unknown,
        "{\"accesses\":[{\"place\":\"1:27\",\"point\":2,\"verdict\":\"in bounds\"},\
        {\"place\":\"1:32\",\"point\":2,\"verdict\":\"in bounds\"},\
        {\"place\":\"1:38\",\"point\":3,\"verdict\":\"unknown\"}],\"analysis\":{",
    ),
    (
        AS_JSON,
        WRITTEN,
        Status::Unknown,
        "\"proved\":2,\"unknown\":1}\n",
    ),
];

/// Lengths, and names with or without an index.
static MISUSED: [(&str, &str); 11] = [
    (
        "int main(void){ long a[0]; }",
        "refused 15 BadLength at 1:24\n",
    ),
    (
        "long a[1048577]; int main(void){ }",
        "refused 15 BadLength at 1:8\n",
    ),
    (
        "int main(void){ long a[0], a; }",
        "refused 15 BadLength at 1:24\n",
    ),
    (
        "int main(void){ long a[3], a; }",
        "refused 8 DuplicateName at 1:28\n",
    ),
    (
        "long a[1048576]; int main(void){ a=1; }",
        "refused 16 NotArray at 1:34\n",
    ),
    (
        "long a; int main(void){ a[0]=1; }",
        "refused 16 NotArray at 1:25\n",
    ),
    (
        "int main(void){ long x; x=x[1]; }",
        "refused 16 NotArray at 1:27\n",
    ),
    (
        "void f(long x){} int main(void){ long a[2]; f(a); }",
        "refused 16 NotArray at 1:47\n",
    ),
    (
        "int main(void){ long a[1]; return a; }",
        "refused 16 NotArray at 1:35\n",
    ),
    (
        "int main(void){ b[0]=1; }",
        "refused 7 UnknownName at 1:17\n",
    ),
    (
        "void f(void){} int main(void){ f[0]=1; }",
        "refused 7 UnknownName at 1:32\n",
    ),
];

/// What is no array, and an index too deep.
static MISSHAPEN: [(&str, &str); 8] = [
    (
        "int main(void){ long a[3]; a[1]+=1; }",
        "refused 4 Syntax at 1:32\n",
    ),
    (
        "int main(void){ long a[3]=0; }",
        "refused 4 Syntax at 1:26\n",
    ),
    ("int main(void){ long a[n]; }", "refused 4 Syntax at 1:24\n"),
    (
        "int main(void){ long a[-1]; }",
        "refused 4 Syntax at 1:24\n",
    ),
    (
        "int main(void){ long a[2]; a[1]; }",
        "refused 4 Syntax at 1:32\n",
    ),
    (
        "long f(long a[2]){ return 0; } int main(void){ }",
        "refused 4 Syntax at 1:14\n",
    ),
    (
        "int main(void){ long a[08]; }",
        "refused 3 BadLiteral at 1:24\n",
    ),
    (
        "int main(void){ long a[2], x; x=a[a[a[a[a[a[a[a[a[a[a[a[a[a[a[a[a[a[a[a[a[a[a[a[a[a[a[a[\
        a[a[a[a[a[a[a[a[a[a[a[a[a[a[a[a[a[a[a[a[a[a[a[a[a[a[a[a[a[a[a[a[a[a[a[a[",
        "refused 5 TooDeep at 1:160\n",
    ),
];

#[test]
fn arrays(rt: HostRuntime) {
    have_lines(&rt, rt.alloc(), &OVER_BOXES);
    have_lines(&rt, rt.alloc(), &OVER_OTHERS);
    are_refused(&rt, rt.alloc(), &MISUSED);
    are_refused(&rt, rt.alloc(), &MISSHAPEN);
}
