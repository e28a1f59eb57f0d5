//! Runs over programs with `switch`: what is known after its labels and after it, where its jumps go, and what is
//! refused of it.

use crate::checks::{Line, are_refused, have_lines};
use crate::memory::BOXES;
use lra_commands::Status;

/// A case that falls through, and a `default`.
const FALLEN: &str =
    "int main(void){ long x=input(), y=0; switch(x){ case 1: y=1; case 2: y=y+2; break; default: y=9; } assert(y>=2); }";

/// One without labels, one with one alone, and one whose `default` stands first.
const SMALL: &str =
    "int main(void){ long x; switch(x){} switch(x){ case 5: break; } switch(x){ default: x=1; case -1: ; } }";

/// `continue` from a `switch` in a loop.
const COUNTED: &str =
    "int main(void){ long i, s=0; for(i=0;i<10;i++){ switch(i%3){ case 0: continue; case 1: s++; break; \
    default: s=s+2; } s=s+1; } assert(s>=0); }";

/// A `switch` in a `switch` in a loop, of a value that each round draws again.
const NESTED: &str =
    "int main(void){ long x=input(), s=0; while(s<100){ switch(input()){ case 1: switch(x){ default: break; } s++; \
    break; case 0: break; default: return; } if(s>5) break; } assert(s<=100); }";

/// Half of what is looked for, over polyhedra.
const HALVED: &str =
    "int main(void){ long x=input(); assume(x>=0&&x<=9); switch(x/2){ case 3: assert(x>=6&&x<=7); } }";

/// Lines over boxes.
static OVER_BOXES: [Line; 6] = [
    (
        BOXES,
        FALLEN,
        Status::Proved,
        "point 5 main 1:70\n  row x >= 1\n  row x <= 2\n  row y >= 0\n  row y <= 1\n",
    ),
    (
        BOXES,
        FALLEN,
        Status::Proved,
        "point 8 main 1:100\n  row y >= 2\n  row y <= 9\n",
    ),
    (
        BOXES,
        SMALL,
        Status::Proved,
        "point 4 main 1:56\n  row x = 5\n",
    ),
    (
        BOXES,
        SMALL,
        Status::Proved,
        "point 7 main 1:99\n  row x >= -1\n  row x <= 1\npoint 8 main 1:103\n",
    ),
    (
        BOXES,
        COUNTED,
        Status::Proved,
        "point 13 main 1:127\n  row i = 10\n  row s >= 0\n",
    ),
    (
        BOXES,
        NESTED,
        Status::Proved,
        "assert 14 main 1:169 proved\n",
    ),
];

/// A quotient that is looked for has its rows.
static POLYHEDRA: [Line; 1] = [(
    "lra analyse",
    HALVED,
    Status::Proved,
    "verdicts proved 1 unknown 0\n",
)];

/// Labels that stand twice, names and jumps.
static MISUSED: [(&str, &str); 4] = [
    (
        "int main(void){ switch(1){ case 1: ; case - 1: ; case 0x1: ; } }",
        "refused 14 DuplicateCase at 1:55\n",
    ),
    (
        "int main(void){ switch(1){ default: ; break; case 2: default: ; } }",
        "refused 14 DuplicateCase at 1:54\n",
    ),
    (
        "int main(void){ switch(y){ case 1: ; case 1: ; } }",
        "refused 7 UnknownName at 1:24\n",
    ),
    (
        "int main(void){ switch(1){ case 1: continue; } }",
        "refused 10 Misplaced at 1:36\n",
    ),
];

/// What is no `switch`.
static MISSHAPEN: [(&str, &str); 8] = [
    (
        "int main(void){ switch(1){ ; } }",
        "refused 4 Syntax at 1:28\n",
    ),
    (
        "int main(void){ switch(1){ case 1: } }",
        "refused 4 Syntax at 1:36\n",
    ),
    (
        "int main(void){ switch(1){ case 1: long z; } }",
        "refused 4 Syntax at 1:36\n",
    ),
    (
        "int main(void){ switch(1){ case 1+1: ; } }",
        "refused 4 Syntax at 1:34\n",
    ),
    (
        "int main(void){ switch(1) ; }",
        "refused 4 Syntax at 1:27\n",
    ),
    ("int main(void){ case 1: ; }", "refused 4 Syntax at 1:17\n"),
    (
        "int main(void){ switch(1){ case 9223372036854775808: ; } }",
        "refused 3 BadLiteral at 1:33\n",
    ),
    (
        "int main(void){ long x; x = x ? 1 : 2; }",
        "refused 2 BadByte at 1:31\n",
    ),
];

#[test]
fn switches(rt: HostRuntime) {
    have_lines(&rt, rt.alloc(), &OVER_BOXES);
    have_lines(&rt, rt.alloc(), &POLYHEDRA);
    are_refused(&rt, rt.alloc(), &MISUSED);
    are_refused(&rt, rt.alloc(), &MISSHAPEN);
}
