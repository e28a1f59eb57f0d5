//! Parts of sources one in another, up to the greatest depth and past it.

use crate::pieces::{Pieces, are_proved, are_refused};
use lra_tests_runs::memory::BOXES;

/// Sources that are too deep, or end at the greatest depth, and the whole text that is written.
static DEEP: [(Pieces, &str); 12] = [
    (
        ("int main(void){ long x; x = ", "(", 64, ""),
        "refused 5 TooDeep at 1:92\n",
    ),
    (
        ("int main(void){ long x; x = ", "+ ", 64, ""),
        "refused 5 TooDeep at 1:155\n",
    ),
    (
        ("int main(void){ long x; x = ", "- ", 64, ""),
        "refused 5 TooDeep at 1:155\n",
    ),
    (
        ("int main(void){ assert(", "(", 64, ""),
        "refused 5 TooDeep at 1:87\n",
    ),
    (
        ("int main(void){ assert(", "!", 64, ""),
        "refused 5 TooDeep at 1:87\n",
    ),
    (
        ("int main(void){", "{", 64, ""),
        "refused 5 TooDeep at 1:79\n",
    ),
    (
        ("int main(void){", "if(1)", 64, ";}"),
        "refused 5 TooDeep at 1:336\n",
    ),
    (
        ("int main(void){", "while(1)", 64, ";}"),
        "refused 5 TooDeep at 1:528\n",
    ),
    (
        ("int main(void){", "for(;;)", 64, ";}"),
        "refused 5 TooDeep at 1:464\n",
    ),
    (
        ("int main(void){ long x; x = ", "+ ", 63, ""),
        "refused 4 Syntax at 1:155\n",
    ),
    (
        ("int main(void){ assert(", "(", 63, ""),
        "refused 4 Syntax at 1:87\n",
    ),
    (
        (
            "int main(void){ long x; x = ",
            "(",
            64,
            "1))))))))))))))))))))))))))))))))))))))))))))))))))))))))))))))));}",
        ),
        "refused 5 TooDeep at 1:92\n",
    ),
];

/// Sources of the greatest depth, and lines of their reports. 60 alternations of && and ||, one inside the other, cost
/// no more than as many comparisons.
static NESTED: [(Pieces, &str); 7] = [
    (
        (
            "int main(void){",
            "{",
            63,
            ";}}}}}}}}}}}}}}}}}}}}}}}}}}}}}}}}}}}}}}}}}}}}}}}}}}}}}}}}}}}}}}}}",
        ),
        "point 1 main 1:79\n",
    ),
    (
        (
            "int main(void){ long x; x = ",
            "(",
            63,
            "1)))))))))))))))))))))))))))))))))))))))))))))))))))))))))))))));}",
        ),
        "point 3 main 1:157\n  row x = 1\n",
    ),
    (
        ("int main(void){ long x; x = ", "+ ", 63, "1;}"),
        "point 3 main 1:157\n  row x = 1\n",
    ),
    (
        ("int main(void){ long x; x = ", "- ", 63, "1;}"),
        "point 3 main 1:157\n  row x = -1\n",
    ),
    (
        (
            "int main(void){ assert(",
            "(",
            63,
            "1))))))))))))))))))))))))))))))))))))))))))))))))))))))))))))))));}",
        ),
        "assert 1 main 1:17 proved\n",
    ),
    (
        ("int main(void){ assert(", "!", 63, "0);}"),
        "assert 1 main 1:17 proved\n",
    ),
    (
        (
            "int main(void){ long x; assume(",
            "(0<x||(x<9&&",
            30,
            "0<x)))))))))))))))))))))))))))))))))))))))))))))))))))))))))))));}",
        ),
        "point 3 main 1:457\n  row x >= 1\n",
    ),
];

/// The words that leave narrowing out.
const UNNARROWED: &str = "lra analyse --domain box --narrow 0";

/// Loops of the greatest depth.
static LOOPS: [(Pieces, &str); 1] = [(
    ("int main(void){", "while(0)", 63, ";}"),
    "point 63 main 1:512\n",
)];

#[test]
fn deeper_sources_are_refused(rt: HostRuntime) {
    are_refused(&rt, rt.alloc(), &DEEP);
}

#[test]
fn deep_sources_are_analysed(rt: HostRuntime) {
    are_proved(&rt, rt.alloc(), BOXES, &NESTED);
    are_proved(&rt, rt.alloc(), UNNARROWED, &LOOPS);
}
