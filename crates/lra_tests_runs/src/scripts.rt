//! Worked scripts.

use crate::memory::{SOUND, written};
use std::alloc::{AllocError, Global};
use std::process::Abort;

/// Scripts that are refused, and what is written.
static REFUSED: [(&str, &str); 10] = [
    (
        "dims 1\ncon P\ncon Q = 0 1\ncon R >= 1 2 3",
        "refused line 4 WrongDimension 3 2\n",
    ),
    (
        "dims 1\ncon P\ngen Q point 1 0\nshow Z",
        "refused line 4 UnknownName Z\n",
    ),
    ("dims 1\nmeet P P P", "refused line 2 UnknownName P\n"),
    // a coordinate that is none comes before a name that isn't known, and that before a wrong width
    ("dims 1\nforget Q P 2", "refused line 2 BadLine\n"),
    ("dims 1\nforget Q P 0", "refused line 2 BadLine\n"),
    ("dims 1\nforget Q P 1", "refused line 2 UnknownName P\n"),
    (
        "dims 1\ncon P\ninclude P Q",
        "refused line 3 UnknownName Q\n",
    ),
    ("dims 1\nmaximise P 1", "refused line 2 UnknownName P\n"),
    (
        "dims 1\ncon P\nmaximise P 1",
        "refused line 3 WrongDimension 1 2\n",
    ),
    (
        "dims 1\ncon P\nmaximise P 0 9223372036854775808",
        "refused line 3 BadLine\n",
    ),
];

/// Scripts, and what is written.
static SHOWN: [(&str, &str); 12] = [
    ("", "flagged 0\n"),
    (
        "dims 2\ncon P >= 0 1 0 ; >= 4 -1 -1\nholds P 2 3 5\nholds P 1 3 2\n\
            holds P 1 170141183460469231731687303715884105727 170141183460469231731687303715884105727\n",
        "holds P yes\nholds P no\nholds P wide\nflagged at line 5\n",
    ),
    (
        "dims 1\r\n#\n con  P \r\nholds P 1 170141183460469231731687303715884105727",
        "holds P yes\nflagged 0\n",
    ),
    (
        "dims 1\ncon P\ncon P = 1 0\nholds P 1 0",
        "holds P no\nflagged 0\n",
    ),
    (
        "dims 2\ngen P point 1 0 1\ngen Q point 1 0 0 ; line 1 0\nhull R P Q\nshow R\ninclude Q R\n\
            include R Q\nmaximise R 0 1 0\nmaximise R 0 0 1\n",
        "show R\n  row x2 >= 0\n  row x2 <= 1\n  gen point x1=0 x2=0\n  gen point x1=0 x2=1\n\
            \x20 gen line x1=1 x2=0\ninclude Q R yes\ninclude R Q no point x1=0 x2=1\n\
            maximise R unbounded line x1=1 x2=0\nmaximise R at 1 point x1=0 x2=1\nflagged 0\n",
    ),
    (
        "dims 2\ngen P point 1 0 0\ngen Q point 1 1 2\nelapse E P Q\nshow E\nforget U E 2\nshow U\n",
        "show E\n  row 2*x1 - x2 = 0\n  row x2 >= 0\n  gen point x1=0 x2=0\n  gen ray x1=1 x2=2\nshow U\n\
            \x20 row x1 >= 0\n  gen point x1=0 x2=0\n  gen ray x1=1 x2=0\n  gen line x1=0 x2=1\nflagged 0\n",
    ),
    (
        "dims 1\ncon P >= -1 0\nmaximise P 0 1\ncon Q\nmeet R P Q\ninclude R P\nelapse S Q P\nshow S\n",
        "maximise P empty\ninclude R P yes\nshow S\n  empty\nflagged 0\n",
    ),
    (
        "dims 1\ngen P point 1 170141183460469231731687303715884105727\ncon Q >= 1 2\nmaximise P 0 2\n\
            include P Q\n",
        "maximise P wide\ninclude P Q wide\nflagged at line 4\n",
    ),
    (
        "dims 1\ngen P point 2 3 ; point 2 -1\nmaximise P 0 1\nmaximise P 1 -2\n",
        "maximise P at 3/2 point x1=3/2\nmaximise P at 2 point x1=-1/2\nflagged 0\n",
    ),
    (
        "dims 2\ngen P point 1 0 0 ; point 1 2 0 ; point 1 0 2 ; point 2 1 1\nshow P\ncon Q >= -1 0 0\n\
            show Q\n",
        "show P\n  row x1 >= 0\n  row x1 + x2 <= 2\n  row x2 >= 0\n  gen point x1=0 x2=0\n\
            \x20 gen point x1=0 x2=2\n  gen point x1=2 x2=0\nshow Q\n  empty\nflagged 0\n",
    ),
    (
        "dims 2\n\
            con P = 0 1 0 ; = 0 0 1 ; >= 1 170141183460469231731687303715884105727 1 ; >= 1 1 \
            170141183460469231731687303715884105727\nshow P\n",
        "show P\n  row x1 = 0\n  row x2 = 0\n  gen point x1=0 x2=0\nflagged 0\n",
    ),
    (
        "dims 1\ngen P ray 0 ; point 2 3 ; line 0\nshow P\ncon Q\nshow Q\ngen R ray 1\nshow R\n",
        "show P\n  row 2*x1 = 3\n  gen point x1=3/2\nshow Q\n  row true\n  gen point x1=0\n  gen line x1=1\n\
            show R\n  empty\nflagged 0\n",
    ),
];

/// Scripts with images and preimages, and what is written.
static MAPPED: [(&str, &str); 8] = [
    (
        "dims 2\ngen P point 1 0 0\ngen Q point 1 1 2\nelapse E P Q\nshow E\nimage S E 1 1 1 0\n\
            preimage T S 1 1 1 0\ninclude T E\nforget U E 2\nshow U\n",
        "show E\n  row 2*x1 - x2 = 0\n  row x2 >= 0\n  gen point x1=0 x2=0\n  gen ray x1=1 x2=2\n\
            include T E yes\nshow U\n  row x1 >= 0\n  gen point x1=0 x2=0\n  gen ray x1=1 x2=0\n\
            \x20 gen line x1=0 x2=1\nflagged 0\n",
    ),
    (
        "dims 1\ngen P point 1 170141183460469231731687303715884105727\nimage Q P 1 0 2\nshow Q\n",
        "show Q\n  row true\n  gen point x1=0\n  gen line x1=1\nflagged at line 3\n",
    ),
    (
        "dims 1\ngen P point 1 170141183460469231731687303715884105727\nimage Q P 1 0 1\nshow Q\n",
        "show Q\n  row x1 = 170141183460469231731687303715884105727\n\
            \x20 gen point x1=170141183460469231731687303715884105727\nflagged 0\n",
    ),
    // an image that isn't the preimage, of a coordinate that is in its form, and a preimage that is empty
    (
        "dims 2\ngen P point 1 0 0 ; point 1 2 0\nimage Q P 2 1 3 0\nshow Q\nimage R Q 1 0 -1 1\nshow R\n",
        "show Q\n  row 3*x1 - x2 = -1\n  row x2 >= 1\n  row x2 <= 7\n  gen point x1=0 x2=1\n\
            \x20 gen point x1=2 x2=7\nshow R\n  row 3*x1 - 2*x2 = 1\n  row x2 >= 1\n  row x2 <= 7\n\
            \x20 gen point x1=1 x2=1\n  gen point x1=5 x2=7\nflagged 0\n",
    ),
    (
        "dims 2\ngen Q point 1 0 1 ; point 1 2 7\npreimage S Q 2 1 3 0\nshow S\npreimage T Q 1 0 0 1\nshow T\n",
        "show S\n  row x1 >= 0\n  row x1 <= 2\n  gen point x1=0 x2=0\n  gen point x1=2 x2=0\n\
            \x20 gen line x1=0 x2=1\nshow T\n  empty\nflagged 0\n",
    ),
    // a coordinate that is none, then a name that isn't known, then a wrong width
    ("dims 1\nimage Q P 2 0\n", "refused line 2 BadLine\n"),
    ("dims 1\npreimage Q P 1\n", "refused line 2 UnknownName P\n"),
    (
        "dims 1\ncon P\nimage Q P 1 0\n",
        "refused line 3 WrongDimension 1 2\n",
    ),
];

/// Scripts with widenings, and what is written.
static WIDENED: [(&str, &str); 12] = [
    (
        "dims 2\ncon P = 0 0 1 ; >= 0 1 0\ncon Q >= 0 1 0 ; >= 0 0 1 ; >= 1 0 -1\nwiden R P Q\nshow R\n",
        "show R\n  row x1 >= 0\n  row x2 >= 0\n  gen point x1=0 x2=0\n  gen ray x1=0 x2=1\n\
            \x20 gen ray x1=1 x2=0\nflagged 0\n",
    ),
    // a row that says on P what one of P's does, in other words, is tight
    (
        "dims 2\ncon P = 0 0 1 ; >= 0 1 0\ncon Q >= 0 1 1 ; >= 0 0 1 ; >= 1 0 -1\nwiden R P Q\nshow R\n",
        "show R\n  row x1 + x2 >= 0\n  row x2 >= 0\n  gen point x1=0 x2=0\n  gen ray x1=-1 x2=1\n\
            \x20 gen ray x1=1 x2=0\nflagged 0\n",
    ),
    // of the widening thresholds one is valid on both, one on P alone and one on none
    (
        "dims 2\ncon P = 0 0 1 ; >= 0 1 0\ncon Q >= 0 1 0 ; >= 0 0 1 ; >= 1 0 -1\n\
            limited R P Q >= 5 0 -1 ; >= 0 1 -1 ; >= 1 -1 0\nshow R\nlimited R P Q\nshow R\n",
        "show R\n  row x1 >= 0\n  row x2 >= 0\n  row x2 <= 5\n  gen point x1=0 x2=0\n  gen point x1=0 x2=5\n\
            \x20 gen ray x1=1 x2=0\nshow R\n  row x1 >= 0\n  row x2 >= 0\n  gen point x1=0 x2=0\n\
            \x20 gen ray x1=0 x2=1\n  gen ray x1=1 x2=0\nflagged 0\n",
    ),
    (
        "dims 1\ngen P\ngen Q point 1 3\nwiden R P Q\nshow R\n",
        "show R\n  row x1 = 3\n  gen point x1=3\nflagged 0\n",
    ),
    (
        "dims 1\ncon P\ngen Q point 1 0\nwiden R P Q\n",
        "refused line 4 NotIncluded line x1=1\n",
    ),
    (
        "dims 1\ngen P point 2 1\ngen Q point 1 0\nlimited R P Q >= 0 1\n",
        "refused line 4 NotIncluded point x1=1/2\n",
    ),
    // a product passes before it is known whether P is in Q
    (
        "dims 1\ngen P point 1 170141183460469231731687303715884105727\ncon Q >= 1 2\nwiden R P Q\nshow R\n",
        "show R\n  row true\n  gen point x1=0\n  gen line x1=1\nflagged at line 4\n",
    ),
    // a widening threshold with which one does is left out
    (
        "dims 1\ngen P point 1 170141183460469231731687303715884105727\nlimited R P P >= 1 2\nshow R\n",
        "show R\n  row x1 = 170141183460469231731687303715884105727\n\
            \x20 gen point x1=170141183460469231731687303715884105727\nflagged at line 3\n",
    ),
    // a name that isn't known comes before a wrong width, and that before a generator outside
    ("dims 1\nwiden R P Q\n", "refused line 2 UnknownName P\n"),
    (
        "dims 1\ncon P\nlimited R P Q >= 1\n",
        "refused line 3 UnknownName Q\n",
    ),
    (
        "dims 1\ncon P\ngen Q point 1 0\nlimited R P Q >= 0 1 ; = 1\n",
        "refused line 4 WrongDimension 1 2\n",
    ),
    (
        "dims 1\ncon P\nwiden R P P >= 0 1\n",
        "refused line 3 BadLine\n",
    ),
];

/// Whether this is written for the script.
fn is_written(alloc: Global, script: &str, expected: &str) -> Result<bool, AllocError> {
    let (_status, same) = written(alloc, "lra calc", script.as_bytes(), SOUND, expected)?;
    Ok(same)
}

/// Checks what is written for scripts.
fn are_written(rt: &impl Abort, alloc: Global, scripts: &[(&str, &str)]) {
    for (script, expected) in scripts {
        let same = is_written(alloc, script, expected);
        assert!(rt; same == Ok(true), "{script}");
    }
}

#[test]
fn scripts(rt: HostRuntime) {
    are_written(&rt, rt.alloc(), &REFUSED);
    are_written(&rt, rt.alloc(), &SHOWN);
    are_written(&rt, rt.alloc(), &MAPPED);
    are_written(&rt, rt.alloc(), &WIDENED);
}
