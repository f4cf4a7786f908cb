//! Generated programs, and the figures of their analysis.

use crate::outside::Outside;
use dec_domain::DecDomain;
use interproc_top::bench_text;
use std::process::Abort;
use std::test::Fail;

/// The number of a generated program, the same as a word, and the figures of its analysis. The rows grow with the groups:
/// one block of all 120 variables would take 28,800 of them at each closing.
const BENCHES: &[(u32, &str, &str)] = &[
    (
        1,
        "1",
        "variables 3\npoints 9\nrounds 2\nblocks 1\nlargest 3\nrows 176\n",
    ),
    (
        3,
        "03",
        "variables 9\npoints 19\nrounds 2\nblocks 3\nlargest 3\nrows 492\n",
    ),
    (
        40,
        "40",
        "variables 120\npoints 204\nrounds 2\nblocks 40\nlargest 3\nrows 6338\n",
    ),
];

#[test]
fn benches(rt: HostRuntime) -> Result<(), Fail> {
    for (_, word, figures) in BENCHES {
        let mut o = Outside::new(rt.alloc(), &["bench", *word], b"")?;
        o.expect(&rt, rt.alloc(), word, 0, figures, "");
    }
    Ok(())
}

#[test]
fn a_bench_counts_what_it_relaxes_itself(rt: HostRuntime) -> Result<(), Fail> {
    let mut dom = DecDomain::new();
    for (number, word, figures) in BENCHES {
        let number = *number;
        assert!(rt; 1 <= number && number <= 42);
        let text = bench_text(rt.alloc(), number, &mut dom)?;
        assert_eq!(rt; text.as_slice(), figures.as_bytes(), "{word}");
    }
    assert_eq!(rt; dom.rows(), 7006);
    Ok(())
}
