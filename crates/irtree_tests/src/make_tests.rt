//! What makes print.
use crate::runs::ends_well_under_each;
use std::test::Fail;

// Words of a make, and what it prints; the sums were worked out by another program from the definitions.
static MAKES: [(&[&str], &[u8]); 6] = [
    (
        &["-", "make", "--from", "0", "--count", "1"],
        b"stored 1\nmade 1 places 1 queries 1 hits sum 2865000000000\n",
    ),
    (
        &["-", "make", "--from=7", "--count=3", "--batch=2"],
        b"stored 2\nstored 3\nmade 3 places 3 queries 9 hits sum 1842162097335000\n",
    ),
    (
        &["-", "make", "--from=7", "--count=3", "--batch=1"],
        b"stored 1\nstored 2\nstored 3\nmade 3 places 3 queries 9 hits sum 1842162097335000\n",
    ),
    (
        &["-", "make", "--from=7", "--count=3", "--batch=3"],
        b"stored 3\nmade 3 places 3 queries 9 hits sum 1842162097335000\n",
    ),
    (
        &[
            "-",
            "make",
            "--count=12",
            "--batch=5",
            "--from=18446744073709551615",
        ],
        b"stored 5\nstored 10\nstored 12\nmade 12 places 12 queries 120 hits sum 32249348081282500\n",
    ),
    // More places than are queried for, in batches of 1,000.
    (
        &["-", "make", "--from=7", "--count=5000"],
        b"stored 1000\nstored 2000\nstored 3000\nstored 4000\nstored 5000\nmade 5000 places 100 queries 1000 hits sum 12123419615187500\n",
    ),
];

#[test]
fn a_make_says_its_batches_and_what_is_found(rt: HostRuntime) -> Result<(), Fail> {
    for (row, (given, said)) in MAKES.iter().enumerate() {
        assert!(rt;
            ends_well_under_each(rt.alloc(), given, b"", said)?,
            "row {row}"
        );
    }
    Ok(())
}
