//! Lists and vectors: made, filled again, and copied.
use crate::checks::evidence;
use bmp_linear::{Blocks, CoverEvidence, DegreeBlock, Entry, Vector, Vectors};
use std::test::Fail;

#[test]
fn vectors_are_filled_again(rt: HostRuntime) -> Result<(), Fail> {
    let alloc = rt.alloc();
    let mut vector = Vector::unit(alloc, 7)?;
    assert_eq!(rt; vector.entries(), [Entry { place: 7, value: 1 }].as_slice());
    for (numbers, want) in [
        ([0, 3, 0], [Entry { place: 1, value: 3 }].as_slice()),
        ([0, 0, 0], [].as_slice()),
        (
            [1, 0, 60],
            [
                Entry { place: 0, value: 1 },
                Entry {
                    place: 2,
                    value: 60,
                },
            ]
            .as_slice(),
        ),
    ] {
        vector.set_numbers(&numbers)?;
        let mut copy = Vector::unit(alloc, 0)?;
        copy.set_entries(vector.entries())?;
        assert_eq!(rt;
            [vector.entries(), copy.entries()],
            [want, want],
            "{numbers:?}"
        );
    }
    Ok(())
}

#[test]
fn lists_are_copied(rt: HostRuntime) -> Result<(), Fail> {
    let alloc = rt.alloc();
    let mut blocks = Blocks::new(alloc);
    blocks.push(DegreeBlock {
        kernel: evidence(alloc, [1, 1], 1)?,
        cover: CoverEvidence {
            covers: Vectors::new(alloc),
            sources: Vectors::new(alloc),
            duals: Vectors::new(alloc),
        },
    })?;
    let copy = blocks.copy()?;
    assert!(rt; copy.len() == 1);
    let kernel = &copy.at(0).kernel;
    assert_eq!(rt;
        [kernel.fits(1, 2), kernel.fits(1, 1), kernel.is_below(1)],
        [true, false, false]
    );
    Ok(())
}
