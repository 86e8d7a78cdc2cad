// Tables at and past their bounds, and what each refused map tells.
use crate::tests::told::{Told, told_of};
use listed::table::ListedMap;
use look::switch::SwitchLook;
use std::alloc::{AllocError, Global};
use std::test::Fail;

const DARK: SwitchLook = SwitchLook { marks: 0 };

// What a map of dark looks tells.
fn told<'a>(
    looks: &'a [SwitchLook],
    starts: &'a [u8],
    firsts: &'a [u32],
    targets: &'a [u32],
) -> Told {
    told_of(&ListedMap::new(looks, starts, firsts, targets))
}

// The same for tables of so many zeros, but for the last first.
fn told_of_zeros(
    heap: Global,
    looks: usize,
    starts: usize,
    middle: usize,
    last: u32,
    targets: usize,
) -> Result<Told, AllocError> {
    let looks = vec![in heap; DARK; looks]?;
    let starts = vec![in heap; 0u8; starts]?;
    let mut firsts = vec![in heap; 0u32; middle]?;
    firsts.push(last)?;
    let targets = vec![in heap; 0u32; targets]?;
    Ok(told(&looks, &starts, &firsts, &targets))
}

#[test]
fn tables_at_their_bounds(rt: HostRuntime) -> Result<(), Fail> {
    let heap = rt.alloc();
    assert_eq!(rt; told_of_zeros(heap, 0, 0, 0, 0, 0)?, (0, None));
    assert_eq!(rt; told_of_zeros(heap, 1, 1, 1, 0, 0)?, (1, None));
    assert_eq!(rt; told_of_zeros(heap, 4096, 4096, 4096, 0, 0)?, (4096, None));
    assert_eq!(rt;
        told_of_zeros(heap, 4097, 4097, 4097, 0, 0)?,
        (0, Some((1, None)))
    );
    assert_eq!(rt;
        told_of_zeros(heap, 4096, 4096, 4096, 32768, 32768)?,
        (4096, None)
    );
    assert_eq!(rt;
        told_of_zeros(heap, 4096, 4096, 4096, 32769, 32769)?,
        (0, Some((3, Some(4096))))
    );
    assert_eq!(rt;
        told_of_zeros(heap, 1, 1, 1, 32769, 32769)?,
        (0, Some((3, Some(1))))
    );
    Ok(())
}

#[test]
fn tables_of_wrong_lengths(rt: HostRuntime) -> Result<(), Fail> {
    let heap = rt.alloc();
    assert_eq!(rt; told(&[], &[], &[], &[]), (0, Some((2, None))));
    assert_eq!(rt; told_of_zeros(heap, 0, 1, 0, 0, 0)?, (0, Some((2, None))));
    assert_eq!(rt; told_of_zeros(heap, 2, 1, 2, 0, 0)?, (0, Some((2, None))));
    assert_eq!(rt; told_of_zeros(heap, 2, 3, 2, 0, 0)?, (0, Some((2, None))));
    assert_eq!(rt; told_of_zeros(heap, 2, 2, 1, 0, 0)?, (0, Some((2, None))));
    assert_eq!(rt; told_of_zeros(heap, 2, 2, 3, 0, 0)?, (0, Some((2, None))));
    // the looks are counted first
    assert_eq!(rt;
        told_of_zeros(heap, 4097, 0, 0, 0, 0)?,
        (0, Some((1, None)))
    );
    Ok(())
}

#[test]
fn firsts_and_targets_at_fault(rt: HostRuntime) {
    let looks = [DARK; 3];
    let starts = [0; 3];
    assert_eq!(rt; told(&looks, &starts, &[0, 1, 1, 2], &[2, 0]), (3, None));
    assert_eq!(rt;
        told(&looks, &starts, &[1, 1, 1, 2], &[2, 0]),
        (0, Some((3, Some(0))))
    );
    assert_eq!(rt;
        told(&looks, &starts, &[0, 2, 1, 2], &[2, 0]),
        (0, Some((3, Some(2))))
    );
    assert_eq!(rt;
        told(&looks, &starts, &[0, 2, 1, 0], &[2, 0]),
        (0, Some((3, Some(2))))
    );
    assert_eq!(rt;
        told(&looks, &starts, &[0, 1, 1, 1], &[2, 0]),
        (0, Some((3, Some(3))))
    );
    assert_eq!(rt;
        told(&looks, &starts, &[0, 1, 1, 3], &[2, 0]),
        (0, Some((3, Some(3))))
    );
    assert_eq!(rt;
        told(&looks, &starts, &[0, 3, 3, 2], &[2, 0]),
        (0, Some((3, Some(3))))
    );
    assert_eq!(rt;
        told(&looks, &starts, &[0, 1, 1, 2], &[2, 3]),
        (0, Some((4, Some(1))))
    );
    assert_eq!(rt;
        told(&looks, &starts, &[0, 1, 1, 2], &[u32::MAX, 3]),
        (0, Some((4, Some(0))))
    );
    // the firsts are asked before the targets
    assert_eq!(rt;
        told(&looks, &starts, &[0, 1, 0, 2], &[9, 9]),
        (0, Some((3, Some(2))))
    );
}
