use std::test::Fail;
use ways::fault::WayFault;
use ways::list::ListWay;
use ways::stride::StrideWay;
use ways::way::Way;

// The number of the refusal, or none.
fn refusal<W: Drop>(made: Result<W, WayFault>) -> Option<u8> {
    made.err().map(|fault| fault.number())
}

#[test]
fn strides_by_the_rule(rt: HostRuntime) {
    let table = [
        ((1u16, 0u16, 1u16), None),
        ((2, 1, 1), None),
        ((2, 1, 2), Some(2u8)),
        ((6, 0, 5), None),
        ((6, 0, 4), Some(2)),
        ((6, 6, 1), Some(2)),
        ((6, 0, 0), Some(2)),
        ((6, 0, 7), Some(2)),
        ((1024, 1023, 1023), None),
        ((1025, 0, 1), Some(2)),
        ((0, 0, 0), Some(2)),
    ];
    for ((size, start, stride), expected) in table {
        assert!(rt; refusal(StrideWay::new(size, start, stride)) == expected);
    }
}

#[test]
fn stride_five_of_six(rt: HostRuntime) -> Result<(), Fail> {
    let way = StrideWay::new(6, 0, 5)?;
    assert!(rt; way.size() == 6);
    for (j, expected) in [0u16, 5, 4, 3, 2, 1].into_iter().enumerate() {
        assert!(rt; way.rotation(3, j) == expected);
        assert!(rt; way.rotation(2051, j + 6) == expected);
    }
    Ok(())
}

// The rotations of a level, in their order.
fn write_rotations<W: Way>(way: &W, level: usize, out: &mut [u16]) {
    for (j, x) in out.iter_mut().enumerate() {
        *x = way.rotation(level, j);
    }
}

fn list_refusal(rotations: &[u16]) -> Option<u8> {
    refusal(ListWay::new(rotations))
}

#[test]
fn starts_move_with_the_level(rt: HostRuntime) -> Result<(), Fail> {
    let way = StrideWay::new(1024, 1023, 5)?;
    assert!(rt; way.rotation(0, 0) == 0);
    assert!(rt; way.rotation(1, 0) == 1023);
    assert!(rt; way.rotation(2047, 1) == 6);
    let mut rotations = [0u16; 1024];
    write_rotations(&way, 2047, &mut rotations);
    assert!(rt; list_refusal(&rotations) == None);
    Ok(())
}

#[test]
fn lists_by_the_rule(rt: HostRuntime) -> Result<(), Fail> {
    let way = StrideWay::new(1024, 0, 1)?;
    let mut all = [0u16; 1025];
    write_rotations(&way, 0, &mut all);
    for (n, expected) in [
        (0usize, Some(2u8)),
        (1, None),
        (2, None),
        (1024, None),
        (1025, Some(2)),
    ] {
        assert!(rt; n <= 1025);
        assert!(rt; list_refusal(&all[0..n]) == expected);
    }
    all[1023] = 1022;
    assert!(rt; list_refusal(&all[0..1024]) == Some(3));
    assert!(rt; list_refusal(&[1, 0]) == None);
    assert!(rt; list_refusal(&[1, 1]) == Some(3));
    assert!(rt; list_refusal(&[0, 2]) == Some(3));
    Ok(())
}

// Whether the way of the rotations 2, 0 and 1 reads them at every level.
fn reads_two_zero_one<W: Way>(way: &W) -> bool {
    way.size() == 3 && way.rotation(0, 0) == 2 && way.rotation(2047, 4) == 0
}

#[test]
fn lists_are_the_same_at_every_level(rt: HostRuntime) {
    assert!(rt; reads_two_zero_one(&ListWay::over(&[2, 0, 1])));
    let other = ListWay::over(&[2, 0, 2]);
    assert!(rt; other.size() == 1);
    assert!(rt; other.rotation(5, 5) == 0);
}

#[test]
fn kept_lists_are_read_as_lent_ones(rt: HostRuntime) -> Result<(), Fail> {
    let kept = vec![in rt.alloc(); 2u16, 0, 1]?;
    assert!(rt; reads_two_zero_one(&ListWay::new(kept)?));
    Ok(())
}
