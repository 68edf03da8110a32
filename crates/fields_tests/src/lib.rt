//! Tests of the writing of fields.

#![tactic(auto)]

#[cfg(test)]
mod tests {
    use fields::write::{write_header, write_record, write_value, write_values_head};
    use hashing::seed::Seed;
    use hashing::sizes::Sizes;
    use names::kind::Kind;
    use names::point::PointName;
    use std::test::Fail;

    const NAME_A: &[u8; 48] =
        b"\x01\x00\x01\x01\x02\x00\x04\x00\x01\x00\x01\x03\x00\x04\x00\x00\x00\x01\x04\x00\x04\x00\x00\x00\x00\x05\x00\x13\x01\x2C\x01\x41\x00\x00\x00\x00\x00\x00\x00\x00\x00\x00\x00\x00\x00\x00\x00\xFF";

    // The 47 bytes of the plate of the name A, written from behind; the byte after them stays.
    #[test]
    fn string_of_name_a(rt: HostRuntime) -> Result<(), Fail> {
        let sizes = Sizes::new(1, 1)?;
        let name = PointName::new(b"A")?;
        let mut memory = [0xFF; 48];
        assert_eq!(rt; write_record(&mut memory, sizes, 0, 300, &name), Ok(()));
        assert_eq!(rt; write_value(&mut memory, 1, 0), Ok(()));
        assert_eq!(rt; write_value(&mut memory, 0, 0), Ok(()));
        assert_eq!(rt; write_values_head(&mut memory, sizes), Ok(()));
        assert_eq!(rt;
            write_header(
                &mut memory,
                <PointName as names::kind::Kind>::number(),
                sizes,
                Seed::new(1)?
            ),
            Ok(())
        );
        assert_eq!(rt; memory, *NAME_A);
        Ok(())
    }
}
