//! Examples of names, seeds, tables and triples, at the edges of their ranges.

#![tactic(auto)]

#[cfg(test)]
mod tests {
    use hashing::fault::HashFault;
    use hashing::seed::Seed;
    use hashing::sizes::Sizes;
    use hashing::tables::fill;
    use hashing::triples::{triple_at, triple_of};
    use names::cell::DayCell;
    use names::kind::Kind;
    use names::point::PointName;
    use std::test::Fail;
    use worklist::report::report;

    #[test]
    fn point_names_at_their_edges(rt: HostRuntime) -> Result<(), Fail> {
        let long: &[u8] = b"ABCDEFGHIJKLMNOPQ";
        for len in 0..18 {
            let bytes = &long[0..len.min(long.len())];
            assert_eq!(rt; PointName::judge(bytes), 1 <= len && len <= 16);
            assert_eq!(rt; PointName::new(bytes).is_ok(), 1 <= len && len <= 16);
        }
        for b in [32, 33, 126, 127] {
            assert_eq!(rt; PointName::judge(&[65, b]), 33 <= b && b <= 126);
        }
        let name = PointName::new(b"EVAP-B4")?;
        assert_eq!(rt; name.len(), 7);
        assert_eq!(rt; name.byte(0), 0);
        assert_eq!(rt; name.byte(1), 69);
        assert_eq!(rt; name.byte(7), 52);
        assert_eq!(rt; name.byte(8), 0);
        Ok(())
    }

    #[test]
    fn day_cells_at_their_edges(rt: HostRuntime) -> Result<(), Fail> {
        for pan in [0, 1, 999, 1000] {
            for day in [0, 1, 366, 367] {
                let lawful = 1 <= pan && pan <= 999 && 1 <= day && day <= 366;
                assert_eq!(rt; DayCell::new(pan, day).is_ok(), lawful);
                let bytes = [
                    (pan / 256) as u8,
                    (pan % 256) as u8,
                    (day / 256) as u8,
                    (day % 256) as u8,
                ];
                assert_eq!(rt; DayCell::judge(&bytes), lawful);
                assert_eq!(rt; DayCell::spelled(&bytes).is_some(), lawful);
            }
        }
        assert!(rt; !DayCell::judge(&[0, 12, 1]));
        assert!(rt; !DayCell::judge(&[0, 12, 1, 110, 0]));
        let cell = DayCell::spelled(&[0, 12, 1, 110]);
        assert_eq!(rt; cell.map(|cell| cell.pan_and_day()), Some((12, 366)));
        Ok(())
    }

    #[test]
    fn seeds_and_sizes_at_their_edges(rt: HostRuntime) -> Result<(), Fail> {
        for (seed, lawful) in [
            (0, false),
            (1, true),
            (2147483646, true),
            (2147483647, false),
        ] {
            assert_eq!(rt; Seed::new(seed).is_ok(), lawful);
        }
        assert_eq!(rt; Seed::new(1)?.next().value(), 16807);
        assert_eq!(rt; Seed::new(2147483646)?.next().value(), 2147466840);
        assert!(rt; Sizes::new(0, 1).is_err());
        assert!(rt; Sizes::new(1, 1).is_ok());
        assert!(rt; Sizes::new(1024, 1024).is_ok());
        assert!(rt; Sizes::new(1025, 1).is_err());
        assert!(rt; Sizes::new(1, 1025).is_err());
        Ok(())
    }

    #[test]
    fn short_tables_are_refused(rt: HostRuntime) -> Result<(), Fail> {
        let mut short = vec![in rt.alloc(); 7u32; 12287]?;
        assert_eq!(rt;
            fill(&mut short, Seed::new(1)?),
            Err(HashFault::ShortTables)
        );
        assert!(rt; short.iter().copied().max() == Some(7));
        let mut long = vec![in rt.alloc(); 7u32; 12289]?;
        assert!(rt; fill(&mut long, Seed::new(1)?).is_ok());
        assert_eq!(rt; long.get(0).copied(), Some(16807));
        assert_eq!(rt; long.get(12288).copied(), Some(7));
        Ok(())
    }

    #[test]
    fn a_name_and_its_bytes_have_one_triple(rt: HostRuntime) -> Result<(), Fail> {
        let mut tables = vec![in rt.alloc(); 0u32; 12288]?;
        assert!(rt; fill(&mut tables, Seed::new(1988)?).is_ok());
        let sizes = Sizes::new(26, 24)?;
        let name = PointName::new(b"SEA-INLET-N")?;
        assert_eq!(rt; triple_of(&tables, sizes, &name), Some((21, 0, 38)));
        assert_eq!(rt;
            triple_at(&tables, sizes, b"SEA-INLET-N"),
            Some((21, 0, 38))
        );
        assert_eq!(rt; triple_at(&tables, sizes, b""), None);
        assert_eq!(rt; triple_at(&tables, sizes, b"ABCDEFGHIJKLMNOPQ"), None);
        assert_eq!(rt; triple_of(&tables[0..12287], sizes, &name), None);
        Ok(())
    }

    #[test]
    fn cells_are_reported(rt: HostRuntime) -> Result<(), Fail> {
        let text = "2 2 7\n12 366 300\n12 367 1\n70000 1 5\n1 1 0\n1 1\n";
        let out = report(rt.alloc(), text)?;
        assert!(rt;
            out.as_str()
                .starts_with("line 3: refused 1: a day cell has")
        );
        assert!(rt;
            out.as_str()
                .contains("pan 12 day 366, spelled 0 12 1 110, setting 300 triple ")
        );
        assert!(rt; out.as_str().contains("line 6: not read"));
        assert!(rt;
            report(rt.alloc(), "1 0 1\nA 1\n")?
                .as_str()
                .contains("refused 16")
        );
        assert!(rt;
            report(rt.alloc(), "1 1 0\nA 1\n")?
                .as_str()
                .contains("refused 17")
        );
        assert!(rt;
            report(rt.alloc(), "1 1 1\nA 1\nA 2\n")?
                .as_str()
                .contains("names 1 and 2 clash")
        );
        Ok(())
    }
}
