//! Sessions of calls to a pressing, and reports on lists, with what they are answered.

#![tactic(auto)]

#[cfg(test)]
mod tests {
    use batch::bench::Bench;
    use graph::rows::Row;
    use names::point::PointName;
    use replaying::replay;
    use reporting::report::report;
    use std::alloc::Global;
    use std::process::Abort;
    use std::test::Fail;
    use ways::stride::StrideWay;

    // Checks what each session is answered.
    fn sessions(rt: &impl Abort, heap: Global, table: &[(&str, &str)]) -> Result<(), Fail> {
        for (session, answers) in table {
            let out = replay(heap, session)?;
            assert_eq!(rt; out.as_str(), *answers);
        }
        Ok(())
    }

    #[test]
    fn the_worked_figures(rt: HostRuntime) -> Result<(), Fail> {
        sessions(
            &rt,
            rt.alloc(),
            &[
                (
                    "kind 1\nenter A 300\nmap 1 1\norder\nfit 1 0 1\nfit-list 0\nseal\n",
                    "entered\nmapped\nordered 2\nfitted 0 1\nfitted 0 1\nsealed 47\nstring 01000101020004000100010300040000000104000400000000050013012c0141000000000000000000000000000000\n",
                ),
                (
                    "kind 1\nenter N3 1\nenter N51 2\nenter N81 3\nenter N93 4\nenter N32 5\nenter N90 6\nmap 3 1\norder\nfit 6 1 1\nfit 6 1 1\nfit 6 1 1\nfit 6 1 1\nfit 6 1 1\nseal\n",
                    "entered\nentered\nentered\nentered\nentered\nentered\nmapped\nordered 5\nfitted 0 1\nfitted 1 1\nfitted 2 1\nfitted 5 3\nfitted 0 3\nsealed 165\nstring 01000101020004000600030300040000000104000c0005000000000001000000020500130005034e3332000000000000000000000000000500130003034e3831000000000000000000000000000500130006034e3930000000000000000000000000000500130001024e3300000000000000000000000000000500130002034e3531000000000000000000000000000500130004034e393300000000000000000000000000\n",
                ),
                (
                    "kind 1\nenter N3 1\nenter N51 2\nenter N81 3\nenter N93 4\nenter N32 5\nenter N90 6\nmap 3 1\norder\nfit 6 0 1\nfit 6 0 1\nfit 6 0 1\nfit 6 0 1\nfit-list 5 4 3 2 1 0\n",
                    "entered\nentered\nentered\nentered\nentered\nentered\nmapped\nordered 5\nfitted 0 1\nfitted 0 1\nfitted 0 1\nrefused 19 3\nrefused 19 3\n",
                ),
            ],
        )
    }

    #[test]
    fn cells(rt: HostRuntime) -> Result<(), Fail> {
        sessions(
            &rt,
            rt.alloc(),
            &[(
                "kind 2\nenter 12 366 300\nenter 12 367 1\nenter 0 1 1\nenter 70000 1 5\nenter 1 99999999999999999999 5\nenter 1 1\nenter 1 1 65536\nenter 12 366 1\nenter 999 1 65535\nenter 1 1 0\n\nmap 2 7\norder\nfit-list 2 0 1\nfit 3 1 2\nfit-list 1 2 0\nfit-list 1 2 0\nseal\n",
                "entered\nrefused 1\nrefused 1\nrefused 1\nrefused 1\nunread\nunread\nrefused 13\nentered\nentered\nmapped\nordered 4\nfitted 2 1\nfitted 1 1\nfitted 1 1\nfitted 1 1\nsealed 95\nstring 0100010202000400030002030004000000070400080002000100010001050013ffff0403e70001000000000000000000000000050013012c04000c016e00000000000000000000000005001300000400010001000000000000000000000000\n",
            )],
        )
    }

    #[test]
    fn first_lines(rt: HostRuntime) -> Result<(), Fail> {
        sessions(
            &rt,
            rt.alloc(),
            &[
                ("", "unread\n"),
                ("kind 3\nenter A 1\n", "unread\n"),
                ("kind 1 1\nenter A 1\n", "unread\n"),
                ("enter A 1\n", "unread\n"),
            ],
        )
    }

    #[test]
    fn what_is_no_step(rt: HostRuntime) -> Result<(), Fail> {
        sessions(
            &rt,
            rt.alloc(),
            &[
                (
                    "kind 1\nENTER A 1\nenter A\nenter A 65536\nfit 1 0\nfit-list x\nmap 1\norder 1\nlend 1\nenter A 1\n",
                    "unread\nunread\nunread\nunread\nunread\nunread\nunread\nunread\nentered\n",
                ),
                (
                    "kind 1\nenter ABCDEFGHIJKLMNOPQ 1\nfit 6 0 4\nfit 6 65536 1\nfit-list\nfit-list 0 0\nfit-list 0 65536\norder\n",
                    "refused 1\nrefused 2\nrefused 2\nrefused 2\nrefused 3\nrefused 3\nrefused 10\n",
                ),
            ],
        )
    }

    #[test]
    fn short_memory(rt: HostRuntime) -> Result<(), Fail> {
        sessions(
            &rt,
            rt.alloc(),
            &[(
                "kind 1\nlend 1023 12288 1024 2048 2048 2048 1024 26645\nenter A 1\nlend 99999 99999 99999 99999 99999 99999 99999 46\nenter A 1\nmap 1 1\norder\nfit 1 0 1\nfit 1 0 1\nseal\nreopen\nseal\n",
                "refused 11\nentered\nmapped\nordered 2\nfitted 0 1\nfitted 0 1\nrefused 20\nreopened\nrefused 10\n",
            )],
        )
    }

    // Checks how the report on each list ends.
    fn reports(rt: &impl Abort, heap: Global, table: &[(&str, &str)]) -> Result<(), Fail> {
        for (list, end) in table {
            let out = report(heap, list)?;
            assert!(rt; out.as_str().ends_with(*end));
        }
        Ok(())
    }

    #[test]
    fn lists(rt: HostRuntime) -> Result<(), Fail> {
        reports(
            &rt,
            rt.alloc(),
            &[
                (
                    "2 2 7\n12 366 300\n12 367 1\n70000 1 5\n1 1 0\n1 1\n",
                    "line 3: refused 1: a day cell has a pan from 1 to 999 and a day from 1 to 366\nline 4: refused 1: a day cell has a pan from 1 to 999 and a day from 1 to 366\nline 6: not read: a name and a setting from 0 to 65535 are wanted\nkind 2, 2 names, r 2, seed 7\npan 12 day 366, spelled 0 12 1 110, setting 300 triple 0 1 3\npan 1 day 1, spelled 0 1 0 1, setting 0 triple 0 0 3\nway of size 2, start 1, stride 1: level 1 tries 1 0\norder 3 0 1\nvalues 1 0 0 0\ntries 1 1 1\npan 12 day 366, spelled 0 12 1 110, slot 0\npan 1 day 1, spelled 0 1 0 1, slot 1\nstring of 73 bytes, the first 32: 0100010202000400020002030004000000070400080001000000000000050013\n",
                ),
                ("1 0 1\nA 1\n", "refused 16: r is not from 1 to 1,024\n"),
                (
                    "1 1 0\nA 1\n",
                    "refused 17: the seed is not from 1 to 2,147,483,646\n",
                ),
                (
                    "1 1 1\nA 1\nA 2\n",
                    "name 2: refused 13: a name with this spelling was entered before\n",
                ),
                (
                    "1 1 1\nA 1\nB 2\n",
                    "map: refused 18: two names have one triple: names 1 and 2\n",
                ),
                (
                    "1 2 11\nN1 1\nN2 2\nN3 3\nN4 4\nN5 5\n",
                    "level 2: refused 19: no rotation of the way fits\n",
                ),
                ("1 1 1\n", "refused 15: no name\n"),
            ],
        )
    }

    // A bench has places for the tries of its levels; levels without one are fitted too.
    #[test]
    fn levels_without_a_place_for_their_tries(rt: HostRuntime) -> Result<(), Fail> {
        let heap = rt.alloc();
        let name = PointName::new(b"A")?;
        let way = StrideWay::new(1, 0, 1)?;
        let mut bench = Bench::new(heap, name)?;
        bench.tries = Vec::new(heap);
        let sealed = bench.press(&[Row { name, setting: 300 }], 1, 1, &way);
        assert_eq!(rt; sealed.ok().map(|sealed| sealed.len), Some(47));
        Ok(())
    }
}
