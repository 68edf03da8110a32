//! Examples of mapping, clash test and order, over tables that are written by hand.

#![tactic(auto)]

#[cfg(test)]
mod tests {
    use graph::build::map_names;
    use graph::clash::clash;
    use graph::rows::{Edge, Place, Row, Vertex};
    use hashing::sizes::Sizes;
    use names::point::PointName;
    use ordering::order::order;
    use orders::waiting::Waiting;
    use std::test::Fail;

    const GARBAGE_EDGE: Edge = Edge {
        h0: 9,
        h1: 65535,
        h2: 4,
        next1: 5,
        next2: 65535,
    };

    const GARBAGE_VERTEX: Vertex = Vertex {
        first: 5,
        degree: 9,
        value: 9,
        place: Place::Waits,
    };

    const GARBAGE_WAITING: Waiting = Waiting {
        degree: 9,
        vertex: 65535,
    };

    fn row(byte: u8) -> Result<Row<PointName>, Fail> {
        Ok(Row {
            name: PointName::new(&[byte])?,
            setting: 0,
        })
    }

    // Has the name of this one byte hash to (h0, h1, r + s2).
    fn hash_to(tables: &mut [u32; 12288], byte: u8, h0: u32, h1: u32, s2: u32) {
        tables[byte as usize] = h0;
        tables[4096 + byte as usize] = h1;
        tables[8192 + byte as usize] = s2;
    }

    #[test]
    fn worked(rt: HostRuntime) -> Result<(), Fail> {
        let rows = [row(65)?, row(66)?, row(67)?, row(68)?, row(69)?, row(70)?];
        let mut tables = [0; 12288];
        hash_to(&mut tables, 65, 2, 0, 2);
        hash_to(&mut tables, 66, 3, 0, 2);
        hash_to(&mut tables, 67, 0, 2, 0);
        hash_to(&mut tables, 68, 3, 1, 2);
        hash_to(&mut tables, 69, 5, 1, 0);
        hash_to(&mut tables, 70, 1, 1, 0);
        let mut edges = [GARBAGE_EDGE; 7];
        let mut vertices = [GARBAGE_VERTEX; 8];
        let sizes = Sizes::new(6, 3)?;
        map_names(&rows, 6, &tables, sizes, &mut edges, &mut vertices).ok_or("too short")?;
        assert_eq!(rt; clash(&edges, 6), Some(false));
        let mut room = [GARBAGE_WAITING; 6];
        let mut ordered = [99; 7];
        let k = order(&edges, 6, 3, &mut vertices, &mut room, &mut ordered);
        assert_eq!(rt; k, Some(5));
        assert_eq!(rt; ordered, [1, 3, 5, 0, 2, 99, 99]);
        assert_eq!(rt; edges[6].h1, 65535);
        assert_eq!(rt; vertices[6].first, 5);
        Ok(())
    }

    #[test]
    fn parallel_edges(rt: HostRuntime) -> Result<(), Fail> {
        let rows = [row(65)?, row(66)?, row(67)?];
        let mut tables = [0; 12288];
        hash_to(&mut tables, 65, 0, 1, 1);
        hash_to(&mut tables, 66, 1, 1, 1);
        hash_to(&mut tables, 67, 0, 1, 1);
        let mut edges = [GARBAGE_EDGE; 3];
        let mut vertices = [GARBAGE_VERTEX; 4];
        let sizes = Sizes::new(3, 2)?;
        map_names(&rows, 3, &tables, sizes, &mut edges, &mut vertices).ok_or("too short")?;
        assert_eq!(rt; vertices[1].degree, 3);
        assert_eq!(rt; clash(&edges, 2), Some(false));
        assert_eq!(rt; clash(&edges, 3), Some(true));
        let mut room = [GARBAGE_WAITING; 4];
        let mut ordered = [99; 4];
        let k = order(&edges, 3, 2, &mut vertices, &mut room, &mut ordered);
        assert_eq!(rt; k, Some(2));
        assert_eq!(rt; ordered, [1, 3, 99, 99]);
        Ok(())
    }

    #[test]
    fn garbage_stays_in_place(rt: HostRuntime) {
        let edges = [GARBAGE_EDGE; 7];
        let mut vertices = [GARBAGE_VERTEX; 8];
        let mut room = [GARBAGE_WAITING; 7];
        let mut ordered = [99; 7];
        assert!(rt; clash(&edges, 7).is_some());
        assert_eq!(rt; clash(&edges, 8), None);
        assert!(rt; order(&edges, 7, 3, &mut vertices, &mut room, &mut ordered).is_some());
        assert_eq!(rt; vertices[6].first, 5);
        assert_eq!(rt; room[6].vertex, 65535);
        assert_eq!(rt; ordered[6], 99);
        assert_eq!(rt;
            order(&edges, 7, 4, &mut vertices, &mut room, &mut ordered),
            None
        );
    }
}
