// Examples of the two kinds and their join, and what each of the two tables promises.
#![tactic(auto)]

mod tables;

#[cfg(test)]
mod tests {
    use denial::Denial;
    use group::{Group, Join, Outcome};
    use kinds::{FrameRow, FrameTable, MissCountedRow, MissCountedTable};
    use plate::frame::Frame;

    // Three tolerated misses; two of the four classes are ranked above 5.
    fn counted() -> MissCountedRow {
        MissCountedRow {
            gap: 9,
            budget: 1,
            misses: 3,
            ranks: [1, 2, 7, 8, 0, 0, 0, 0],
        }
    }

    // Budgets 5, 1 and 1, all ranked above 5.
    fn framed() -> FrameRow {
        let none = Frame { budget: 0, rank: 0 };
        let five = Frame { budget: 5, rank: 7 };
        let one = Frame { budget: 1, rank: 9 };
        FrameRow {
            gap: 8,
            count: 3,
            frames: [five, one, one, none, none, none, none, none],
        }
    }

    // A denial by its number and details; zeros where there is none. The number itself is what is tested, so a denial is turned
    // into its numbers.
    fn shown(res: Result<(), Denial>) -> (u16, u16, u16) {
        match res {
            Ok(()) => (0, 0, 0),
            Err(denial) => (denial.number(), denial.first, denial.second),
        }
    }

    #[test]
    fn demands(rt: HostRuntime) {
        let mut rows = MissCountedTable::new();
        let mut frames = FrameTable::new();
        assert_eq!(rt; shown(rows.add(counted())), (0, 0, 0));
        assert_eq!(rt; shown(frames.add(framed())), (0, 0, 0));
        for (i, most) in [1, 2, 2, 2, 3, 4, 4].iter().enumerate() {
            assert_eq!(rt; rows.demand(0, i as u16 + 1, 5), *most);
        }
        for (i, most) in [5, 6, 7, 12, 13].iter().enumerate() {
            assert_eq!(rt; frames.demand(0, i as u16 + 1, 5), *most);
        }
        assert_eq!(rt; rows.demand(1, 1, 5), 0);
    }

    #[test]
    fn sixteen_rows(rt: HostRuntime) {
        let mut rows = MissCountedTable::new();
        let mut frames = FrameTable::new();
        for _ in 0..16 {
            assert_eq!(rt; shown(rows.add(counted())), (0, 0, 0));
            assert_eq!(rt; shown(frames.add(framed())), (0, 0, 0));
        }
        assert_eq!(rt; shown(rows.add(counted())), (3, 255, 4));
        assert_eq!(rt; shown(frames.add(framed())), (3, 255, 10));
        assert_eq!(rt; rows.len(), 16);
        assert_eq!(rt; frames.len(), 16);
    }

    #[test]
    fn bad_rows(rt: HostRuntime) {
        let mut rows = MissCountedTable::new();
        let mut frames = FrameTable::new();
        let mut row = counted();
        row.misses = 4;
        assert_eq!(rt; shown(rows.add(row)), (6, 0, 64));
        row.misses = 8;
        assert_eq!(rt; shown(rows.add(row)), (6, 0, 32));
        let mut row = framed();
        row.gap = 4;
        assert_eq!(rt; shown(frames.add(row)), (5, 0, 16));
        row.count = 9;
        assert_eq!(rt; shown(frames.add(row)), (6, 0, 28));
        assert_eq!(rt; rows.count() + frames.count(), 0);
    }

    #[test]
    fn join_of_a_join(rt: HostRuntime) {
        let mut rows = MissCountedTable::new();
        let mut frames = FrameTable::new();
        let mut more = MissCountedTable::new();
        assert_eq!(rt; shown(rows.add(counted())), (0, 0, 0));
        assert_eq!(rt; shown(frames.add(framed())), (0, 0, 0));
        assert_eq!(rt; shown(more.add(counted())), (0, 0, 0));
        let mut all = Join {
            first: rows,
            second: Join {
                first: frames,
                second: more,
            },
        };
        assert_eq!(rt; all.count(), 3);
        assert_eq!(rt; all.gap(1), 8);
        assert_eq!(rt; all.class_count(2), 4);
        assert_eq!(rt; all.terms(1, 1).budget, 5);
        assert_eq!(rt; all.terms(3, 1).rank, 0);
        assert_eq!(rt; all.demand(1, 4, 5), 12);
        all.settle(1, Outcome::Miss);
        all.settle(2, Outcome::Miss);
        all.settle(2, Outcome::Miss);
        assert_eq!(rt; all.present_class(0), 1);
        assert_eq!(rt; all.present_class(1), 2);
        assert_eq!(rt; all.present_class(2), 3);
        all.settle(2, Outcome::Finish);
        assert_eq!(rt; all.present_class(2), 1);
    }
}
