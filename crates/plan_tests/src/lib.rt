// Examples of loading, saving and joining plans.
#![tactic(auto)]

#[cfg(test)]
mod tests {
    use denial::Denial;
    use group::{Group, Join, Outcome};
    use kinds::{FrameTable, MissCountedTable};
    use plan::load::load;
    use plan::save::save;
    use plate::frame::Frame;
    use plate::same::same;
    use plate::writer::{write_frames, write_header, write_miss_counted};
    use std::test::Fail;

    // Task 0: gap 12, budget 4, no tolerated miss, rank 50. Task 1: gap 10, frames of 7 at rank 90 and 1 at rank 20.
    const MIXED: [u8; 15] = [
        0x10, 0x41, 0x00, 0xC0, 0x04, 0x00, 0x32, 0x00, 0xA2, 0x00, 0x75, 0xA0, 0x00, 0x11, 0x40,
    ];

    #[test]
    fn loads_a_group(rt: HostRuntime) -> Result<(), Fail> {
        let mut counted = MissCountedTable::new();
        let mut frames = FrameTable::new();
        load(&MIXED, &mut counted, &mut frames)?;
        let mut group = Join {
            first: counted,
            second: frames,
        };
        assert_eq!(rt; (group.count(), group.gap(0), group.gap(1)), (2, 12, 10));
        assert_eq!(rt; (group.present_class(0), group.present_class(1)), (1, 1));
        assert_eq!(rt; (group.demand(0, 2, 20), group.demand(1, 3, 10)), (8, 15));
        group.settle(0, Outcome::Miss);
        group.settle(1, Outcome::Finish);
        assert_eq!(rt; (group.present_class(0), group.present_class(1)), (1, 2));
        group.settle(1, Outcome::Miss);
        assert_eq!(rt; group.present_class(1), 1);
        Ok(())
    }

    #[test]
    fn refuses_and_keeps(rt: HostRuntime) -> Result<(), Fail> {
        let mut counted = MissCountedTable::new();
        let mut frames = FrameTable::new();
        let mut out = [9; 20];
        // The numbers themselves are what is tested, here and below.
        match save(&counted, &frames, &mut out) {
            Ok(_) => return Err(Fail::new("nothing to save")),
            Err(d) => assert_eq!(rt; (d.number(), d.first, d.second), (3, 255, 4)),
        }
        load(&MIXED, &mut counted, &mut frames)?;
        assert!(rt; load(&MIXED[0..14], &mut counted, &mut frames).is_err());
        assert_eq!(rt; (counted.len(), frames.len()), (1, 1));
        match save(&counted, &frames, &mut out[0..14]) {
            Ok(_) => return Err(Fail::new("14 bytes are too few")),
            Err(d) => assert_eq!(rt; (d.number(), d.first, d.second), (8, 15, 0)),
        }
        assert_eq!(rt; out[0], 9);
        assert_eq!(rt; save(&counted, &frames, &mut out), Ok(15));
        assert!(rt; same(&out[0..15], &MIXED));
        assert_eq!(rt; out[15], 9);
        Ok(())
    }

    // A plate of 16 rows of each kind, with eight classes each: 610 bytes. (The crate of plate's tests has the same: the two have no crate
    // of tests below them, and a library is no place for it.)
    fn largest(out: &mut [u8]) -> Result<usize, Denial> {
        let ranks = [1, 1, 2, 3, 5, 8, 13, 255];
        let frames = [Frame {
            budget: 4095,
            rank: 255,
        }; 8];
        let mut at = write_header(out, 16, 16)?;
        for _ in 0..16 {
            at = write_miss_counted(out, at, 4095, 4095, &ranks)?;
        }
        for _ in 0..16 {
            at = write_frames(out, at, 4095, &frames)?;
        }
        Ok(at)
    }

    #[test]
    fn loads_and_saves_the_largest(rt: HostRuntime) -> Result<(), Fail> {
        let mut plate = [0; 610];
        assert_eq!(rt; largest(&mut plate), Ok(610));
        let mut counted = MissCountedTable::new();
        let mut frames = FrameTable::new();
        load(&plate, &mut counted, &mut frames)?;
        assert_eq!(rt; (counted.len(), frames.len()), (16, 16));
        let mut out = [1; 612];
        assert_eq!(rt; save(&counted, &frames, &mut out), Ok(610));
        assert!(rt; same(&out[0..610], &plate));
        assert_eq!(rt; out[610], 1);
        Ok(())
    }
}
