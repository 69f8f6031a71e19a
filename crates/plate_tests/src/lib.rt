// Examples of reading, writing and comparing plates.
#![tactic(auto)]

#[cfg(test)]
mod tests {
    use denial::Denial;
    use plate::accept::accept;
    use plate::frame::{Frame, nth_frame};
    use plate::reader::Reader;
    use plate::row::Row;
    use plate::same::{first_difference, same};
    use plate::writer::{write_frames, write_header, write_miss_counted};
    use std::test::Fail;

    const PRINTED: [u8; 14] = [
        0x10, 0x80, 0x00, 0x40, 0x02, 0x20, 0x0A, 0x28, 0x00, 0x60, 0x03, 0x20, 0x14, 0x1E,
    ];

    // Number, layer and details of a plate's refusal; zeros where it is accepted. The number itself is what is tested, so a denial
    // is turned into its numbers.
    fn refusal(plate: &[u8]) -> (u16, u16, u16, u16) {
        match accept(plate) {
            Ok(_) => (0, 0, 0, 0),
            Err(d) => (d.number(), d.layer().number(), d.first, d.second),
        }
    }

    #[test]
    fn refuses_the_header(rt: HostRuntime) {
        assert_eq!(rt; refusal(&[]), (1, 1, 255, 0));
        assert_eq!(rt; refusal(&[0x20]), (1, 1, 255, 8));
        assert_eq!(rt; refusal(&[0x20, 0x00]), (2, 3, 255, 0));
        assert_eq!(rt; refusal(&[0x14, 0x40]), (3, 3, 255, 4));
        assert_eq!(rt; refusal(&[0x10, 0x00]), (3, 3, 255, 4));
        assert_eq!(rt; refusal(&[0x10, 0x51]), (3, 3, 255, 10));
    }

    #[test]
    fn refuses_rows(rt: HostRuntime) {
        assert_eq!(rt; refusal(&[0x10, 0x80, 0x00]), (1, 1, 0, 24));
        assert_eq!(rt;
            refusal(&[0x10, 0x40, 0, 0x40, 0x02, 0x21, 10, 40]),
            (4, 2, 0, 43)
        );
        assert_eq!(rt;
            refusal(&[0x10, 0x40, 0, 0x40, 0x05, 0x20, 10, 40]),
            (5, 2, 0, 28)
        );
        assert_eq!(rt;
            refusal(&[0x10, 0x40, 0, 0x40, 0x04, 0x20, 10, 40]),
            (0, 0, 0, 0)
        );
        assert_eq!(rt;
            refusal(&[0x10, 0x40, 0, 0x00, 0x05, 0x20, 10, 40]),
            (5, 2, 0, 16)
        );
        assert_eq!(rt;
            refusal(&[0x10, 0x40, 0, 0x40, 0x02, 0x20, 10, 0]),
            (6, 2, 0, 56)
        );
        assert_eq!(rt;
            refusal(&[0x10, 0x40, 0, 0x40, 0x02, 0x20, 10, 40, 7]),
            (7, 3, 255, 64)
        );
    }

    #[test]
    fn refuses_frames(rt: HostRuntime) {
        assert_eq!(rt;
            refusal(&[0x10, 0x01, 0, 0xA0, 0, 0x75, 0xA0]),
            (0, 0, 0, 0)
        );
        assert_eq!(rt;
            refusal(&[0x10, 0x01, 0, 0xA1, 0, 0x75, 0xA0]),
            (4, 2, 0, 31)
        );
        assert_eq!(rt;
            refusal(&[0x10, 0x01, 0, 0xA0, 0, 0x75, 0xA1]),
            (4, 2, 0, 52)
        );
        assert_eq!(rt;
            refusal(&[0x10, 0x01, 0, 0xA0, 0, 0xB5, 0xA0]),
            (5, 2, 0, 32)
        );
        assert_eq!(rt;
            refusal(&[0x10, 0x01, 0, 0xA0, 0, 0x70, 0x00]),
            (6, 2, 0, 44)
        );
        // A zero rank in the first frame and a zero budget in the second: rule 5 goes over the whole row first.
        assert_eq!(rt;
            refusal(&[0x10, 0x01, 0, 0xA2, 0, 0x70, 0, 0, 0, 0x10]),
            (5, 2, 0, 56)
        );
        assert_eq!(rt;
            refusal(&[0x10, 0x42, 0, 0x40, 0x02, 0, 10, 0, 0xA0, 0, 0x75, 0xA0, 0]),
            (1, 1, 2, 104)
        );
    }

    #[test]
    fn reads_the_printed_plate(rt: HostRuntime) -> Result<(), Fail> {
        assert_eq!(rt; refusal(&PRINTED), (0, 0, 0, 0));
        let mut reader = Reader::new(&PRINTED);
        for (gap, budget, low, high, at) in [
            (4u16, 2u16, 10u8, 40u8, 48usize),
            (6, 3, 20, 30, 96),
        ] {
            let Some(
                Row::MissCounted {
                    gap: g,
                    budget: b,
                    ranks,
                    place,
                },
            ) = reader.next_row()?
            else {
                return Err(Fail::new("a miss-counted row is missing"));
            };
            assert_eq!(rt; (g, b, place), (gap, budget, at));
            assert!(rt; same(ranks, &[low, high]));
        }
        assert!(rt; matches!(reader.next_row(), Ok(None)));
        assert!(rt; matches!(reader.next_row(), Ok(None)));
        let mut swapped = PRINTED;
        swapped[6] = 0x28;
        swapped[7] = 0x0A;
        assert_eq!(rt; refusal(&swapped), (6, 2, 0, 56));
        assert!(rt; !same(&PRINTED, &swapped));
        assert_eq!(rt; first_difference(&PRINTED, &swapped), Some(6));
        assert_eq!(rt; first_difference(&PRINTED, &PRINTED[0..9]), None);
        Ok(())
    }

    // A plate of 16 miss-counted rows of eight classes and 16 frame rows of eight frames: 610 bytes. (The crate of plan's tests has the
    // same: the two have no crate of tests below them.)
    fn largest(out: &mut [u8]) -> Result<usize, Denial> {
        let ranks = [1, 1, 2, 3, 5, 8, 13, 255];
        let frames = [Frame {
            budget: 4095,
            rank: 255,
        }; 8];
        let mut at = write_header(out, 16, 16)?;
        for _ in 0..16 {
            at = write_miss_counted(out, at, 4095, 4095, &ranks)?;
        }
        for _ in 0..16 {
            at = write_frames(out, at, 4095, &frames)?;
        }
        Ok(at)
    }

    #[test]
    fn writes_the_largest_plate(rt: HostRuntime) -> Result<(), Fail> {
        let mut out = [7; 612];
        assert_eq!(rt; largest(&mut out), Ok(610));
        assert_eq!(rt; (out[610], out[611]), (7, 7));
        assert_eq!(rt; refusal(&out[0..610]), (0, 0, 0, 0));
        assert_eq!(rt; refusal(&out[0..609]), (1, 1, 31, 4872));
        assert_eq!(rt; refusal(&out), (7, 3, 255, 4880));
        assert_eq!(rt;
            nth_frame(&out[586..610], 7),
            Some(Frame {
                budget: 4095,
                rank: 255,
            })
        );
        assert_eq!(rt; nth_frame(&out[586..610], 8), None);
        match largest(&mut out[0..600]) {
            Ok(_) => Err(Fail::new("600 bytes are too few")),
            Err(d) => {
                assert_eq!(rt;
                    (d.number(), d.layer().number(), d.first, d.second),
                    (8, 3, 610, 0)
                );
                Ok(())
            },
        }
    }
}
